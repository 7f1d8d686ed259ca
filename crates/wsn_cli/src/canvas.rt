use std::io::{self, Write};
use wsn_color::{Layout, Painter};

/// Where an answer is written: a writer, in colours or not.
#[derive(Drop)]
pub enum Canvas<W: Write> {
    Plain(W),
    Colored(Painter<W>),
}

impl<W: Write> Canvas<W> {
    /// The writer, in the colours of a layout if there is one.
    pub fn new(writer: W, layout: Option<Layout>) -> Self {
        match layout {
            Some(layout) => Canvas::Colored(Painter::new(writer, layout)),
            None => Canvas::Plain(writer),
        }
    }
}

impl<W: Write> Write for Canvas<W> {
    fn write(&mut self, bytes: &[u8]) -> io::Result<usize> {
        match self {
            Canvas::Plain(writer) => writer.write(bytes),
            Canvas::Colored(painter) => painter.write(bytes),
        }
    }

    fn flush(&mut self) -> io::Result<()> {
        match self {
            Canvas::Plain(writer) => writer.flush(),
            Canvas::Colored(painter) => painter.flush(),
        }
    }
}
