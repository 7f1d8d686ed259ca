use std::io::{self, ErrorKind, Write};

/// Standard output, and whether a write has failed since nobody reads it: the pipe that it is has no reader.
#[derive(Drop)]
pub struct Pipe<W: Write> {
    writer: W,
    has_no_reader: bool,
}

impl<W: Write> Pipe<W> {
    /// A writer to which no write has failed.
    pub fn new(writer: W) -> Self {
        Pipe {
            writer,
            has_no_reader: false,
        }
    }

    /// Whether the last write that failed found no reader.
    pub fn has_no_reader(&self) -> bool {
        self.has_no_reader
    }
}

impl<W: Write> Write for Pipe<W> {
    fn write(&mut self, bytes: &[u8]) -> io::Result<usize> {
        match self.writer.write(bytes) {
            Ok(count) => Ok(count),
            Err(error) => {
                self.has_no_reader = error.kind() == ErrorKind::BrokenPipe;
                Err(error)
            }
        }
    }

    fn flush(&mut self) -> io::Result<()> {
        self.writer.flush()
    }
}
