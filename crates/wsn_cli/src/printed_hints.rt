use arrayvec::ArrayVec;
use std::fmt::Display;
use std::io::{self, Write};
use std::str;
use wsn_color::{Layout, Painter};
use wsn_hint::Hint;

/// A hint's line with codes: at most 91 bytes, two codes and an LF.
type PaintedLine = ArrayVec<u8, 256>;

/// Prints a hint on standard error, in colours or not. What can't be written is dropped.
pub fn print_hint<R: Eprint, D: Display + Drop>(rt: &R, hint: D, in_colors: bool) {
    if !in_colors {
        let _ = eprintln!(rt; "{hint}");
        return;
    }
    let mut line = PaintedLine::new();
    let _ = paint(&mut line, hint);
    if let Ok(text) = str::from_utf8(line.as_slice()) {
        let _ = rt.eprint(text);
    }
}

/// Prints the hint on standard error, if there is one, in colours or not.
pub fn give_hint<R: Eprint>(rt: &R, hint: Option<Hint>, in_colors: bool) {
    if let Some(hint) = hint {
        print_hint(rt, hint.line(), in_colors);
    }
}

/// Writes a hint and an LF, in colours.
fn paint<W: Write + Drop, D: Display + Drop>(output: W, hint: D) -> io::Result<()> {
    let mut painter = Painter::new(output, Layout::Explanation);
    writeln!(painter, "{hint}")?;
    painter.flush()
}
