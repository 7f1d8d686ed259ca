ghost use Rattle.std.specs.Prelude.{◌≡◌, ◌⊎◌};

use crate::mistake::Mistake;
use arrayvec::ArrayVec;
use std::io::{self, ErrorKind, Write};
use std::rt::Runtime;
use std::str;
use wsn_color::{Layout, Painter};
use wsn_io::Stop;

/// The exit status for a fault.
pub const FAULT: u8 = 2;

/// A line to be printed later, on standard error: a verdict or a fault.
pub type OneLine = ArrayVec<u8, 128>;

/// Prints a text on standard error and returns the exit status for a fault. What can't be written is dropped.
pub fn diagnose<R: Eprint>(rt: &R, text: &str) -> u8
    ensures { result ≡ 2 }
{
    let _ = rt.eprint(text);
    FAULT
}

/// Reports which rule of the command line its words break, and returns the exit status for a fault.
pub fn diagnose_usage<R: Eprint>(rt: &R, mistake: Mistake) -> u8
    ensures { result ≡ 2 }
{
    let line = mistake.line();
    let _ = eprintln!(rt; "{line}");
    FAULT
}

/// Reports a stop on standard error and returns the exit status for a fault.
pub fn diagnose_stop<R: Eprint>(rt: &R, stop: Stop) -> u8
    ensures { result ≡ 2 }
{
    let _ = eprintln!(rt; "{stop}");
    FAULT
}

/// Prints a text on standard output, coloured by its layout, and returns the exit status. Nothing is reported if nobody
/// reads it.
pub fn show<R: Print + Eprint>(rt: &R, text: &str, layout: Option<Layout>) -> u8
    ensures { (result ≡ 0) ⊎ (result ≡ 2) }
{
    let printed = match layout {
        None => rt.print(text),
        Some(layout) => paint(io::writer(rt), text, layout),
    };
    let Err(error) = printed else {
        return 0;
    };
    if error.kind() == ErrorKind::BrokenPipe {
        FAULT
    } else {
        diagnose_stop(rt, Stop::Write)
    }
}

/// Writes a text, coloured by its layout.
fn paint<W: Write + Drop>(output: W, text: &str, layout: Layout) -> io::Result<()> {
    let mut painter = Painter::new(output, layout);
    painter.write_all(text.as_bytes())?;
    painter.flush()
}

/// Prints on standard error what was kept until standard output was written.
pub fn finish<R: Eprint>(rt: &R, diagnosed: &OneLine) {
    if let Ok(line) = str::from_utf8(diagnosed.as_slice()) {
        let _ = rt.eprint(line);
    }
}
