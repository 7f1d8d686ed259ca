ghost use Rattle.std.specs.Prelude.{◌≡◌};

use crate::blocks::BlockWriter;
use std::cell::RefCell;
use std::io::{self, ErrorKind, Read, Write};

/// A reader that flushes an output before each read. If the flush fails, the output remembers the failure, and the read
/// is made all the same. While the output is in use elsewhere, a read doesn't flush it.
#[derive(Drop)]
pub struct TiedReader<'a, R: Read, W: Write> {
    reader: R,
    output: &'a RefCell<BlockWriter<W>>,
}

impl<'a, R: Read, W: Write> TiedReader<'a, R, W> {
    /// A reader of all that `reader` has left, tied to `output`.
    pub fn new(reader: R, output: &'a RefCell<BlockWriter<W>>) -> Self
        ensures { result.reader ≡ reader }
    {
        TiedReader { reader, output }
    }
}

impl<R: Read, W: Write> Read for TiedReader<'_, R, W> {
    ghost remaining = { λ t. R.remaining t.reader };

    #[tactic(none)]
    fn read(&mut self, into: &mut [u8]) -> io::Result<usize> {
        if let Ok(mut output) = self.output.try_borrow_mut() {
            output.flush();
        }
        self.reader.read(into)
    }
}

/// A writer to an output that a `TiedReader` shares. `write` fails once a write to the output has failed.
#[derive(Drop)]
pub struct TiedWriter<'a, W: Write> {
    output: &'a RefCell<BlockWriter<W>>,
}

impl<'a, W: Write> TiedWriter<'a, W> {
    /// A writer whose bytes come after those that the output has buffered.
    pub fn new(output: &'a RefCell<BlockWriter<W>>) -> Self {
        TiedWriter { output }
    }
}

impl<W: Write> Write for TiedWriter<'_, W> {
    #[inline(always)]
    fn write(&mut self, bytes: &[u8]) -> io::Result<usize> {
        if let Ok(mut output) = self.output.try_borrow_mut() {
            if output.put(bytes) {
                return Ok(bytes.len());
            }
        }
        Err(ErrorKind::Other.into())
    }

    fn flush(&mut self) -> io::Result<()> {
        if let Ok(mut output) = self.output.try_borrow_mut() {
            if output.flush() {
                return Ok(());
            }
        }
        Err(ErrorKind::Other.into())
    }
}
