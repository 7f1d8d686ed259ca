ghost use Rattle.std.specs.Prelude.{◌≡◌, ◌+◌, ◌≤◌, ◌++◌, length, take};

use std::io::{self, ErrorKind, Write};
use std::marker::Model;

/// A writer into memory that a caller lends. It takes as much of each write as fits; a write of which nothing fits is an
/// error.
#[derive(Drop)]
pub(crate) struct Room<'a> {
    memory: &'a mut [u8],
    /// The first `len` bytes of the memory are written.
    len: usize,
}

impl<'a> Model for Room<'a> {
    ghost use Rattle.std.specs.Prelude.{◌≤◌, take, length};
    ghost use Rattle.wsn_page.specs.Rooms.{Writing};

    ghost Value = { Writing };

    ghost view = { λ r. record { text = take r.len r.memory.now; size = length r.memory.now } };

    ghost invariant = { λ r. r.len ≤ length r.memory.now };
}

impl<'a> Room<'a> {
    ghost use Rattle.std.specs.Prelude.{◌≡◌, [], length};

    /// A room in which nothing is written.
    pub(crate) fn new(memory: &'a mut [u8]) -> Self
        ensures text { result.text ≡ [] }
        ensures size { result.size ≡ length memory.old }
    {
        Room { memory, len: 0 }
    }

    /// All that was written.
    pub(crate) fn text(&self) -> &[u8]
        ensures { result.now ≡ self.now.text }
    {
        &self.memory[..self.len]
    }
}

impl Write for Room<'_> {
    ghost use Rattle.std.specs.Prelude.{◌≡◌, ◌++◌, ◌+◌, ◌≤◌, Some, Ok, IsOk, length, take};
    ghost use Rattle.std.specs.Io.{WritesAtMost};
    ghost use Rattle.std.specs.Io.KnownBytes.{Keeps, WriteAppends};

    ghost contents = { λ r. Some r.text };

    fn write(&mut self, bytes: &[u8]) -> io::Result<usize>
        ensures bound { WritesAtMost result bytes.now }
        ensures bytes { WriteAppends (Some self.old.text) (Some self.new.text) result bytes.now }
        ensures size { self.new.size ≡ self.old.size }

        // The room holds the longest prefix of the text that fits into it, whether the write succeeds or fails.
        ensures longest { self.new.text ≡ take self.old.size (self.old.text ++ bytes.now) }
        ensures fits { length self.old.text + length bytes.now ≤ self.old.size → result ≡ Ok (length bytes.now) }
    {
        let count = bytes.len().min(self.memory.len() - self.len);
        if count == 0 && !bytes.is_empty() {
            return Err(ErrorKind::WriteZero.into());
        }
        self.len = put_after(&bytes[..count], self.memory, self.len);
        Ok(count)
    }

    fn flush(&mut self) -> io::Result<()>
        ensures bytes { Keeps (Some self.old.text) (Some self.new.text) }
        ensures done { IsOk result }
    {
        Ok(())
    }
}

/// Puts bytes after the first `len` bytes of the memory, and returns where they end.
fn put_after(bytes: &[u8], memory: &mut [u8], len: usize) -> usize
    requires { len + length bytes.now ≤ length memory.old }
    ensures end { result ≡ len + length bytes.now }
    ensures written { take result memory.new ≡ take len memory.old ++ bytes.now }
{
    let end = len + bytes.len();
    memory[len..end].copy_from_slice(bytes);
    end
}
