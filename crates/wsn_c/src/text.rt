use std::alloc::Allocator;
use std::io::{self, ErrorKind, Write};
use std::marker::Model;

/// A text in memory, which grows as it is written. Where memory is refused, it takes as much of a write as it still has
/// room for; a write of which nothing fits is an error.
#[derive(Drop)]
pub(crate) struct Text<A: Allocator> {
    bytes: Vec<u8, A>,
}

impl<A: Allocator> Model for Text<A> {
    ghost use Rattle.std.specs.Prelude.{ℕ, List};

    ghost Value = { List ℕ };

    ghost view = { λ t. t.bytes.items };
}

impl<A: Allocator> Text<A> {
    ghost use Rattle.std.specs.Prelude.{◌≡◌, []};

    /// A text of no bytes.
    pub(crate) fn new(alloc: A) -> Self
        ensures { result ≡ [] }
    {
        Text {
            bytes: Vec::new(alloc),
        }
    }

    /// All that was written.
    pub(crate) fn as_slice(&self) -> &[u8]
        ensures { result.now ≡ self.now }
    {
        self.bytes.as_slice()
    }

    /// Makes room for more bytes: for this number, or else for half of it, and so on.
    fn make_room(&mut self, bytes: usize)
        ensures { self.new ≡ self.old }
    {
        let mut more = bytes;
        while more > 0 {
            if self.bytes.reserve_exact(more).is_ok() {
                return;
            }
            more /= 2;
        }
    }
}

impl<A: Allocator> Write for Text<A> {
    ghost use Rattle.std.specs.Prelude.{IsOk, Some};
    ghost use Rattle.std.specs.Io.{WritesAtMost};
    ghost use Rattle.std.specs.Io.KnownBytes.{Keeps, WriteAppends};

    ghost contents = { λ t. Some t };

    fn write(&mut self, bytes: &[u8]) -> io::Result<usize>
        ensures bound { WritesAtMost result bytes.now }
        ensures bytes { WriteAppends (Some self.old) (Some self.new) result bytes.now }
    {
        if self.bytes.extend_from_slice(bytes).is_ok() {
            return Ok(bytes.len());
        }
        self.make_room(bytes.len());
        let count = bytes.len().min(self.bytes.capacity() - self.bytes.len());
        match self.bytes.extend_from_slice(&bytes[..count]) {
            Ok(()) if count > 0 => Ok(count),
            _ => Err(ErrorKind::OutOfMemory.into()),
        }
    }

    fn flush(&mut self) -> io::Result<()>
        ensures bytes { Keeps (Some self.old) (Some self.new) }
        ensures done { IsOk result }
    {
        Ok(())
    }
}
