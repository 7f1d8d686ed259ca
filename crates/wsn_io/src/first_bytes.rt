use arrayvec::ArrayVec;
use std::io::{self, Read};
use std::marker::Model;

/// The maximum number of bytes that a `FirstBytes` keeps: eight lines of a capture of the greatest length.
const KEPT: usize = 65_536;

/// A reader that returns what another reader returns, and keeps the first 65,536 bytes of it. `BlockReader::new(&mut first)`
/// borrows it, so that the bytes can be looked at afterwards.
#[derive(Drop)]
pub struct FirstBytes<R: Read> {
    reader: R,
    kept: ArrayVec<u8, KEPT>,
}

impl<R: Read> Model for FirstBytes<R> {
    ghost use Rattle.wsn_io.specs.FirstReads.{FirstRead};

    ghost Value = { FirstRead };

    ghost view = { λ f. record { remaining = R.remaining f.reader; kept = f.kept.items } };
}

impl<R: Read> FirstBytes<R> {
    ghost use Rattle.std.specs.Prelude.{◌≡◌, ℕ, List, [], ◌++◌, take};

    /// A reader of all that `reader` has left. No byte has been returned yet.
    pub fn new(reader: R) -> Self
        ensures remaining { result.remaining ≡ R.remaining reader }
        ensures kept { result.kept ≡ [] }
    {
        FirstBytes {
            reader,
            kept: ArrayVec::new(),
        }
    }

    /// The first 65,536 bytes that were returned, or all of them if there are fewer.
    pub fn kept(&self) -> &[u8]
        ensures { result.now ≡ self.now.kept }
    {
        self.kept.as_slice()
    }

    /// Keeps as many of these bytes as there is room for. They come after all that were returned.
    fn keep(&mut self, bytes: &[u8])
        ensures remaining { self.new.remaining ≡ self.old.remaining }
        ensures kept { (returned : List ℕ) → self.old.kept ≡ take 65536 returned →
            self.new.kept ≡ take 65536 (returned ++ bytes.now) }
    {
        let room = self.kept.remaining_capacity();
        let _fits = self
            .kept
            .try_extend_from_slice(&bytes[..room.min(bytes.len())]);
    }
}

impl<R: Read> Read for FirstBytes<R> {
    ghost use Rattle.std.specs.Prelude.{◌≡◌, ℕ, List, ◌++◌, take};
    ghost use Rattle.std.specs.Io.{ReadsAtMost};
    ghost use Rattle.std.specs.Io.KnownBytes.{ReadConsumes};
    ghost use Rattle.wsn_io.specs.FirstReads.{returned_in};

    ghost remaining = { λ f. f.remaining };

    fn read(&mut self, into: &mut [u8]) -> io::Result<usize>
        ensures bound { ReadsAtMost result into.new }
        ensures bytes { ReadConsumes self.old.remaining self.new.remaining result into.new }
        ensures kept { (returned : List ℕ) → self.old.kept ≡ take 65536 returned →
            self.new.kept ≡ take 65536 (returned ++ returned_in result into.new) }
    {
        let count = self.reader.read(into)?;
        self.keep(&into[..count]);
        Ok(count)
    }
}
