ghost use Rattle.std.specs.Prelude.{◌≡◌, ℕ, ◌≤◌, ◌++◌, [], length, take, slice_range, false, not, true, OnOk};
ghost use Rattle.std.specs.Io.KnownBytes.{Appends, IsAtEnd, Keeps, prepend_known};
ghost use Rattle.wsn_io.specs.Blocks.{all_of};

use crate::output::Output;
use std::io::{self, Read, Write};
use std::marker::Model;

/// The size in bytes of the block that a `BlockReader` fills with each read.
const BLOCK: usize = 65_536;

/// The maximum number of bytes that a `BlockWriter` buffers.
const PENDING: usize = 8_192;

/// A reader that reads from another reader in blocks of 65,536 bytes. It reads the next block only after it has
/// returned all bytes of the last.
#[derive(Drop)]
pub struct BlockReader<R: Read> {
    reader: R,
    block: [u8; BLOCK],
    start: usize,
    end: usize,
    ghost ordered: { start ≤ end },
    ghost within: { end ≤ 65536 },
}

impl<R: Read> BlockReader<R> {
    /// A reader of all that `reader` has left. Nothing has been read yet.
    #[tactic(none)]
    pub fn new(reader: R) -> Self
        ensures reader { result.reader ≡ reader }
        ensures nothing_held { result.start ≡ result.end }
    {
        BlockReader {
            reader,
            block: [0; BLOCK],
            start: 0,
            end: 0,
        }
    }

    /// Reads the next block if no byte of the last one is left. The bytes to come stay the same, also after an error.
    #[tactic(none)]
    fn fill(&mut self) -> io::Result<()>
        ensures bytes { Keeps
            (prepend_known (slice_range self.old.block self.old.start self.old.end) (R.remaining self.old.reader))
            (prepend_known (slice_range self.new.block self.new.start self.new.end) (R.remaining self.new.reader)) }
        ensures end { OnOk result (self.new.start ≡ self.new.end → IsAtEnd (R.remaining self.new.reader)) }
    {
        if self.start == self.end {
            self.start = 0;
            self.end = 0;
            self.end = self.reader.read(&mut self.block)?;
        }
        Ok(())
    }
}

impl<R: Read> Read for BlockReader<R> {
    ghost remaining = { λ b. prepend_known (slice_range b.block b.start b.end) (R.remaining b.reader) };

    #[tactic(none)]
    fn read(&mut self, into: &mut [u8]) -> io::Result<usize> {
        self.fill()?;
        let held = &self.block[self.start..self.end];
        let count = held.len().min(into.len());
        into[..count].copy_from_slice(&held[..count]);
        self.start += count;
        Ok(count)
    }
}

/// A buffer of 8,192 bytes before a writer. After a failed write, nothing more is written.
#[derive(Drop)]
pub struct BlockWriter<W: Write> {
    output: Output<W>,
    block: [u8; PENDING],
    /// The first `len` bytes of the block are buffered.
    len: usize,
}

impl<W: Write> Model for BlockWriter<W> {
    ghost use Rattle.std.specs.Prelude.{◌≤◌, take};
    ghost use Rattle.wsn_io.specs.Blocks.{BlockOutput};

    ghost Value = { BlockOutput };

    ghost view = { λ w. record { written = w.output.written; pending = take w.len w.block; failed = w.output.failed } };

    ghost invariant = { λ w. w.len ≤ 8192 };
}

impl<W: Write> BlockWriter<W> {
    /// A writer with an empty buffer and no failure.
    #[tactic(none)]
    pub fn new(writer: W) -> Self
        ensures written { result.written ≡ W.contents writer }
        ensures pending { result.pending ≡ [] }
        ensures failed { result.failed ≡ false }
    {
        BlockWriter {
            output: Output::new(writer),
            block: [0; PENDING],
            len: 0,
        }
    }

    /// Buffers the bytes; the next `flush` writes whatever is still buffered. `false` if a write fails now or has
    /// failed before. If it fails now, a prefix of the buffered bytes followed by `bytes` has been written; if it
    /// failed before, nothing changes.
    #[inline(always)]
    #[tactic(none)]
    pub fn put(&mut self, bytes: &[u8]) -> bool
        ensures all { result ≡ true → Appends (all_of self.old) (all_of self.new) bytes.now }
        ensures failed { self.new.failed ≡ not result }
        ensures for_good { self.old.failed ≡ true → (result ≡ false) × (self.new ≡ self.old) }
        ensures prefix { result ≡ false →
            (k : ℕ) × Appends self.old.written self.new.written (take k (self.old.pending ++ bytes.now)) }
    {
        if self.output.failed() {
            return false;
        }
        if self.hold(bytes) {
            return true;
        }
        self.flush() && self.put_first(bytes)
    }

    /// Appends the bytes to the buffer if they fit.
    #[inline(always)]
    #[tactic(none)]
    fn hold(&mut self, bytes: &[u8]) -> bool
        ensures held { result ≡ true → self.new.pending ≡ self.old.pending ++ bytes.now }
        ensures full { result ≡ false → self.new ≡ self.old }
        ensures written { self.new.written ≡ self.old.written }
        ensures failed { self.new.failed ≡ self.old.failed }
    {
        if bytes.len() > PENDING - self.len {
            return false;
        }
        let end = self.len + bytes.len();
        self.block[self.len..end].copy_from_slice(bytes);
        self.len = end;
        true
    }

    /// Like `put`, on an empty buffer. Bytes that don't fit into the buffer are written at once.
    #[cold]
    #[inline(never)]
    #[tactic(none)]
    fn put_first(&mut self, bytes: &[u8]) -> bool
        requires empty { self.old.pending ≡ [] }
        requires writable { self.old.failed ≡ false }
        ensures all { result ≡ true → Appends (all_of self.old) (all_of self.new) bytes.now }
        ensures failed { self.new.failed ≡ not result }
        ensures prefix { result ≡ false → (k : ℕ) × Appends self.old.written self.new.written (take k bytes.now) }
    {
        if self.hold(bytes) {
            return true;
        }
        self.output.put(bytes)
    }

    /// Writes all buffered bytes. `false` if a write fails now or has failed before. If it fails now, a prefix of the
    /// buffered bytes has been written; if it failed before, nothing changes. It doesn't flush the writer itself.
    #[inline(never)]
    #[tactic(none)]
    pub fn flush(&mut self) -> bool
        ensures all { result ≡ true → Appends self.old.written self.new.written self.old.pending }
        ensures none_left { result ≡ true → self.new.pending ≡ [] }
        ensures failed { self.new.failed ≡ not result }
        ensures for_good { self.old.failed ≡ true → (result ≡ false) × (self.new ≡ self.old) }
        ensures prefix { result ≡ false → (k : ℕ) × Appends self.old.written self.new.written (take k self.old.pending) }
    {
        if self.output.failed() || !self.output.put(&self.block[..self.len]) {
            return false;
        }
        self.len = 0;
        true
    }
}
