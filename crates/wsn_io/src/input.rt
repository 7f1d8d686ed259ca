ghost use Rattle.std.specs.Prelude.{◌≡◌, ℕ, ◌+◌, ◌<◌, ◌≤◌, Some, true, false, length, take, IfSome, IfNone, None};
ghost use Rattle.std.specs.Io.KnownBytes.{Consumes, IsAtEnd, Keeps};

use crate::byte_source::ByteSource;
use std::io::Read;
use std::marker::Model;

/// The bytes that come from a reader or from memory, how many have come, and whether a read has failed.
/// `Input::new(&mut reader)` borrows the reader, which can be used again afterwards.
#[derive(Drop)]
pub struct Input<'m, R: Read> {
    source: ByteSource<'m, R>,
    count: u64,
    failed: bool,
}

impl<'m, R: Read> Model for Input<'m, R> {
    ghost use Rattle.wsn_io.specs.Transfer.{Incoming};
    ghost use Rattle.wsn_io.specs.ByteSources.{bytes_left, is_lent, IsCountable};

    ghost Value = { Incoming };

    ghost view = { λ i. record {
      remaining = bytes_left R.remaining i.source;
      count = i.count;
      failed = i.failed;
      lent = is_lent i.source;
    } };

    ghost invariant = { λ i. IsCountable i.count i.source };
}

impl<'m> Input<'m, &'m [u8]> {
    /// An input of bytes in memory: no read of it fails. No byte has come yet.
    pub fn lent(bytes: &'m [u8]) -> Self
        ensures remaining { result.remaining ≡ Some bytes.now }
        ensures count { result.count ≡ 0 }
        ensures failed { result.failed ≡ false }
        ensures lent { result.lent ≡ true }
    {
        Self::over(ByteSource::Lent(bytes))
    }
}

impl<'m, R: Read> Input<'m, R> {
    ghost use Rattle.wsn_io.specs.ByteSources.{bytes_left, is_lent, IsCountable};
    ghost use Rattle.wsn_io.specs.Transfer.{IsKept, StaysReadable};

    /// An input of all that the reader has left. No byte has come and no read has failed yet.
    pub fn new(reader: R) -> Self
        ensures remaining { result.remaining ≡ R.remaining reader }
        ensures count { result.count ≡ 0 }
        ensures failed { result.failed ≡ false }
    {
        Self::over(ByteSource::Reader(reader))
    }

    /// An input of all that is left of these bytes.
    fn over(source: ByteSource<'m, R>) -> Self
        requires countable { IsCountable 0 source }
        ensures remaining { result.remaining ≡ bytes_left R.remaining source.entry }
        ensures count { result.count ≡ 0 }
        ensures failed { result.failed ≡ false }
        ensures lent { result.lent ≡ is_lent source.entry }
    {
        Input {
            source,
            count: 0,
            failed: false,
        }
    }

    /// The reader, in the state in which the last read left it; `None` if the bytes are in memory.
    pub fn reader(&self) -> Option<&R>
        ensures { IfSome result (λ reader. R.remaining reader.now ≡ self.now.remaining) }
    {
        match &self.source {
            ByteSource::Reader(reader) => Some(reader),
            ByteSource::Lent(_) => None,
        }
    }

    /// Whether a read has failed. Once true, it stays true.
    #[tactic(none)]
    pub fn failed(&self) -> bool
        ensures { result ≡ self.now.failed }
    {
        self.failed
    }

    /// Reads once and returns the number of bytes that were put at the start of `into`: 0 only at the end of the input.
    /// The contents of `into` after that number of bytes are unspecified. `None`, and failed, if the reader returns an
    /// error of any kind; the error consumes no byte. The same, without a call, once 2^64 - 1 bytes have come. Bytes in
    /// memory can always be read.
    pub fn read(&mut self, into: &mut [u8]) -> Option<usize>
        requires { 0 < length into.old }
        ensures within { IfSome result (λ n. n ≤ length into.new) }
        ensures bytes { IfSome result (λ n. Consumes self.old.remaining self.new.remaining (take n into.new)) }
        ensures end { IfSome result (λ n. n ≡ 0 → IsAtEnd self.new.remaining) }
        ensures counted { IfSome result (λ n. self.new.count ≡ self.old.count + n) }
        ensures some { IfSome result (λ _. self.new.failed ≡ self.old.failed) }
        ensures none { IfNone result ((self.new.failed ≡ true) × IsKept self.old self.new) }
        ensures readable { StaysReadable self.old self.new }
    {
        let room = (u64::MAX - self.count).min(into.len() as u64) as usize;
        if room == 0 {
            return self.fail();
        }
        let Some(count) = self.source.next_bytes(&mut into[..room]) else {
            return self.fail();
        };
        self.count += count as u64;
        Some(count)
    }

    /// Remembers that a read has failed, and returns `None`.
    fn fail(&mut self) -> Option<usize>
        ensures none { result ≡ None }
        ensures failed { self.new.failed ≡ true }
        ensures lent { self.new.lent ≡ self.old.lent }
        ensures kept { Keeps self.old.remaining self.new.remaining }
        ensures counted { self.new.count ≡ self.old.count }
    {
        self.failed = true;
        None
    }
}
