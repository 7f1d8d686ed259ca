ghost use Rattle.std.specs.Prelude.{◌≡◌, ◌<◌, ◌≤◌, ◌++◌, [], true, false, length, take, IfSome, IfNone, IsSome};
ghost use Rattle.std.specs.Io.KnownBytes.{Consumes, IsAtEnd, Keeps};
ghost use Rattle.wsn_io.specs.ByteSources.{bytes_left, is_lent};

use std::io::Read;

/// Where the bytes of an input come from: a reader, or memory, where no read fails.
#[derive(Drop)]
pub(crate) enum ByteSource<'m, R: Read> {
    Reader(R),
    Lent(&'m [u8]),
}

impl<R: Read> ByteSource<'_, R> {
    /// Puts the next bytes at the start of `into` and returns their number: 0 only at the end. `None` if the read fails;
    /// that consumes no byte.
    pub(crate) fn next_bytes(&mut self, into: &mut [u8]) -> Option<usize>
        ensures within { IfSome result (λ n. n ≤ length into.new) }
        ensures bytes { IfSome result (λ n. Consumes (bytes_left R.remaining self.old) (bytes_left R.remaining self.new)
            (take n into.new)) }
        ensures end { IfSome result (λ n. n ≡ 0 → 0 < length into.old → IsAtEnd (bytes_left R.remaining self.new)) }
        ensures kept { IfNone result (Keeps (bytes_left R.remaining self.old) (bytes_left R.remaining self.new)) }
        ensures never_fails { is_lent self.old ≡ true → IsSome result }
        ensures lent { is_lent self.new ≡ is_lent self.old }
    {
        match self {
            ByteSource::Reader(reader) => reader.read(into).ok(),
            ByteSource::Lent(bytes) => Some(take_front(bytes, into)),
        }
    }
}

/// Puts as many of the bytes as fit at the start of `into`, and takes them off. Returns their number.
fn take_front(bytes: &mut &[u8], into: &mut [u8]) -> usize
    ensures within { result ≤ length into.new }
    ensures bytes { bytes.old.now ≡ take result into.new ++ bytes.new.now }
    ensures end { result ≡ 0 → 0 < length into.old → bytes.new.now ≡ [] }
{
    let count = bytes.len().min(into.len());
    let (front, rest) = bytes.split_at(count);
    into[..count].copy_from_slice(front);
    *bytes = rest;
    count
}
