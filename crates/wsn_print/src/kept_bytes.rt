ghost use Rattle.std.specs.Prelude.{◌≡◌, ℕ, ◌+◌, ◌<◌, ◌≤◌, true, false, List, [], ◌++◌, length, take, drop};
ghost use Rattle.std.specs.Fn.{FnOnceTakesAtMut, FnOnceReturnsAtMut};
ghost use Rattle.wsn_io.specs.Stops.{IsWrittenOrStops};

use std::io::Write;
use std::marker::Model;
use wsn_io::{Output, Stop, put_line};

/// Bytes that are kept in an array, at most `MAX` of them.
#[derive(Drop)]
pub struct KeptBytes<const MAX: usize> {
    pub(crate) bytes: [u8; MAX],
    /// The first `len` bytes are kept.
    pub(crate) len: usize,
}

impl<const MAX: usize> Model for KeptBytes<MAX> {
    ghost use Rattle.std.specs.Prelude.{ℕ, ◌≤◌, List, take};

    ghost Value = { List ℕ };

    ghost view = { λ kept. take kept.len kept.bytes };

    ghost invariant = { λ kept. kept.len ≤ MAX };
}

impl<const MAX: usize> KeptBytes<MAX> {
    /// No bytes.
    #[inline(always)]
    pub fn new() -> Self
        ensures { result ≡ [] }
    {
        KeptBytes {
            bytes: [0; MAX],
            len: 0,
        }
    }

    /// Forgets the bytes.
    #[inline(always)]
    pub fn clear(&mut self)
        ensures { self.new ≡ [] }
    {
        self.len = 0;
    }

    /// The number of the bytes.
    #[inline(always)]
    pub fn len(&self) -> usize
        ensures value { result ≡ length self.now }
        ensures fits { result ≤ MAX }
    {
        self.len
    }

    /// Whether this many bytes more fit.
    #[inline(always)]
    pub fn has_room(&self, number: usize) -> bool
        requires { number ≤ MAX }
        ensures room { result ≡ true → length self.now + number ≤ MAX }
        ensures full { result ≡ false → MAX < length self.now + number }
    {
        self.len <= MAX - number
    }

    /// The bytes.
    #[inline(always)]
    pub fn as_slice(&self) -> &[u8]
        ensures value { result.now ≡ self.now }
        ensures fits { length result.now ≤ MAX }
    {
        &self.bytes[..self.len]
    }

    /// Adds bytes, which fit.
    pub fn add(&mut self, bytes: &[u8])
        requires { length self.old + length bytes.now ≤ MAX }
        ensures { self.new ≡ self.old ++ bytes.now }
    {
        let start = self.len;
        let end = start + bytes.len();
        let all = &mut self.bytes[..];
        all[start..end].copy_from_slice(bytes);
        self.len = end;
    }

    /// Adds bytes by a function that writes them at the start of the room that is left, and returns their number.
    #[inline(always)]
    pub fn add_with<F: FnOnce(&mut [u8]) -> usize>(&mut self, write: F)
        requires callable { (room : List ℕ) → length self.old + length room ≡ MAX →
            FnOnceTakesAtMut F.FnOnce write room }
        requires fits { (room filled : List ℕ) (number : ℕ) → length self.old + length room ≡ MAX →
            FnOnceReturnsAtMut F.FnOnce write room number filled → number ≤ length room }
        ensures { (room filled : List ℕ) × (number : ℕ) × (length self.old + length room ≡ MAX)
            × FnOnceReturnsAtMut F.FnOnce write room number filled × (self.new ≡ self.old ++ take number filled) }
    {
        let at = self.len;
        let all = &mut self.bytes[..];
        let number = write(&mut all[at..]);
        self.len = at + number;
    }

    /// Drops the first `number` bytes.
    pub fn drop_front(&mut self, number: usize)
        requires { number ≤ length self.old }
        ensures { self.new ≡ drop number self.old }
    {
        if number > 0 {
            self.bytes.copy_within(number..self.len, 0);
            self.len -= number;
        }
    }

    /// Writes the bytes, and forgets them, if this many more don't fit. `Stop::Write` if the writer fails: a prefix of them
    /// was written.
    #[inline(always)]
    pub fn make_room<W: Write>(&mut self, to: &mut Output<W>, number: usize) -> Result<(), Stop>
        requires unfailed { to.old.failed ≡ false }
        requires fits { number ≤ MAX }
        ensures kept { (front : List ℕ) × (front ++ self.new ≡ self.old)
            × IsWrittenOrStops to.old to.new front result }
        ensures room { length self.new + number ≤ MAX }
    {
        if self.has_room(number) {
            Ok(())
        } else {
            self.write_to(to)
        }
    }

    /// Writes the bytes, and forgets them. `Stop::Write` if the writer fails: a prefix of them was written.
    #[inline(never)]
    pub fn write_to<W: Write>(&mut self, to: &mut Output<W>) -> Result<(), Stop>
        requires { to.old.failed ≡ false }
        ensures written { IsWrittenOrStops to.old to.new self.old result }
        ensures none_kept { self.new ≡ [] }
    {
        let written = put_line(to, self.as_slice());
        self.clear();
        written
    }
}
