ghost use Rattle.std.specs.Prelude.{◌≡◌, ◌+◌, ◌^◌, ◌<◌, ◌≤◌, ◌++◌, length, take, decimal};

use crate::parts::put_front;
use itoa::write_digits;

/// The decimal digits of a number below 10^16, which are kept for as long as the same number is written again.
#[derive(Drop)]
pub(crate) struct KeptDigits {
    n: u64,
    digits: [u8; 16],
    len: usize,
    ghost short: { len ≤ 16 },
    ghost kept: { take len digits ≡ decimal n },
}

impl KeptDigits {
    /// The digit of 0.
    pub(crate) fn new() -> Self {
        KeptDigits {
            n: 0,
            digits: [b'0'; 16],
            len: 1,
        }
    }

    /// Keeps the digits of a number in place of the earlier ones.
    #[cold]
    #[inline(never)]
    fn keep(&mut self, n: u64)
        requires { n < 10 ^ 16 }
        ensures { self.new.n ≡ n }
    {
        let mut block = [0; 32];
        let start = write_digits(n, &mut block, 16);
        self.digits.copy_from_slice(&block[start..start + 16]);
        self.len = 16 - start;
        self.n = n;
    }

    /// Writes a number in decimal digits, at most 16, at `at`, and returns where they end. They are made anew only if the
    /// number isn't the one that was written last.
    #[inline(always)]
    pub(crate) fn put(&mut self, n: u64, text: &mut [u8], at: usize) -> usize
        requires { (n < 10 ^ 16) × (at + 16 ≤ length text.old) }
        ensures end { (at ≤ result) × (result ≤ at + 16) }
        ensures written { take result text.new ≡ take at text.old ++ decimal n }
    {
        if self.n != n {
            self.keep(n);
        }
        put_front(&self.digits, self.len, text, at)
    }
}
