ghost use Rattle.std.specs.Prelude.{◌≡◌, ◌+◌, ◌/◌, ◌%◌, ◌<◌, ◌≤◌, [], ◌∷◌, ◌++◌, length, take, drop, codes, decimal};
ghost use Rattle.hex.specs.Hex.{encode_lower};
ghost use Rattle.wsn_print.specs.HeadText.{key_text, form_text};

use itoa::write_digits;
use wsn_wire::Form;

/// The two lower-case hexadecimal digits of each byte, one pair after another.
static HEX_PAIRS: [u8; 512] =
    *b"000102030405060708090a0b0c0d0e0f101112131415161718191a1b1c1d1e1f202122232425262728292a2b2c2d2e2f303132333435363738393a3b3c3d3e3f404142434445464748494a4b4c4d4e4f505152535455565758595a5b5c5d5e5f606162636465666768696a6b6c6d6e6f707172737475767778797a7b7c7d7e7f808182838485868788898a8b8c8d8e8f909192939495969798999a9b9c9d9e9fa0a1a2a3a4a5a6a7a8a9aaabacadaeafb0b1b2b3b4b5b6b7b8b9babbbcbdbebfc0c1c2c3c4c5c6c7c8c9cacbcccdcecfd0d1d2d3d4d5d6d7d8d9dadbdcdddedfe0e1e2e3e4e5e6e7e8e9eaebecedeeeff0f1f2f3f4f5f6f7f8f9fafbfcfdfeff";

/// The two decimal digits of each number below 100, one pair after another.
static DECIMAL_PAIRS: [u8; 200] =
    *b"00010203040506070809101112131415161718192021222324252627282930313233343536373839404142434445464748495051525354555657585960616263646566676869707172737475767778798081828384858687888990919293949596979899";

/// Writes a part of a line at `at`, and returns where it ends. The parts of a line are written from the first to the
/// last; what comes after a part is still to be written.
#[inline(always)]
pub fn put<const N: usize>(part: [u8; N], text: &mut [u8], at: usize) -> usize
    requires { at + length part ≤ length text.old }
    ensures end { result ≡ at + length part.entry }
    ensures written { take result text.new ≡ take at text.old ++ part.entry }
{
    put_slice(&part, text, at)
}

/// Writes bytes at `at`, and returns where they end.
#[inline(always)]
pub(crate) fn put_slice(part: &[u8], text: &mut [u8], at: usize) -> usize
    requires { at + length part.now ≤ length text.old }
    ensures end { result ≡ at + length part.now }
    ensures written { take result text.new ≡ take at text.old ++ part.now }
    ensures rest { drop result text.new ≡ drop result text.old }
{
    let end = at + part.len();
    text[at..end].copy_from_slice(part);
    end
}

/// Writes the first `len` bytes of a block at `at`, and returns where they end. The whole block is copied, since a copy
/// of a constant length takes few instructions.
#[inline(always)]
pub(crate) fn put_front(block: &[u8], len: usize, text: &mut [u8], at: usize) -> usize
    requires front { len ≤ length block.now }
    requires room { at + length block.now ≤ length text.old }
    ensures end { result ≡ at + len }
    ensures written { take result text.new ≡ take at text.old ++ take len block.now }
{
    put_slice(block, text, at);
    at + len
}

/// Writes the two lower-case hexadecimal digits of a byte at `at`, and returns where they end.
#[inline(always)]
pub(crate) fn put_hex(byte: u8, text: &mut [u8], at: usize) -> usize
    requires { at + 2 ≤ length text.old }
    ensures end { result ≡ at + 2 }
    ensures written { take result text.new ≡ take at text.old ++ encode_lower (byte ∷ []) }
{
    let from = usize::from(byte) * 2;
    put([HEX_PAIRS[from], HEX_PAIRS[from + 1]], text, at)
}

/// Writes a key as eight lower-case hexadecimal digits, or a dash for `None`, at `at`, and returns where it ends.
#[inline(always)]
pub fn put_key(key: Option<[u8; 4]>, text: &mut [u8], at: usize) -> usize
    requires { at + 8 ≤ length text.old }
    ensures end { (at ≤ result) × (result ≤ at + 8) }
    ensures written { take result text.new ≡ take at text.old ++ key_text key }
{
    match key {
        None => put(*b"-", text, at),
        Some(key) => put_key_digits(key, text, at),
    }
}

/// Writes a key's four bytes as eight lower-case hexadecimal digits at `at`, and returns where they end.
#[inline(always)]
pub(crate) fn put_key_digits(key: [u8; 4], text: &mut [u8], at: usize) -> usize
    requires { at + 8 ≤ length text.old }
    ensures end { result ≡ at + 8 }
    ensures written { take result text.new ≡ take at text.old ++ encode_lower key }
{
    let [a, b, c, d] = key;
    let at = put_hex(a, text, at);
    let at = put_hex(b, text, at);
    let at = put_hex(c, text, at);
    put_hex(d, text, at)
}

/// Writes ` two` or ` eight` for a length in a longer encoding (RFC 6455 section 5.2), and the LF, at most 7 bytes, at
/// `at`, and returns where they end.
#[inline(always)]
pub fn put_form(form: Form, text: &mut [u8], at: usize) -> usize
    requires { at + 7 ≤ length text.old }
    ensures end { (at ≤ result) × (result ≤ at + 7) }
    ensures written { take result text.new ≡ take at text.old ++ (form_text form ++ codes "\n") }
{
    match form {
        Form::Shortest => put(*b"\n", text, at),
        Form::Two => put(*b" two\n", text, at),
        Form::Eight => put(*b" eight\n", text, at),
    }
}

/// Writes the two decimal digits of a number below 100, the first of which may be 0, at `at`, and returns where they end.
#[inline(always)]
fn put_pair(n: u64, text: &mut [u8], at: usize) -> usize
    requires { (n < 100) × (at + 2 ≤ length text.old) }
    ensures end { result ≡ at + 2 }
    ensures written { take result text.new ≡ take at text.old ++ (48 + n / 10) ∷ (48 + n % 10) ∷ [] }
{
    let from = n as usize * 2;
    put([DECIMAL_PAIRS[from], DECIMAL_PAIRS[from + 1]], text, at)
}

/// Writes a number after the digits of another, as its last four digits, at `at`: of `n` those of `n % 10_000`. Returns
/// where they end.
#[inline(always)]
pub(crate) fn put_last_four(n: u64, text: &mut [u8], at: usize) -> usize
    requires { at + 4 ≤ length text.old }
    ensures end { result ≡ at + 4 }
    ensures written { take result text.new ≡ take at text.old ++
        ((48 + n % 10000 / 100 / 10) ∷ (48 + n % 10000 / 100 % 10)
        ∷ (48 + n % 10000 % 100 / 10) ∷ (48 + n % 10000 % 100 % 10) ∷ []) }
{
    let four = n % 10_000;
    let at = put_pair(four / 100, text, at);
    put_pair(four % 100, text, at)
}

/// Writes a number in decimal digits, at most 20, at `at`, and returns where they end.
#[inline(always)]
pub fn put_number(n: u64, text: &mut [u8], at: usize) -> usize
    requires { at + 20 ≤ length text.old }
    ensures end { (at ≤ result) × (result ≤ at + 20) }
    ensures written { take result text.new ≡ take at text.old ++ decimal n }
{
    if n < 10 {
        put([b'0' + n as u8], text, at)
    } else if n < 100 {
        put_pair(n, text, at)
    } else if n < 1_000 {
        let at = put([b'0' + (n / 100) as u8], text, at);
        put_pair(n % 100, text, at)
    } else if n < 10_000 {
        let at = put_pair(n / 100, text, at);
        put_pair(n % 100, text, at)
    } else {
        put_long_number(n, text, at)
    }
}

/// Like [`put_number`], by way of an array in which the digits end at 20.
#[inline(never)]
fn put_long_number(n: u64, text: &mut [u8], at: usize) -> usize
    requires { at + 20 ≤ length text.old }
    ensures end { (at ≤ result) × (result ≤ at + 20) }
    ensures written { take result text.new ≡ take at text.old ++ decimal n }
{
    let mut digits = [0; 40];
    let start = write_digits(n, &mut digits, 20);
    put_front(&digits[start..start + 20], 20 - start, text, at)
}
