//! Which characters of a text are escaped, and where they are.
ghost use Rattle.std.specs.Prelude.{◌≡◌, ◌≢◌, ℕ, suc, ◌+◌, ◌*◌, ◌%◌, ◌<◌, ◌≤◌, ◌^◌, length, map, get_or, IfSome};
ghost use Rattle.std.specs.Simd.Lanes.{mask_l, zip2};
ghost use Rattle.wsn_print.specs.EscapedText.{is_continuation, is_hidden};
ghost use Rattle.wsn_print.specs.Runs.{first_high, first_low, second_low, class_of, may_hide, IsPlainUpTo, hidden_from, hidden_of, takes_backslash};

use std::simd::prelude::*;

/// Which characters of a text are escaped.
#[derive(Clone, Copy)]
pub(crate) enum Escapes {
    /// The hidden ones and backslashes, as in a comment.
    Comment,
    /// These and quotation marks, as in a quoted text.
    Quoted,
}

/// The number of bytes that are looked at together.
pub(crate) const BLOCK: usize = 16;

/// Classes of two bytes with the first of which a hidden character may begin, a bit for each. A pair is of the classes that
/// all three tables have. With a dot for any half of a byte, they are
/// 1: `0.` or `1.`; 2: `7f`; 4: `c2`;
/// 8: `c8`, `cd`, `d8` or `dd` before `.c` or `.f`;
/// 16: `e1` or `e3` before `.5`; 32: `e1` or `e2` before `.0`, `.1` or `.e`;
/// 64: `f0` or `f3` before `.0`, `.b` or `.d`; 128: `ef` before `.b`, `.e` or `.f`.
///
/// This is the table by the first half of the first byte.
const FIRST_HIGH: [u8; BLOCK] = [1, 1, 0, 0, 0, 0, 0, 2, 0, 0, 0, 0, 12, 8, 176, 64];

/// The table by the second half of the first byte.
const FIRST_LOW: [u8; BLOCK] = [65, 49, 37, 81, 1, 1, 1, 1, 9, 1, 1, 1, 1, 9, 1, 131];

/// The table by the second half of the second byte.
const SECOND_LOW: [u8; BLOCK] = [103, 39, 7, 7, 7, 23, 7, 7, 7, 7, 7, 199, 15, 71, 167, 143];

/// The positions of the bytes after each byte of a block, and of the first one of what is after the block.
const NEXT: [usize; BLOCK] = [1, 2, 3, 4, 5, 6, 7, 8, 9, 10, 11, 12, 13, 14, 15, 16];

/// The number of bytes at the start of a text, at most 16, with which no hidden character begins, as far as each byte and
/// the next one say.
#[inline(always)]
pub(crate) fn plain_at_start(text: &[u8]) -> usize
    requires { BLOCK ≤ length text.now }
    ensures within { result ≤ BLOCK }
    ensures plain { IsPlainUpTo result text.now }
    ensures most { result < BLOCK → class_of (get_or text.now result 0) (get_or text.now (suc result) 0) ≢ 0 }
{
    let starts = hidden_starts(u8x16::from_slice(text), next_bytes(text));
    if starts == 0 {
        BLOCK
    } else {
        starts.trailing_zeros() as usize
    }
}

/// The bytes after each of the first 16 bytes of a text; 0 past the end.
#[inline(always)]
fn next_bytes(text: &[u8]) -> u8x16
    requires { BLOCK ≤ length text.now }
    ensures long { length result ≡ 16 }
    ensures next { (i : ℕ) → i < 16 → get_or result i 0 ≡ get_or text.now (suc i) 0 }
{
    if text.len() > BLOCK {
        u8x16::from_slice(&text[1..])
    } else {
        u8x16::from_slice(text).shuffle(u8x16::splat(0), NEXT)
    }
}

/// A bit for each byte with which a hidden character may begin, as far as it and the next one say.
#[inline(always)]
fn hidden_starts(block: u8x16, next: u8x16) -> u64
    ensures { result ≡ mask_l (map may_hide (zip2 class_of block next)) }
{
    let classes = by_first_high(block) & by_first_low(block) & by_second_low(next);
    classes.simd_ne(u8x16::splat(0)).to_bitmask()
}

#[inline(always)]
fn by_first_high(block: u8x16) -> u8x16
    ensures { result ≡ map first_high block }
{
    u8x16::from_array(FIRST_HIGH).swizzle_dyn(block >> u8x16::splat(4))
}

#[inline(always)]
fn by_first_low(block: u8x16) -> u8x16
    ensures { result ≡ map first_low block }
{
    u8x16::from_array(FIRST_LOW).swizzle_dyn(block & u8x16::splat(15))
}

#[inline(always)]
fn by_second_low(next: u8x16) -> u8x16
    ensures { result ≡ map second_low next }
{
    u8x16::from_array(SECOND_LOW).swizzle_dyn(next & u8x16::splat(15))
}

/// A bit for each byte that takes a backslash.
#[inline(always)]
pub(crate) fn marks(escapes: Escapes, block: u8x16) -> u64
    ensures { result ≡ mask_l (map (takes_backslash escapes) block) }
{
    match escapes {
        Escapes::Comment => block.simd_eq(u8x16::splat(b'\\')).to_bitmask(),
        Escapes::Quoted => {
            (block.simd_eq(u8x16::splat(b'"')) | block.simd_eq(u8x16::splat(b'\\'))).to_bitmask()
        }
    }
}

/// Whether the byte is a character that is escaped by a backslash before it.
#[inline(always)]
pub(crate) fn takes_backslash(escapes: Escapes, byte: u8) -> bool
    ensures { result ≡ takes_backslash escapes byte }
{
    match escapes {
        Escapes::Comment => byte == b'\\',
        Escapes::Quoted => byte == b'"' || byte == b'\\',
    }
}

/// The hidden character at the start of a text, and the number of its bytes after the first (RFC 3629 section 3).
#[inline(always)]
pub(crate) fn hidden_at_start(text: &[u8]) -> Option<(u32, usize)>
    requires { 0 < length text.now }
    ensures found { result ≡ hidden_of (get_or text.now 0 0) (get_or text.now 1 0) (get_or text.now 2 0) (get_or text.now 3 0) }
    ensures within { IfSome result (λ hidden. hidden.1 < length text.now) }
    ensures character { IfSome result (λ hidden. hidden.0 < 0x110000) }
{
    let (second, third, fourth) = (byte_at(text, 1), byte_at(text, 2), byte_at(text, 3));
    match text[0] {
        first @ 0x00..=0x7f => hidden_from(0, u32::from(first), 0),
        first @ 0xc2..=0xdf if continues(second) => {
            hidden_from(0x80, with_bits(u32::from(first % 32), second), 1)
        }
        first @ 0xe0..=0xef if continues(second) && continues(third) => {
            let number = with_bits(u32::from(first % 16), second);
            hidden_from(0x800, with_bits(number, third), 2)
        }
        first @ 0xf0..=0xf4 if continues(second) && continues(third) && continues(fourth) => {
            let number = with_bits(with_bits(u32::from(first % 8), second), third);
            hidden_from(0x1_0000, with_bits(number, fourth), 3)
        }
        _ => None,
    }
}

/// A character and the number of its bytes after the first, if it is hidden and at least the least of those with as many
/// bytes.
#[inline(always)]
fn hidden_from(least: u32, number: u32, more: usize) -> Option<(u32, usize)>
    ensures { result ≡ hidden_from least number more }
{
    if least <= number && is_hidden(number) {
        Some((number, more))
    } else {
        None
    }
}

/// Whether a character has no shape of its own: it moves a terminal's cursor, changes how the text around it is shown, or
/// isn't seen at all.
pub fn is_hidden(number: u32) -> bool
    ensures { result ≡ is_hidden number }
{
    match number {
        0x00..=0x1f | 0x7f..=0x9f | 0xad | 0x34f | 0x61c => true,
        0x115f..=0x1160 | 0x17b4..=0x17b5 | 0x180e => true,
        0x200b | 0x200e..=0x200f | 0x2028..=0x202e | 0x2060..=0x206f => true,
        0x3164 | 0xfeff | 0xffa0 | 0xfff0..=0xfff8 => true,
        0x1_bca0..=0x1_bca3 | 0x1_d173..=0x1_d17a | 0xe_0000..=0xe_00ff | 0xe_01f0..=0xe_0fff =>
            true,
        _ => false,
    }
}

/// Whether a byte continues a character.
#[inline(always)]
fn continues(byte: u8) -> bool
    ensures { result ≡ is_continuation byte }
{
    matches!(byte, 0x80..=0xbf)
}

/// A number with six more bits, those of a byte that continues a character.
#[inline(always)]
fn with_bits(number: u32, byte: u8) -> u32
    requires { number < 2 ^ 24 }
    ensures { result ≡ number * 64 + byte % 64 }
{
    number * 64 + u32::from(byte % 64)
}

/// The byte at an offset; 0 past the end.
#[inline(always)]
fn byte_at(text: &[u8], at: usize) -> u8
    ensures { result ≡ get_or text.now at 0 }
{
    if at < text.len() { text[at] } else { 0 }
}
