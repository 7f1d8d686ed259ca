ghost use Rattle.std.specs.Prelude.{ℕ, ◌≡◌, ◌<◌, ◌≤◌, ◌+◌, ◌*◌, MatchBool, MatchOption, Ok, length, slice_index};
ghost use Rattle.hex.specs.Hex.{pair_value, decode_of, hex_digit_value};
ghost use Rattle.wsn_capture.specs.LineEntries.{HasNoHex};

use std::simd::prelude::*;

/// The number of bytes in a block, of twice as many digits.
pub(crate) const BLOCK: usize = 32;

/// Decodes pairs of digits by blocks, and returns whether all are digits. The last block begins at offset `last` and
/// overlaps the one before it. If not all are digits, the contents of `bytes` are unspecified.
#[tactic(none)]
pub(crate) fn decode_blocks(digits: &[u8], bytes: &mut [u8], last: usize) -> bool
    requires pairs { length digits.now ≡ 2 * length bytes.old }
    requires last { last + BLOCK ≡ length bytes.old }
    ensures { MatchBool result (decode_of digits.now ≡ Ok bytes.new) (HasNoHex digits.now) }
{
    let mut at = 0;
    while at < last {
        if !decode_block(digits, bytes, at) {
            return false;
        }
        at += BLOCK;
    }
    decode_block(digits, bytes, last)
}

/// Decodes the digits of the 32 bytes from offset `at` on, and returns whether all are digits. If not, the contents of
/// these bytes are unspecified.
#[inline(always)]
#[tactic(none)]
fn decode_block(digits: &[u8], bytes: &mut [u8], at: usize) -> bool
    requires pairs { length digits.now ≡ 2 * length bytes.old }
    requires room { at + BLOCK ≤ length bytes.old }
    ensures same_length { length bytes.new ≡ length bytes.old }
    ensures before { (i : ℕ) → i < at → slice_index bytes.new i ≡ slice_index bytes.old i }
    ensures decoded { MatchBool result
        ((i : ℕ) → at ≤ i → i < at + BLOCK → pair_value (slice_index digits.now (2 * i)) (slice_index digits.now (2 * i + 1)) (2 * i) ≡ Ok (slice_index bytes.new i))
        (HasNoHex digits.now) }
{
    let first = u8x32::from_slice(&digits[2 * at..]);
    let second = u8x32::from_slice(&digits[2 * at + BLOCK..]);
    let (high, low) = first.deinterleave(second);
    let high = digit_values(high);
    let low = digit_values(low);
    (high * u8x32::splat(16) + low).copy_to_slice(&mut bytes[at..]);
    (high | low).simd_ge(u8x32::splat(16)).to_bitmask() == 0
}

/// The values of digits; 16 or more for a byte that isn't a digit.
///
/// `decimal` is the value of `0` to `9`: these become 246 to 255 and then 240 to 249, and any other byte less than 240,
/// from which the last difference wraps. `letter` is 0 to 5 for the letters, of either case, and more for any other byte.
#[inline(always)]
#[tactic(none)]
fn digit_values(digits: u8x32) -> u8x32
    ensures { (i : ℕ) → i < 32 → MatchOption (hex_digit_value (slice_index digits i)) (16 ≤ slice_index result i) (λ value. slice_index result i ≡ value) }
{
    let decimal = (digits + u8x32::splat(0xff - b'9')).saturating_sub(u8x32::splat(6))
        - u8x32::splat(0xf0);
    let letter = (digits | u8x32::splat(0x20)) - u8x32::splat(b'a');
    decimal.simd_min(letter.simd_min(u8x32::splat(0xf5)) + u8x32::splat(10))
}
