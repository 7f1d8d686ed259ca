ghost use Rattle.std.specs.Prelude.{ℕ, ◌+◌, ◌<◌, ◌≤◌, length, slice_index, IsTrue};
ghost use Rattle.wsn_text.specs.Utf8.{IsText};

use std::simd::prelude::*;

/// The number of bytes in a block.
const BLOCK: usize = 64;

/// Whether all bytes are ASCII, by blocks of 64. The last block overlaps the one before it.
#[inline(always)]
pub(crate) fn is_ascii(bytes: &[u8]) -> bool
    ensures { IsTrue result → IsText bytes.now }
{
    let Some(last) = bytes.len().checked_sub(BLOCK) else {
        return is_short_ascii(bytes);
    };
    let mut at = 0;
    while at < last {
        if !is_ascii_block(bytes, at) {
            return false;
        }
        at += BLOCK;
    }
    is_ascii_block(bytes, last)
}

/// Whether at most 64 bytes are ASCII, by two parts that overlap.
#[inline(always)]
#[tactic(none)]
fn is_short_ascii(bytes: &[u8]) -> bool
    requires { length bytes.now ≤ BLOCK }
    ensures { IsTrue result → IsText bytes.now }
{
    match bytes.len() {
        32.. => is_ascii_half(bytes, 0) & is_ascii_half(bytes, bytes.len() - 32),
        16.. => is_ascii_quarter(bytes, 0) & is_ascii_quarter(bytes, bytes.len() - 16),
        8.. => is_ascii_eighth(bytes, 0) & is_ascii_eighth(bytes, bytes.len() - 8),
        4.. => is_ascii_sixteenth(bytes, 0) & is_ascii_sixteenth(bytes, bytes.len() - 4),
        _ => bytes.is_ascii(),
    }
}

/// Whether the 64 bytes from offset `at` on are ASCII.
#[inline(always)]
fn is_ascii_block(bytes: &[u8], at: usize) -> bool
    requires { at + BLOCK ≤ length bytes.now }
    ensures { IsTrue result → (i : ℕ) → at ≤ i → i < at + BLOCK → slice_index bytes.now i < 128 }
{
    let block = u8x64::from_slice(&bytes[at..]);
    block.simd_ge(u8x64::splat(0x80)).to_bitmask() == 0
}

/// The same of 32 bytes.
#[inline(always)]
fn is_ascii_half(bytes: &[u8], at: usize) -> bool
    requires { at + 32 ≤ length bytes.now }
    ensures { IsTrue result → (i : ℕ) → at ≤ i → i < at + 32 → slice_index bytes.now i < 128 }
{
    let half = u8x32::from_slice(&bytes[at..]);
    half.simd_ge(u8x32::splat(0x80)).to_bitmask() == 0
}

/// The same of 16 bytes.
#[inline(always)]
fn is_ascii_quarter(bytes: &[u8], at: usize) -> bool
    requires { at + 16 ≤ length bytes.now }
    ensures { IsTrue result → (i : ℕ) → at ≤ i → i < at + 16 → slice_index bytes.now i < 128 }
{
    let quarter = u8x16::from_slice(&bytes[at..]);
    quarter.simd_ge(u8x16::splat(0x80)).to_bitmask() == 0
}

/// The same of 8 bytes.
#[inline(always)]
fn is_ascii_eighth(bytes: &[u8], at: usize) -> bool
    requires { at + 8 ≤ length bytes.now }
    ensures { IsTrue result → (i : ℕ) → at ≤ i → i < at + 8 → slice_index bytes.now i < 128 }
{
    let eighth = u8x8::from_slice(&bytes[at..]);
    eighth.simd_ge(u8x8::splat(0x80)).to_bitmask() == 0
}

/// The same of 4 bytes.
#[inline(always)]
fn is_ascii_sixteenth(bytes: &[u8], at: usize) -> bool
    requires { at + 4 ≤ length bytes.now }
    ensures { IsTrue result → (i : ℕ) → at ≤ i → i < at + 4 → slice_index bytes.now i < 128 }
{
    let sixteenth = u8x4::from_slice(&bytes[at..]);
    sixteenth.simd_ge(u8x4::splat(0x80)).to_bitmask() == 0
}
