ghost use Rattle.std.specs.Prelude.{◌≡◌, ◌+◌, ◌≤◌, ◌↔◌, length, take, drop, IsTrue};
ghost use Rattle.wsn_print.specs.DifferingPayloads.{common_length};

use std::simd::prelude::*;

/// The number of bytes in a block, and in its parts.
const BLOCK: usize = 64;

const HALF: usize = 32;

const QUARTER: usize = 16;

const EIGHTH: usize = 8;

const WORD: usize = 4;

/// Whether both have the same bytes. Up to three are compared one by one, more by the longest of these parts that fits, at
/// the beginning and at the end, and 64 or more by blocks, the last of which overlaps the one before it.
#[inline(always)]
pub(crate) fn are_equal(bytes: &[u8], others: &[u8]) -> bool
    ensures { IsTrue result ↔ (bytes.now ≡ others.now) }
{
    let len = bytes.len();
    if len != others.len() {
        return false;
    }
    if len < WORD {
        return are_equal_each(bytes, others);
    }
    if len < EIGHTH {
        return are_equal_words(bytes, others, 0) && are_equal_words(bytes, others, len - WORD);
    }
    if len < QUARTER {
        return are_equal_eighths(bytes, others, 0)
            && are_equal_eighths(bytes, others, len - EIGHTH);
    }
    if len < HALF {
        return are_equal_quarters(bytes, others, 0)
            && are_equal_quarters(bytes, others, len - QUARTER);
    }
    if len < BLOCK {
        return are_equal_halves(bytes, others, 0) && are_equal_halves(bytes, others, len - HALF);
    }
    are_equal_in_blocks(bytes, others)
}

/// Whether both, of the same number of bytes, have the same ones.
#[inline(always)]
fn are_equal_each(bytes: &[u8], others: &[u8]) -> bool
    requires { length bytes.now ≡ length others.now }
    ensures { IsTrue result ↔ (bytes.now ≡ others.now) }
{
    let mut at = 0;
    while at < bytes.len() {
        if bytes[at] != others[at] {
            return false;
        }
        at += 1;
    }
    true
}

/// Whether both, of the same number of bytes, at least 64, have the same ones.
#[inline(always)]
fn are_equal_in_blocks(bytes: &[u8], others: &[u8]) -> bool
    requires long { BLOCK ≤ length bytes.now }
    requires same { length bytes.now ≡ length others.now }
    ensures { IsTrue result ↔ (bytes.now ≡ others.now) }
{
    let last = bytes.len() - BLOCK;
    let mut at = 0;
    while at < last {
        if !are_equal_blocks(bytes, others, at) {
            return false;
        }
        at += BLOCK;
    }
    are_equal_blocks(bytes, others, last)
}

/// Whether the 64 bytes of both from offset `at` on are the same.
#[inline(always)]
fn are_equal_blocks(bytes: &[u8], others: &[u8], at: usize) -> bool
    requires { (at + BLOCK ≤ length bytes.now) × (at + BLOCK ≤ length others.now) }
    ensures { IsTrue result ↔ (take BLOCK (drop at bytes.now) ≡ take BLOCK (drop at others.now)) }
{
    let block = u8x64::from_slice(&bytes[at..]);
    let other = u8x64::from_slice(&others[at..]);
    block.simd_ne(other).to_bitmask() == 0
}

/// Whether the 32 bytes of both from offset `at` on are the same.
#[inline(always)]
fn are_equal_halves(bytes: &[u8], others: &[u8], at: usize) -> bool
    requires { (at + HALF ≤ length bytes.now) × (at + HALF ≤ length others.now) }
    ensures { IsTrue result ↔ (take HALF (drop at bytes.now) ≡ take HALF (drop at others.now)) }
{
    let half = u8x32::from_slice(&bytes[at..]);
    let other = u8x32::from_slice(&others[at..]);
    half.simd_ne(other).to_bitmask() == 0
}

/// Whether the 16 bytes of both from offset `at` on are the same.
#[inline(always)]
fn are_equal_quarters(bytes: &[u8], others: &[u8], at: usize) -> bool
    requires { (at + QUARTER ≤ length bytes.now) × (at + QUARTER ≤ length others.now) }
    ensures { IsTrue result ↔ (take QUARTER (drop at bytes.now) ≡ take QUARTER (drop at others.now)) }
{
    let quarter = u8x16::from_slice(&bytes[at..]);
    let other = u8x16::from_slice(&others[at..]);
    quarter.simd_ne(other).to_bitmask() == 0
}

/// Whether the eight bytes of both from offset `at` on are the same.
#[inline(always)]
fn are_equal_eighths(bytes: &[u8], others: &[u8], at: usize) -> bool
    requires { (at + EIGHTH ≤ length bytes.now) × (at + EIGHTH ≤ length others.now) }
    ensures { IsTrue result ↔ (take EIGHTH (drop at bytes.now) ≡ take EIGHTH (drop at others.now)) }
{
    let eighth = u8x8::from_slice(&bytes[at..]);
    let other = u8x8::from_slice(&others[at..]);
    eighth.simd_ne(other).to_bitmask() == 0
}

/// Whether the four bytes of both from offset `at` on are the same.
#[inline(always)]
fn are_equal_words(bytes: &[u8], others: &[u8], at: usize) -> bool
    requires { (at + WORD ≤ length bytes.now) × (at + WORD ≤ length others.now) }
    ensures { IsTrue result ↔ (take WORD (drop at bytes.now) ≡ take WORD (drop at others.now)) }
{
    let word = u8x4::from_slice(&bytes[at..]);
    let other = u8x4::from_slice(&others[at..]);
    word.simd_ne(other).to_bitmask() == 0
}

/// The number of bytes at the beginning that are the same in both.
#[tactic(none)]
pub(crate) fn common_length(bytes: &[u8], others: &[u8]) -> usize
    ensures is { result ≡ common_length bytes.now others.now }
    ensures within { (result ≤ length bytes.now) × (result ≤ length others.now) }
{
    let shorter = bytes.len().min(others.len());
    let mut at = 0;
    while at < shorter {
        if bytes[at] != others[at] {
            return at;
        }
        at += 1;
    }
    at
}
