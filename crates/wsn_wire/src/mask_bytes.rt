ghost use Rattle.std.specs.Prelude.{◌≡◌, ℕ, ◌+◌, ◌*◌, ◌<◌, ◌≤◌, ◌^◌, ◌%◌, [], ◌∷◌, length, replicate, slice_index};
ghost use Rattle.wsn_wire.specs.Frame.{IsBytes, masked};

use std::simd::prelude::*;

// The number of bytes that are masked at once.
const BLOCK: usize = 64;

// A half, a quarter and an eighth of as many.
const HALF: usize = 32;

const QUARTER: usize = 16;

const EIGHTH: usize = 8;

// The number of bytes in one round of the key.
const WORD: usize = 4;

/// Masks or unmasks part of a payload in place: byte i XOR key byte `(start + i) % 4` (RFC 6455 section 5.3). `start`
/// is the offset of the part in the payload, from 0.
#[inline(always)]
pub fn mask(key: [u8; 4], start: u64, bytes: &mut [u8])
    requires { start + length bytes.old < 2 ^ 64 }
    ensures { bytes.new ≡ masked key start bytes.old }
{
    if bytes.len() < BLOCK {
        mask_rest(key, start, bytes);
        return;
    }
    let lanes = key_lanes(key, start);
    let last = bytes.len() - BLOCK;
    // The last block overlaps the one before it, so it is masked before that one is written.
    let end = u8x64::from_slice(&bytes[last..]) ^ key_lanes(key, start + last as u64);
    let mut at = 0;
    while at < last {
        let block = u8x64::from_slice(&bytes[at..]) ^ lanes;
        block.copy_to_slice(&mut bytes[at..]);
        at += BLOCK;
    }
    end.copy_to_slice(&mut bytes[last..]);
}

// Like `mask`, for the bytes of less than a block: by two parts that overlap.
#[inline(never)]
fn mask_rest(key: [u8; 4], start: u64, bytes: &mut [u8])
    requires short { length bytes.old < 64 }
    requires within { start + length bytes.old < 2 ^ 64 }
    ensures { bytes.new ≡ masked key start bytes.old }
{
    if bytes.len() >= QUARTER {
        if bytes.len() >= HALF {
            mask_by_halves(key, start, bytes);
        } else {
            mask_by_quarters(key, start, bytes);
        }
    } else if bytes.len() >= EIGHTH {
        mask_by_eighths(key, start, bytes);
    } else if bytes.len() >= WORD {
        mask_by_words(key, start, bytes);
    } else {
        mask_each(key, start, bytes);
    }
}

// Like `mask`, by the first and the last half of a block.
#[inline(always)]
fn mask_by_halves(key: [u8; 4], start: u64, bytes: &mut [u8])
    requires fits { (32 ≤ length bytes.old) × (length bytes.old ≤ 64) }
    requires within { start + length bytes.old < 2 ^ 64 }
    ensures { bytes.new ≡ masked key start bytes.old }
{
    let last = bytes.len() - HALF;
    let front = u8x32::from_slice(bytes) ^ half_lanes(key, start);
    let back = u8x32::from_slice(&bytes[last..]) ^ half_lanes(key, start + last as u64);
    front.copy_to_slice(bytes);
    back.copy_to_slice(&mut bytes[last..]);
}

// Like `mask`, by the first and the last quarter of a block.
#[inline(always)]
fn mask_by_quarters(key: [u8; 4], start: u64, bytes: &mut [u8])
    requires fits { (16 ≤ length bytes.old) × (length bytes.old ≤ 32) }
    requires within { start + length bytes.old < 2 ^ 64 }
    ensures { bytes.new ≡ masked key start bytes.old }
{
    let last = bytes.len() - QUARTER;
    let front = u8x16::from_slice(bytes) ^ quarter_lanes(key, start);
    let back = u8x16::from_slice(&bytes[last..]) ^ quarter_lanes(key, start + last as u64);
    front.copy_to_slice(bytes);
    back.copy_to_slice(&mut bytes[last..]);
}

// Like `mask`, by the first and the last eighth of a block.
#[inline(always)]
fn mask_by_eighths(key: [u8; 4], start: u64, bytes: &mut [u8])
    requires fits { (8 ≤ length bytes.old) × (length bytes.old ≤ 16) }
    requires within { start + length bytes.old < 2 ^ 64 }
    ensures { bytes.new ≡ masked key start bytes.old }
{
    let last = bytes.len() - EIGHTH;
    let front = u8x8::from_slice(bytes) ^ eighth_lanes(key, start);
    let back = u8x8::from_slice(&bytes[last..]) ^ eighth_lanes(key, start + last as u64);
    front.copy_to_slice(bytes);
    back.copy_to_slice(&mut bytes[last..]);
}

// Like `mask`, by the first and the last round of the key.
#[inline(always)]
fn mask_by_words(key: [u8; 4], start: u64, bytes: &mut [u8])
    requires fits { (4 ≤ length bytes.old) × (length bytes.old ≤ 8) }
    requires within { start + length bytes.old < 2 ^ 64 }
    ensures { bytes.new ≡ masked key start bytes.old }
{
    let last = bytes.len() - WORD;
    let front = u8x4::from_slice(bytes) ^ word_lanes(key, start);
    let back = u8x4::from_slice(&bytes[last..]) ^ word_lanes(key, start + last as u64);
    front.copy_to_slice(bytes);
    back.copy_to_slice(&mut bytes[last..]);
}

// The key bytes for a block whose offset in the payload is `start`.
#[inline(always)]
fn key_lanes(key: [u8; 4], start: u64) -> u8x64
    ensures { result ≡ masked key start (replicate BLOCK 0) }
{
    u32x16::splat(key_word(key, start)).to_le_bytes()
}

// The same for half a block.
#[inline(always)]
fn half_lanes(key: [u8; 4], start: u64) -> u8x32
    ensures { result ≡ masked key start (replicate HALF 0) }
{
    u32x8::splat(key_word(key, start)).to_le_bytes()
}

// The same for a quarter of a block.
#[inline(always)]
fn quarter_lanes(key: [u8; 4], start: u64) -> u8x16
    ensures { result ≡ masked key start (replicate QUARTER 0) }
{
    u32x4::splat(key_word(key, start)).to_le_bytes()
}

// The same for an eighth of a block.
#[inline(always)]
fn eighth_lanes(key: [u8; 4], start: u64) -> u8x8
    ensures { result ≡ masked key start (replicate EIGHTH 0) }
{
    u32x2::splat(key_word(key, start)).to_le_bytes()
}

// The same for a round of the key.
#[inline(always)]
fn word_lanes(key: [u8; 4], start: u64) -> u8x4
    ensures { result ≡ masked key start (replicate WORD 0) }
{
    u32x1::splat(key_word(key, start)).to_le_bytes()
}

// One round of the key, from this offset in the payload on, as a number with the first byte lowest.
#[inline(always)]
#[tactic(none)]
fn key_word(key: [u8; 4], start: u64) -> u32
    ensures bytes { (i : ℕ) → slice_index key (i % 4) < 256 }
    ensures round { result ≡ slice_index key (start % 4) + slice_index key ((start % 4 + 1) % 4) * 256
        + slice_index key ((start % 4 + 2) % 4) * 65536 + slice_index key ((start % 4 + 3) % 4) * 16777216 }
{
    let word = u64::from(u32::from_le_bytes(key_round(key, 0)));
    // Two rounds, of which four bytes are taken.
    let rounds = word * 0x1_0000_0001;
    ((rounds >> (start % 4 * 8)) % 0x1_0000_0000) as u32
}

// One round of the key, from this offset in the payload on.
#[inline(always)]
fn key_round(key: [u8; 4], start: u64) -> [u8; 4]
    ensures bytes { IsBytes result }
    ensures round { result ≡ slice_index key (start % 4) ∷ slice_index key ((start % 4 + 1) % 4)
        ∷ slice_index key ((start % 4 + 2) % 4) ∷ slice_index key ((start % 4 + 3) % 4) ∷ [] }
{
    let turn = (start % 4) as usize;
    [
        key[turn],
        key[(turn + 1) % 4],
        key[(turn + 2) % 4],
        key[(turn + 3) % 4],
    ]
}

// Like `mask`, but byte by byte.
#[tactic(none)]
pub(crate) fn mask_each(key: [u8; 4], start: u64, bytes: &mut [u8])
    requires { start + length bytes.old < 2 ^ 64 }
    ensures { bytes.new ≡ masked key start bytes.old }
{
    for i in 0..bytes.len() {
        bytes[i] ^= key[((start + i as u64) % 4) as usize];
    }
}
