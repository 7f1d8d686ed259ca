ghost use Rattle.std.specs.Prelude.{◌≡◌, ℕ, ◌+◌, ◌<◌, ◌≤◌, [], length, map, slice_index, drop, IsTrue, IsAscii, if◌then◌else◌};
ghost use Rattle.wsn_print.specs.EscapedText.{is_from};
ghost use Rattle.wsn_redact.specs.StandIns.{single_stand_in, due_at, stood, due_after};
ghost use Rattle.wsn_redact.specs.Dues.{due_of};

use std::simd::prelude::*;

/// The number of bytes that are passed over at once where other bytes aren't ASCII.
const SOME: usize = 16;

/// The stand-in of a character that begins with each byte, as a number, the first byte lowest.
const STAND_INS: [u32; 256] = [
    0x00, 0x01, 0x02, 0x03, 0x04, 0x05, 0x06, 0x07, 0x08, 0x09, 0x0A, 0x0B, 0x0C, 0x0D, 0x0E, 0x0F,
    0x10, 0x11, 0x12, 0x13, 0x14, 0x15, 0x16, 0x17, 0x18, 0x19, 0x1A, 0x1B, 0x1C, 0x1D, 0x1E, 0x1F,
    0x20, 0x21, 0x22, 0x23, 0x24, 0x25, 0x26, 0x27, 0x28, 0x29, 0x2A, 0x2B, 0x2C, 0x2D, 0x2E, 0x2F,
    0x30, 0x30, 0x30, 0x30, 0x30, 0x30, 0x30, 0x30, 0x30, 0x30, 0x3A, 0x3B, 0x3C, 0x3D, 0x3E, 0x3F,
    0x40, 0x58, 0x58, 0x58, 0x58, 0x58, 0x58, 0x58, 0x58, 0x58, 0x58, 0x58, 0x58, 0x58, 0x58, 0x58,
    0x58, 0x58, 0x58, 0x58, 0x58, 0x58, 0x58, 0x58, 0x58, 0x58, 0x58, 0x5B, 0x5C, 0x5D, 0x5E, 0x5F,
    0x60, 0x78, 0x78, 0x78, 0x78, 0x78, 0x78, 0x78, 0x78, 0x78, 0x78, 0x78, 0x78, 0x78, 0x78, 0x78,
    0x78, 0x78, 0x78, 0x78, 0x78, 0x78, 0x78, 0x78, 0x78, 0x78, 0x78, 0x7B, 0x7C, 0x7D, 0x7E, 0x7F,
    0x80, 0x81, 0x82, 0x83, 0x84, 0x85, 0x86, 0x87, 0x88, 0x89, 0x8A, 0x8B, 0x8C, 0x8D, 0x8E, 0x8F,
    0x90, 0x91, 0x92, 0x93, 0x94, 0x95, 0x96, 0x97, 0x98, 0x99, 0x9A, 0x9B, 0x9C, 0x9D, 0x9E, 0x9F,
    0xA0, 0xA1, 0xA2, 0xA3, 0xA4, 0xA5, 0xA6, 0xA7, 0xA8, 0xA9, 0xAA, 0xAB, 0xAC, 0xAD, 0xAE, 0xAF,
    0xB0, 0xB1, 0xB2, 0xB3, 0xB4, 0xB5, 0xB6, 0xB7, 0xB8, 0xB9, 0xBA, 0xBB, 0xBC, 0xBD, 0xBE, 0xBF,
    0xC0, 0xC1, 0xA9C3, 0xA9C3, 0xA9C3, 0xA9C3, 0xA9C3, 0xA9C3, 0xA9C3, 0xA9C3, 0xA9C3, 0xA9C3,
    0xA9C3, 0xA9C3, 0xA9C3, 0xA9C3, 0xA9C3, 0xA9C3, 0xA9C3, 0xA9C3, 0xA9C3, 0xA9C3, 0xA9C3, 0xA9C3,
    0xA9C3, 0xA9C3, 0xA9C3, 0xA9C3, 0xA9C3, 0xA9C3, 0xA9C3, 0xA9C3, 0x80A0E0, 0xAC82E2, 0xAC82E2,
    0xAC82E2, 0xAC82E2, 0xAC82E2, 0xAC82E2, 0xAC82E2, 0xAC82E2, 0xAC82E2, 0xAC82E2, 0xAC82E2,
    0xAC82E2, 0x8080ED, 0xAC82E2, 0xAC82E2, 0x808090F0, 0x808080F1, 0x808080F1, 0x808080F1,
    0x808080F4, 0xF5, 0xF6, 0xF7, 0xF8, 0xF9, 0xFA, 0xFB, 0xFC, 0xFD, 0xFE, 0xFF,
];

/// The bytes of a begun stand-in that are due.
#[derive(Clone, Copy, Debug)]
pub struct Due {
    /// As a number, the next byte lowest; 0 if none is due.
    bytes: u32,
}

impl Due {
    /// No stand-in has begun.
    pub fn new() -> Due
        ensures { due_of result ≡ [] }
    {
        Due { bytes: 0 }
    }

    /// Replaces a part of a text, in place.
    pub fn replace(&mut self, text: &mut [u8])
        ensures written { text.new ≡ stood (due_of self.old) text.old }
        ensures due { due_of self.new ≡ due_after (due_of self.old) text.old }
    {
        let ascii = replace_singles(text);
        if !ascii || self.bytes != 0 {
            self.replace_longer(text);
        }
    }

    /// The same, if the letters and digits are replaced.
    fn replace_longer(&mut self, text: &mut [u8])
        requires { map single_stand_in text.old ≡ text.old }
        ensures written { text.new ≡ stood (due_of self.old) text.old }
        ensures due { due_of self.new ≡ due_after (due_of self.old) text.old }
    {
        let mut at = 0;
        while at < text.len() {
            let end = text.len().min(at + SOME);
            self.replace_some(&mut text[at..end]);
            at = end;
        }
    }

    /// The same of a few bytes.
    #[inline(always)]
    fn replace_some(&mut self, text: &mut [u8])
        requires { map single_stand_in text.old ≡ text.old }
        ensures written { text.new ≡ stood (due_of self.old) text.old }
        ensures due { due_of self.new ≡ due_after (due_of self.old) text.old }
    {
        if self.bytes != 0 || !is_ascii_some(text) {
            self.replace_each(text);
        }
    }

    /// The same, byte by byte.
    fn replace_each(&mut self, text: &mut [u8])
        ensures written { text.new ≡ stood (due_of self.old) text.old }
        ensures due { due_of self.new ≡ due_after (due_of self.old) text.old }
    {
        for i in 0..text.len() {
            text[i] = self.take(text[i]);
        }
    }

    /// The byte that takes the place of the next byte of a text.
    #[inline(always)]
    fn take(&mut self, byte: u8) -> u8
        ensures written { result ≡ slice_index (due_at (due_of self.old) byte) 0 }
        ensures due { due_of self.new ≡ drop 1 (due_at (due_of self.old) byte) }
    {
        let begun = STAND_INS[byte as usize];
        let due = if self.bytes == 0 { begun } else { self.bytes };
        self.bytes = due / 256;
        (due % 256) as u8
    }
}

/// What a letter or a digit becomes; any other byte stays.
#[inline(always)]
pub fn single(byte: u8) -> u8
    ensures { result ≡ single_stand_in byte }
{
    match byte {
        b'a'..=b'z' => b'x',
        b'A'..=b'Z' => b'X',
        b'0'..=b'9' => b'0',
        _ => byte,
    }
}

/// Replaces the letters and digits of a text, in place, and returns whether all its bytes are ASCII.
#[inline(always)]
fn replace_singles(text: &mut [u8]) -> bool
    ensures written { text.new ≡ map single_stand_in text.old }
    ensures ascii { IsTrue result → IsAscii text.old }
{
    match text.len() {
        32.. => replace_blocks::<32>(text),
        8.. => replace_blocks::<8>(text),
        4.. => replace_blocks::<4>(text),
        _ => replace_bytes(text),
    }
}

/// The same by blocks of N bytes. The last one overlaps the one before it, so it is read before that one is written.
#[inline(always)]
fn replace_blocks<const N: usize>(text: &mut [u8]) -> bool
    requires lanes { (0 < N) × (N ≤ 64) }
    requires long { N ≤ length text.old }
    ensures written { text.new ≡ map single_stand_in text.old }
    ensures ascii { IsTrue result → IsAscii text.old }
{
    let last = text.len() - N;
    let end = Simd::<u8, N>::from_slice(&text[last..]);
    let mut seen = end;
    let mut at = 0;
    while at < last {
        let block = Simd::<u8, N>::from_slice(&text[at..]);
        single_stand_ins(block).copy_to_slice(&mut text[at..]);
        seen = seen | block;
        at += N;
    }
    single_stand_ins(end).copy_to_slice(&mut text[last..]);
    is_ascii(seen)
}

/// The same byte by byte.
#[inline(always)]
fn replace_bytes(text: &mut [u8]) -> bool
    ensures written { text.new ≡ map single_stand_in text.old }
    ensures ascii { IsTrue result → IsAscii text.old }
{
    let mut ascii = true;
    for i in 0..text.len() {
        ascii &= text[i] < 0x80;
        text[i] = single(text[i]);
    }
    ascii
}

/// Whether these are `SOME` bytes, and all are ASCII.
#[inline(always)]
fn is_ascii_some(text: &[u8]) -> bool
    ensures { IsTrue result → IsAscii text.now }
{
    text.len() == SOME && is_ascii(u8x16::from_slice(text))
}

/// What the bytes of a block become by themselves.
#[inline(always)]
fn single_stand_ins<const N: usize>(block: Simd<u8, N>) -> Simd<u8, N>
    ensures { result ≡ map single_stand_in block.entry }
{
    let block = with_range(block, b'a', b'z', b'x');
    let block = with_range(block, b'A', b'Z', b'X');
    with_range(block, b'0', b'9', b'0')
}

/// The block with another byte in place of each from `low` to `high`.
#[inline(always)]
fn with_range<const N: usize>(block: Simd<u8, N>, low: u8, high: u8, other: u8) -> Simd<u8, N>
    ensures { result ≡ map (λ b. if is_from low high b then other else b) block.entry }
{
    let within = block.simd_ge(Simd::splat(low)) & block.simd_le(Simd::splat(high));
    within.select(Simd::splat(other), block)
}

/// Whether all bytes of a block are ASCII.
#[inline(always)]
fn is_ascii<const N: usize>(block: Simd<u8, N>) -> bool
    requires { N ≤ 64 }
    ensures { IsTrue result → IsAscii block.entry }
{
    block.simd_ge(Simd::splat(0x80)).to_bitmask() == 0
}
