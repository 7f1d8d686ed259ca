ghost use Rattle.std.specs.Prelude.{◌≡◌, ℕ, ◌+◌, ◌*◌, ◌-◌, ◌<◌, ◌≤◌, List, ◌++◌, length, take, drop, flat_map, codes};
ghost use Rattle.wsn_print.specs.Runs.{escaped, escaped_byte, IsPlainUpTo};
ghost use Rattle.wsn_print.specs.EscapedText.{unicode_escape, ascii_escape};

use crate::escapes::{BLOCK, Escapes, hidden_at_start, marks, plain_at_start, takes_backslash};
use crate::kept_bytes::KeptBytes;
use crate::parts::{put, put_front, put_hex, put_slice};
use std::simd::prelude::*;

/// The maximum length in bytes of the text that is held.
pub const HELD_MAX: usize = 256;

/// The most bytes of a character that is shown: two surrogates, each `\u` and four digits.
pub(crate) const CHARACTER_MAX: usize = 12;

/// The most bytes of a block that is shown, each after a backslash.
const PLAIN_MAX: usize = 32;

/// The room that one turn of a text needs: a block, and a character that is escaped.
pub(crate) const TURN_MAX: usize = 44;

/// Text as it is written, held until then, at most 256 bytes.
pub type HeldText = KeptBytes<HELD_MAX>;

impl HeldText {
    /// Adds bytes at the start of a text: some that begin no hidden character, and one character after them, if it is
    /// hidden. Returns their number, which isn't 0.
    #[inline(always)]
    pub(crate) fn add_start(&mut self, escapes: Escapes, text: &[u8]) -> usize
        requires room { length self.old + TURN_MAX ≤ 256 }
        requires some { 0 < length text.now }
        ensures within { (0 < result) × (result ≤ length text.now) }
        ensures added { (more : List ℕ) × (self.new ≡ self.old ++ more)
            × (escaped escapes text.now ≡ more ++ escaped escapes (drop result text.now)) }
    {
        let count = self.add_plain(escapes, text);
        if count == BLOCK || count == text.len() {
            return count;
        }
        count + self.add_first(escapes, &text[count..])
    }

    /// Adds the first bytes of a text with which no hidden character begins, at most 16, and returns their number.
    #[inline(always)]
    fn add_plain(&mut self, escapes: Escapes, text: &[u8]) -> usize
        requires { length self.old + PLAIN_MAX ≤ 256 }
        ensures within { (result ≤ BLOCK) × (result ≤ length text.now) }
        ensures plain { IsPlainUpTo result text.now }
        ensures added { self.new ≡ self.old ++ flat_map (escaped_byte escapes) (take result text.now) }
    {
        if text.len() < BLOCK {
            let mut block = [0; BLOCK];
            let end = put_slice(text, &mut block, 0);
            self.add_front(escapes, &block, end)
        } else {
            self.add_front(escapes, text, BLOCK)
        }
    }

    /// Like `add_plain`, for a text of 16 bytes or more, of which at most `most` are added.
    #[inline(always)]
    fn add_front(&mut self, escapes: Escapes, text: &[u8], most: usize) -> usize
        requires room { length self.old + PLAIN_MAX ≤ 256 }
        requires long { BLOCK ≤ length text.now }
        requires within { most ≤ BLOCK }
        ensures few { result ≤ most }
        ensures plain { IsPlainUpTo result text.now }
        ensures added { self.new ≡ self.old ++ flat_map (escaped_byte escapes) (take result text.now) }
    {
        let count = plain_at_start(text).min(most);
        if marks(escapes, u8x16::from_slice(text)) != 0 {
            self.len = put_each(escapes, &text[..count], &mut self.bytes, self.len);
            return count;
        }
        self.len = put_front(&text[..BLOCK], count, &mut self.bytes, self.len);
        count
    }

    /// Adds the character at the start of a text, if it is escaped, and else its first byte. Returns the number of its
    /// bytes.
    #[inline(always)]
    fn add_first(&mut self, escapes: Escapes, text: &[u8]) -> usize
        requires room { length self.old + CHARACTER_MAX ≤ 256 }
        requires some { 0 < length text.now }
        ensures within { (0 < result) × (result ≤ length text.now) }
        ensures added { (more : List ℕ) × (self.new ≡ self.old ++ more)
            × (escaped escapes text.now ≡ more ++ escaped escapes (drop result text.now)) }
    {
        match hidden_at_start(text) {
            Some((number, more)) => {
                self.len = put_escape(number, &mut self.bytes, self.len);
                1 + more
            }
            None => {
                self.len = put_each(escapes, &text[..1], &mut self.bytes, self.len);
                1
            }
        }
    }

    /// Adds a quotation mark.
    #[inline(always)]
    pub(crate) fn add_mark(&mut self)
        requires { length self.old + 1 ≤ 256 }
        ensures { self.new ≡ self.old ++ codes "\"" }
    {
        self.len = put([b'"'], &mut self.bytes, self.len);
    }
}

/// Writes bytes at `start`, each after a backslash if it takes one, and returns where they end.
#[inline(always)]
fn put_each(escapes: Escapes, bytes: &[u8], text: &mut [u8], start: usize) -> usize
    requires { start + 2 * length bytes.now ≤ length text.old }
    ensures end { result ≤ start + 2 * length bytes.now }
    ensures written { take result text.new ≡ take start text.old ++ flat_map (escaped_byte escapes) bytes.now }
{
    let mut at = start;
    for byte in bytes {
        let marked = usize::from(takes_backslash(escapes, *byte));
        at = put_front(b"\\", marked, text, at);
        at = put([*byte], text, at);
    }
    at
}

/// Writes a character by its number at `at`, below U+10000 in four digits, otherwise as two surrogates (RFC 8259 section
/// 7), and returns where it ends.
#[inline(always)]
fn put_escape(number: u32, text: &mut [u8], at: usize) -> usize
    requires room { at + CHARACTER_MAX ≤ length text.old }
    requires character { number < 0x110000 }
    ensures end { result ≤ at + CHARACTER_MAX }
    ensures written { take result text.new ≡ take at text.old ++ ascii_escape number }
{
    if number < 0x1_0000 {
        return put_unit(number as u16, text, at);
    }
    let over = number - 0x1_0000;
    let at = put_unit(0xd800 + (over / 0x400) as u16, text, at);
    put_unit(0xdc00 + (over % 0x400) as u16, text, at)
}

/// Writes `\u` and the four digits of a number at `at`, and returns where they end.
#[inline(always)]
fn put_unit(number: u16, text: &mut [u8], at: usize) -> usize
    requires { at + 6 ≤ length text.old }
    ensures end { result ≡ at + 6 }
    ensures written { take result text.new ≡ take at text.old ++ unicode_escape number }
{
    let at = put(*b"\\u", text, at);
    let at = put_hex((number / 256) as u8, text, at);
    put_hex((number % 256) as u8, text, at)
}
