ghost use Rattle.std.specs.Prelude.{◌≡◌, ℕ, ◌+◌, ◌<◌, ◌≤◌, true, false, List, [], ◌++◌, length, take, decimal};
ghost use Rattle.wsn_print.specs.HeadText.{head_line};
ghost use Rattle.wsn_print.specs.Formats.{head_text};
ghost use Rattle.wsn_print.specs.Objects.{frame_object};

use crate::format::Format;
use crate::frame_members::put_members;
use crate::heads::put_fields;
use crate::kept_bytes::KeptBytes;
use crate::kept_digits::KeptDigits;
use crate::parts::{put, put_last_four, put_number};
use std::marker::Model;
use wsn_rules::HeadInfo;

/// The maximum length in bytes of the lines that are held.
const HELD_MAX: usize = 4_096;

/// The maximum length in bytes of one line, the object of a frame.
const LINE_MAX: usize = 142;

/// The lines of heads, one after another, held until they are written, at most 4,096 bytes.
#[derive(Drop)]
pub struct HeadLines {
    text: KeptBytes<HELD_MAX>,
    /// The digits above the last four of an offset.
    above: KeptDigits,
}

impl Model for HeadLines {
    ghost Value = { List ℕ };

    ghost view = { λ lines. lines.text };
}

impl HeadLines {
    /// No lines.
    pub fn new() -> Self
        ensures { result ≡ [] }
    {
        HeadLines {
            text: KeptBytes::new(),
            above: KeptDigits::new(),
        }
    }

    /// Whether the lines have to be cleared before another is added: one that is as long as can be wouldn't fit.
    #[inline(always)]
    pub fn is_full(&self) -> bool
        ensures full { result ≡ true → 4096 < length self.now + 142 }
        ensures room { result ≡ false → length self.now + 142 ≤ 4096 }
    {
        !self.text.has_room(LINE_MAX)
    }

    /// Adds the line of a head, in a format.
    #[inline(always)]
    pub fn add(&mut self, format: Format, head: &HeadInfo)
        requires { length self.old + 142 ≤ 4096 }
        ensures { self.new ≡ self.old ++ head_text format head.now }
    {
        let text = &mut self.text;
        text.len = match format {
            Format::Text | Format::People => {
                put_head_at(head, &mut self.above, &mut text.bytes, text.len)
            }
            Format::Json => put_object_at(head, &mut self.above, &mut text.bytes, text.len),
        };
    }

    /// The lines.
    #[inline(always)]
    pub fn text(&self) -> &[u8]
        ensures { result.now ≡ self.now }
    {
        self.text.as_slice()
    }

    /// Removes all lines.
    #[inline(always)]
    pub fn clear(&mut self)
        ensures { self.new ≡ [] }
    {
        self.text.clear();
    }
}

/// Writes the line of a head at `at`, and returns where it ends. The digits above the last four of its offset are kept for
/// the next line.
#[inline(always)]
fn put_head_at(head: &HeadInfo, above: &mut KeptDigits, text: &mut [u8], at: usize) -> usize
    requires { at + 69 ≤ length text.old }
    ensures end { (at ≤ result) × (result ≤ at + 69) }
    ensures written { take result text.new ≡ take at text.old ++ head_line head.now }
{
    let at = put_offset(head.offset, above, text, at);
    put_fields(head, text, at)
}

/// Writes the object of a head at `at`, and returns where it ends, as [`put_head_at`] writes its line.
#[inline(never)]
fn put_object_at(head: &HeadInfo, above: &mut KeptDigits, text: &mut [u8], at: usize) -> usize
    requires { at + 142 ≤ length text.old }
    ensures end { (at ≤ result) × (result ≤ at + 142) }
    ensures written { take result text.new ≡ take at text.old ++ frame_object head.now }
{
    let at = put(*b"{\"type\":\"frame\",\"offset\":", text, at);
    let at = put_offset(head.offset, above, text, at);
    put_members(head, text, at)
}

/// Writes an offset in decimal digits, at most 20, at `at`, and returns where they end.
#[inline(always)]
fn put_offset(n: u64, above: &mut KeptDigits, text: &mut [u8], at: usize) -> usize
    requires { at + 20 ≤ length text.old }
    ensures end { (at ≤ result) × (result ≤ at + 20) }
    ensures written { take result text.new ≡ take at text.old ++ decimal n }
{
    if n < 10_000 {
        return put_number(n, text, at);
    }
    let at = above.put(n / 10_000, text, at);
    put_last_four(n, text, at)
}
