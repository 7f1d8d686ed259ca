//! The fields of an entry in a shape, which are put in one line.
ghost use Rattle.std.specs.Prelude.{◌≡◌, ◌+◌, ◌≤◌, ◌++◌, Option, None, [], ◌∷◌, codes, length};
ghost use Rattle.wsn_print.specs.HeadText.{op_word};
ghost use Rattle.wsn_print.specs.ShownParts.{remainder_word};
ghost use Rattle.wsn_shown_text.specs.Members.{event_members, unfinished_members};
ghost use Rattle.wsn_shown_text.specs.Members.Member.{Mark, Word, Number, Lacks, Frame, Refused};
ghost use Rattle.wsn_shown_text.specs.EntryFormats.{offset_in, member_in, members_in, space_in, piece_in, end_in};

use wsn_print::{
    HELD_MAX, Line, Remainder, ShownEvent, op_word, push_number_field, push_number_or_null_field,
    push_refusal, push_string_field,
};
use wsn_rules::{HeadInfo, Refusal};

/// How an entry is written.
#[derive(Clone, Copy)]
pub(crate) enum Shape {
    /// As a line of words.
    Line,
    /// As a JSON object in one line.
    Object,
}

/// The space for an entry in bytes, up to a text that is longer: its front without a time and its fields, with five numbers
/// of twenty digits, take 240.
pub(crate) const ENTRY_MAX: usize = HELD_MAX;

/// Appends the offset and the fields of a complete event.
#[inline(always)]
pub(crate) fn push_event(
    line: &mut Line<ENTRY_MAX>,
    shape: Shape,
    offset: u64,
    event: &ShownEvent<'_>,
)
    requires { length line.old + 120 ≤ ENTRY_MAX }
    ensures { line.new ≡ line.old ++ offset_in shape offset
        ++ members_in shape (event_members (op_word event.now.op) event.now.bytes event.now.frames) ++ space_in shape }
{
    push_offset(line, shape, offset);
    push_counts(line, shape, op_word(event.op), event.bytes, event.frames);
    push_space(line, shape);
}

/// Appends the offset and the fields of an event that isn't complete.
pub(crate) fn push_unfinished(
    line: &mut Line<ENTRY_MAX>,
    shape: Shape,
    offset: u64,
    event: &ShownEvent<'_>,
    lacks: Option<u64>,
)
    requires { length line.old + 160 ≤ ENTRY_MAX }
    ensures { line.new ≡ line.old ++ offset_in shape offset
        ++ members_in shape (unfinished_members (op_word event.now.op) event.now.bytes event.now.frames lacks)
        ++ space_in shape }
{
    push_offset(line, shape, offset);
    push_mark(line, shape, "unfinished");
    push_counts(line, shape, op_word(event.op), event.bytes, event.frames);
    push_lacks(line, shape, lacks);
    push_space(line, shape);
}

/// Appends the word, the payload bytes and the frames of an event.
#[inline(always)]
fn push_counts(line: &mut Line<ENTRY_MAX>, shape: Shape, word: &str, bytes: u64, frames: u64)
    requires room { length line.old + 80 ≤ ENTRY_MAX }
    requires short { length word.now ≤ 6 }
    ensures text { line.new ≡ line.old ++ members_in shape (event_members word.now bytes frames) }
    ensures len { length line.new ≤ length line.old + 80 }
{
    push_word(line, shape, "event", word);
    push_number(line, shape, "bytes", bytes);
    push_number(line, shape, "frames", frames);
}

/// Appends the offset and the fields of a part of a head.
pub(crate) fn push_unfinished_head(line: &mut Line<ENTRY_MAX>, shape: Shape, offset: u64)
    requires { length line.old + 160 ≤ ENTRY_MAX }
    ensures { line.new ≡ line.old ++ offset_in shape offset
        ++ members_in shape (unfinished_members (codes "head") 0 0 None) ++ space_in shape }
{
    push_offset(line, shape, offset);
    push_mark(line, shape, "unfinished");
    push_counts(line, shape, "head", 0, 0);
    push_lacks(line, shape, None);
    push_space(line, shape);
}

/// Appends the offset and the fields of bytes that belong to no frame.
pub(crate) fn push_remainder(
    line: &mut Line<ENTRY_MAX>,
    shape: Shape,
    offset: u64,
    which: Remainder,
    count: u64,
)
    requires { length line.old + 80 ≤ ENTRY_MAX }
    ensures { line.new ≡ line.old ++ offset_in shape offset
        ++ members_in shape (Mark (remainder_word which) ∷ Number (codes "bytes") count ∷ []) ++ space_in shape }
{
    push_offset(line, shape, offset);
    push_mark(line, shape, remainder_word(which));
    push_number(line, shape, "bytes", count);
    push_space(line, shape);
}

/// Appends the offset of an end mark, its word and its end.
pub(crate) fn push_end_mark(line: &mut Line<ENTRY_MAX>, shape: Shape, offset: u64)
    requires { length line.old + 50 ≤ ENTRY_MAX }
    ensures { line.new ≡ line.old ++ offset_in shape offset ++ member_in shape (Mark (codes "end")) ++ end_in shape }
{
    push_offset(line, shape, offset);
    push_mark(line, shape, "end");
    line.push(end_of(shape));
}

/// Appends the offset and the fields of a frame, and its end.
#[inline(always)]
pub(crate) fn push_frame(line: &mut Line<ENTRY_MAX>, shape: Shape, offset: u64, head: &HeadInfo)
    requires { length line.old + 130 ≤ ENTRY_MAX }
    ensures { line.new ≡ line.old ++ offset_in shape offset ++ member_in shape (Frame head.now) ++ end_in shape }
{
    push_offset(line, shape, offset);
    match shape {
        Shape::Line => line.push_fields(head),
        Shape::Object => line.push_members(head),
    }
}

/// Appends the offset of a refused frame, and the refusal.
pub(crate) fn push_refused(line: &mut Line<ENTRY_MAX>, shape: Shape, offset: u64, refusal: &Refusal)
    requires { length line.old + 130 ≤ ENTRY_MAX }
    ensures { line.new ≡ line.old ++ offset_in shape offset ++ member_in shape (Refused refusal.now) ++ space_in shape }
{
    push_offset(line, shape, offset);
    match shape {
        Shape::Line => push_refusal_text(line, refusal),
        Shape::Object => push_refusal(line, "place", refusal),
    }
    push_space(line, shape);
}

fn push_refusal_text(line: &mut Line<ENTRY_MAX>, refusal: &Refusal)
    requires { length line.old + 70 ≤ ENTRY_MAX }
    ensures text { line.new ≡ line.old ++ member_in Shape.Line (Refused refusal.now) }
    ensures len { length line.new ≤ length line.old + 70 }
{
    line.push(" ");
    line.push_refusal(refusal);
}

/// Appends an entry's offset.
#[inline(always)]
pub(crate) fn push_offset(line: &mut Line<ENTRY_MAX>, shape: Shape, offset: u64)
    requires { length line.old + 30 ≤ ENTRY_MAX }
    ensures text { line.new ≡ line.old ++ offset_in shape offset }
    ensures len { length line.new ≤ length line.old + 30 }
{
    match shape {
        Shape::Line => {
            line.push(" ");
            line.push_number(offset);
        }
        Shape::Object => push_number_field(line, "offset", offset),
    }
}

/// Appends the word for an entry's type.
#[inline(always)]
fn push_mark(line: &mut Line<ENTRY_MAX>, shape: Shape, word: &str)
    requires { length line.old + length word.now + 1 ≤ ENTRY_MAX }
    ensures text { line.new ≡ line.old ++ member_in shape (Mark word.now) }
    ensures len { length line.new ≤ length line.old + length word.now + 1 }
{
    match shape {
        Shape::Line => {
            line.push(" ");
            line.push(word);
        }
        Shape::Object => {}
    }
}

#[inline(always)]
fn push_word(line: &mut Line<ENTRY_MAX>, shape: Shape, name: &str, word: &str)
    requires { length line.old + length name.now + length word.now + 6 ≤ ENTRY_MAX }
    ensures text { line.new ≡ line.old ++ member_in shape (Word name.now word.now) }
    ensures len { length line.new ≤ length line.old + length name.now + length word.now + 6 }
{
    match shape {
        Shape::Line => {
            line.push(" ");
            line.push(word);
        }
        Shape::Object => push_string_field(line, name, word),
    }
}

#[inline(always)]
fn push_number(line: &mut Line<ENTRY_MAX>, shape: Shape, name: &str, number: u64)
    requires { length line.old + length name.now + 24 ≤ ENTRY_MAX }
    ensures text { line.new ≡ line.old ++ member_in shape (Number name.now number) }
    ensures len { length line.new ≤ length line.old + length name.now + 24 }
{
    match shape {
        Shape::Line => {
            line.push(" ");
            line.push_number(number);
        }
        Shape::Object => push_number_field(line, name, number),
    }
}

#[inline(always)]
fn push_lacks(line: &mut Line<ENTRY_MAX>, shape: Shape, lacks: Option<u64>)
    requires { length line.old + 29 ≤ ENTRY_MAX }
    ensures text { line.new ≡ line.old ++ member_in shape (Lacks lacks) }
    ensures len { length line.new ≤ length line.old + 29 }
{
    match shape {
        Shape::Line => {
            line.push(" lacks ");
            line.push_number_or_dash(lacks);
        }
        Shape::Object => push_number_or_null_field(line, "lacks", lacks),
    }
}

/// Appends what is in front of a view.
#[inline(always)]
fn push_space(line: &mut Line<ENTRY_MAX>, shape: Shape)
    requires { length line.old + 1 ≤ ENTRY_MAX }
    ensures text { line.new ≡ line.old ++ space_in shape }
    ensures len { length line.new ≤ length line.old + 1 }
{
    match shape {
        Shape::Line => line.push(" "),
        Shape::Object => {}
    }
}

/// The first text in a line, the second in an object.
pub(crate) fn piece_of(shape: Shape, in_line: &'static str, in_object: &'static str) -> &'static str
    ensures { result.now ≡ piece_in shape in_line.now in_object.now }
{
    match shape {
        Shape::Line => in_line,
        Shape::Object => in_object,
    }
}

/// The end of an entry.
#[inline(always)]
pub(crate) fn end_of(shape: Shape) -> &'static str
    ensures text { result.now ≡ end_in shape }
    ensures short { length result.now ≤ 2 }
{
    match shape {
        Shape::Line => "\n",
        Shape::Object => "}\n",
    }
}

/// The word for bytes that belong to no frame.
pub(crate) fn remainder_word(which: Remainder) -> &'static str
    ensures word { result.now ≡ remainder_word which }
    ensures short { length result.now ≤ 6 }
{
    match which {
        Remainder::Unread => "unread",
        Remainder::Tail => "tail",
    }
}
