//! The columns of an entry for people, and what follows them, which are put in one line.
ghost use Rattle.std.specs.Prelude.{◌≡◌, ◌+◌, ◌-◌, ◌≤◌, ◌++◌, codes, length, replicate, decimal};
ghost use Rattle.wsn_print.specs.HeadText.{op_word};
ghost use Rattle.wsn_print.specs.ShownParts.{remainder_word};
ghost use Rattle.wsn_shown_text.specs.PeopleText.{right, left, offset_column, columns, last_text, mask_text, length_text, people_head, frames_text, missing_text, people_lacks, sentence};

use crate::fields::remainder_word;
use wsn_print::{Line, Remainder, ShownEvent, op_word};
use wsn_rules::{HeadInfo, Refusal};
use wsn_wire::Form;

/// The space for the columns of an entry and for what follows them in bytes, with numbers of twenty digits.
pub(crate) const PEOPLE_MAX: usize = 170;

/// The least width of the columns of the time, of the offset and of the word, which is the greatest.
const WIDTH: usize = 10;

/// The least width of the column of the size.
const SIZE_WIDTH: usize = 5;

/// The space for a number in bytes.
const DIGITS_MAX: usize = 20;

static SPACES: [u8; 10] = [b' '; 10];

/// Appends the columns of a complete event, and what is in front of its view.
pub(crate) fn push_event(line: &mut Line<PEOPLE_MAX>, offset: u64, event: &ShownEvent<'_>)
    requires { length line.old + 118 ≤ PEOPLE_MAX }
    ensures { line.new ≡ line.old ++ (columns offset (op_word event.now.op) event.now.bytes
        ++ frames_text event.now.frames ++ codes "  ") }
{
    push_columns(line, offset, op_word(event.op), event.bytes);
    push_frames(line, event.frames);
    line.push("  ");
}

/// Appends the columns of an event that isn't complete, what is missing, and what is in front of its view.
pub(crate) fn push_unfinished(
    line: &mut Line<PEOPLE_MAX>,
    offset: u64,
    event: &ShownEvent<'_>,
    lacks: Option<u64>,
)
    requires { length line.old + 162 ≤ PEOPLE_MAX }
    ensures { line.new ≡ line.old ++ (columns offset (codes "unfinished") event.now.bytes
        ++ (codes "  " ++ op_word event.now.op) ++ frames_text event.now.frames ++ people_lacks lacks ++ codes "  ") }
{
    push_columns(line, offset, "unfinished", event.bytes);
    line.push("  ");
    line.push(op_word(event.op));
    push_frames(line, event.frames);
    push_lacks(line, lacks);
    line.push("  ");
}

/// Appends the columns of a part of a head.
pub(crate) fn push_unfinished_head(line: &mut Line<PEOPLE_MAX>, offset: u64)
    requires { length line.old + 120 ≤ PEOPLE_MAX }
    ensures { line.new ≡ line.old
        ++ (columns offset (codes "unfinished") 0 ++ codes "  head, next head incomplete  ") }
{
    push_columns(line, offset, "unfinished", 0);
    line.push("  head, next head incomplete  ");
}

/// Appends the columns of bytes that belong to no frame, and what is in front of their view.
pub(crate) fn push_remainder(line: &mut Line<PEOPLE_MAX>, offset: u64, which: Remainder, count: u64)
    requires { length line.old + 86 ≤ PEOPLE_MAX }
    ensures { line.new ≡ line.old ++ (columns offset (remainder_word which) count ++ codes "  ") }
{
    push_columns(line, offset, remainder_word(which), count);
    line.push("  ");
}

/// Appends the columns of a frame, what its head says more, and the end.
pub(crate) fn push_frame(line: &mut Line<PEOPLE_MAX>, offset: u64, head: &HeadInfo)
    requires { length line.old + 144 ≤ PEOPLE_MAX }
    ensures { line.new ≡ line.old
        ++ (columns offset (op_word head.now.op) head.now.len ++ codes "  " ++ people_head head.now ++ codes "\n") }
{
    push_columns(line, offset, op_word(head.op), head.len);
    line.push("  ");
    line.push(last_text(head.fin));
    push_mask(line, head.key);
    line.push(length_text(head.form));
    line.push("\n");
}

/// Appends the columns of a refusal, and its sentence.
#[tactic(auto, using(crate::proofs::PeopleTexts::word_short))]
pub(crate) fn push_refused(line: &mut Line<PEOPLE_MAX>, offset: u64, refusal: &Refusal)
    requires { length line.old + 146 ≤ PEOPLE_MAX }
    ensures { line.new ≡ line.old
        ++ (offset_column offset ++ codes "  " ++ left 10 (codes "refused") ++ sentence refusal.now) }
{
    let reason = refusal.reason;
    push_offset(line, offset);
    line.push("  ");
    push_left(line, "refused");
    line.push(reason.word());
    line.push(" at ");
    line.push_number(refusal.offset);
    line.push(": a peer should close with ");
    line.push_number(u64::from(reason.code()));
}

/// Appends the columns of an end mark, and the end.
pub(crate) fn push_end_mark(line: &mut Line<PEOPLE_MAX>, offset: u64)
    requires { length line.old + 37 ≤ PEOPLE_MAX }
    ensures { line.new ≡ line.old ++ (offset_column offset ++ codes "  end\n") }
{
    push_offset(line, offset);
    line.push("  end\n");
}

fn push_columns(line: &mut Line<PEOPLE_MAX>, offset: u64, word: &str, size: u64)
    requires room { length line.old + 84 ≤ PEOPLE_MAX }
    requires short { length word.now ≤ 10 }
    ensures text { line.new ≡ line.old ++ columns offset word.now size }
    ensures len { length line.new ≤ length line.old + 84 }
{
    push_offset(line, offset);
    line.push("  ");
    push_left(line, word);
    line.push(" ");
    push_right(line, SIZE_WIDTH, size);
}

fn push_offset(line: &mut Line<PEOPLE_MAX>, offset: u64)
    requires { length line.old + 31 ≤ PEOPLE_MAX }
    ensures text { line.new ≡ line.old ++ offset_column offset }
    ensures len { length line.new ≤ length line.old + 31 }
{
    line.push(" ");
    push_right(line, WIDTH, offset);
}

/// Appends a number at the right of a column.
fn push_right(line: &mut Line<PEOPLE_MAX>, width: usize, number: u64)
    requires room { length line.old + 30 ≤ PEOPLE_MAX }
    requires narrow { width ≤ 10 }
    ensures text { line.new ≡ line.old ++ right width (decimal number) }
    ensures len { length line.new ≤ length line.old + 30 }
{
    let mut digits = Line::<DIGITS_MAX>::new();
    digits.push_number(number);
    line.push_bytes(spaces(width.saturating_sub(digits.bytes().len())));
    line.push_line(&digits);
}

/// Appends a word at the left of its column.
fn push_left(line: &mut Line<PEOPLE_MAX>, word: &str)
    requires room { length line.old + 20 ≤ PEOPLE_MAX }
    requires short { length word.now ≤ 10 }
    ensures text { line.new ≡ line.old ++ left 10 word.now }
    ensures len { length line.new ≤ length line.old + 20 }
{
    line.push(word);
    line.push_bytes(padding(word.len()));
}

/// What is in front of a text with this length at the right of a column of the greatest width, or after it at the left.
pub(crate) fn padding(size: usize) -> &'static [u8]
    ensures text { result.now ≡ replicate (10 - size) 32 }
    ensures len { length result.now ≤ 10 }
{
    spaces(WIDTH.saturating_sub(size))
}

/// The given number of spaces, at most the width of the widest column.
#[tactic(auto, using(crate::proofs::PeopleTexts::blanks))]
fn spaces(count: usize) -> &'static [u8]
    requires { count ≤ 10 }
    ensures text { result.now ≡ replicate count 32 }
    ensures len { length result.now ≤ 10 }
{
    &SPACES[..count]
}

/// Appends the number of frames if there are several.
fn push_frames(line: &mut Line<PEOPLE_MAX>, frames: u64)
    requires { length line.old + 32 ≤ PEOPLE_MAX }
    ensures text { line.new ≡ line.old ++ frames_text frames }
    ensures len { length line.new ≤ length line.old + 32 }
{
    if frames > 1 {
        line.push("  in ");
        line.push_number(frames);
        line.push(" frames");
    }
}

fn push_lacks(line: &mut Line<PEOPLE_MAX>, lacks: Option<u64>)
    requires { length line.old + 36 ≤ PEOPLE_MAX }
    ensures text { line.new ≡ line.old ++ people_lacks lacks }
    ensures len { length line.new ≤ length line.old + 36 }
{
    match lacks {
        Some(count) => push_missing(line, count),
        None => line.push(", next head incomplete"),
    }
}

/// Appends how many bytes are missing.
fn push_missing(line: &mut Line<PEOPLE_MAX>, count: u64)
    requires { length line.old + 36 ≤ PEOPLE_MAX }
    ensures text { line.new ≡ line.old ++ missing_text count }
    ensures len { length line.new ≤ length line.old + 36 }
{
    if count == 0 {
        line.push(", more to come");
    } else if count == 1 {
        line.push(", 1 byte missing");
    } else {
        line.push(", ");
        line.push_number(count);
        line.push(" bytes missing");
    }
}

fn last_text(fin: bool) -> &'static str
    ensures text { result.now ≡ last_text fin }
    ensures short { length result.now ≤ 12 }
{
    if fin { "final" } else { "more to come" }
}

fn push_mask(line: &mut Line<PEOPLE_MAX>, key: Option<[u8; 4]>)
    requires { length line.old + 22 ≤ PEOPLE_MAX }
    ensures text { line.new ≡ line.old ++ mask_text key }
    ensures len { length line.new ≤ length line.old + 22 }
{
    match key {
        Some(key) => {
            line.push(", masked with ");
            line.push_hex(&key);
        }
        None => line.push(", unmasked"),
    }
}

fn length_text(form: Form) -> &'static str
    ensures text { result.now ≡ length_text form }
    ensures short { length result.now ≤ 23 }
{
    match form {
        Form::Shortest => "",
        Form::Two => ", length in two bytes",
        Form::Eight => ", length in eight bytes",
    }
}
