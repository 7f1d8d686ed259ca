ghost use Rattle.std.specs.Prelude.{◌↔◌, IsTrue, IfSome, [], ◌∷◌};
ghost use Rattle.wsn_rules.specs.Limits.{Limits};
ghost use Rattle.wsn_hint.specs.Hints.{HintFits, IsFirstFit, BeginsNoLine, HasBlank, HasBinaryControl, IsBinaryControl, MayBeStream, MayBeginLine, capture_hints};
ghost use Rattle.wsn_hint.specs.declared.hint.Hint.TheVariants.{Binary, Blanks, Json, OtherText, SmallLetters};

use crate::early_verdict::is_lawful_start;
use crate::formats::{after_digits, format_of};
use crate::hint::Hint;
use crate::streams::is_text;
use wsn_rules::{INPUT_MAX, Limits, MESSAGE_MAX};
use wsn_wire::Role;

/// The hint for an input whose first bytes are these, its first 16 or all of them if there are fewer, where a capture is
/// read and a line isn't accepted: the first of `capture_hints` (specs/Hints.antt) that fits them. `None` if none fits,
/// as for the bytes of a capture.
pub fn capture_hint_of(first: &[u8]) -> Option<Hint>
    ensures first { (limits : Limits) → IsFirstFit (HintFits limits first.now) capture_hints result }
    ensures fits { (limits : Limits) → IfSome result (HintFits limits first.now) }
{
    match format_of(first) {
        Some(hint) => Some(hint),
        None if is_stream(first) => Some(Hint::Stream),
        None if begins_no_line(first) => file_hint(first),
        None => line_hint(first),
    }
}

/// The hint for a first line that is nearly one of a capture.
fn line_hint(first: &[u8]) -> Option<Hint>
    ensures { (limits : Limits) → IsFirstFit (HintFits limits first.now) (Blanks ∷ []) result }
{
    match first {
        [b'C' | b'S', b' ', rest @ ..] if has_blank(rest) => Some(Hint::Blanks),
        _ => None,
    }
}

/// The hint for bytes with which no line of a capture begins: JSON, small letters for the endpoints, another text, or a
/// binary file.
fn file_hint(first: &[u8]) -> Option<Hint>
    requires { BeginsNoLine first.now }
    ensures { (limits : Limits) → IsFirstFit (HintFits limits first.now)
        (Json ∷ SmallLetters ∷ OtherText ∷ Binary ∷ []) result }
{
    match first {
        [b'{', ..] => Some(Hint::Json),
        [b'c' | b's', b' ' | b'.', ..] => Some(Hint::SmallLetters),
        _ if first.len() > 3 && is_text(first) => Some(Hint::OtherText),
        _ if has_binary_control(first) => Some(Hint::Binary),
        _ => None,
    }
}

/// Whether a blank or a colon comes after the digits that these bytes begin with.
fn has_blank(first: &[u8]) -> bool
    ensures { IsTrue result ↔ HasBlank first.now }
{
    matches!(after_digits(first), [b' ', ..] | [b':', ..])
}

/// Whether no line of a capture begins with these bytes.
fn begins_no_line(first: &[u8]) -> bool
    ensures { IsTrue result ↔ BeginsNoLine first.now }
{
    match first {
        [byte, next, ..] => !may_begin_line(*byte, *next),
        _ => false,
    }
}

/// Whether a line of a capture may begin with these two bytes: a comment, none, an endpoint's bytes or end mark.
fn may_begin_line(byte: u8, next: u8) -> bool
    ensures { IsTrue result ↔ MayBeginLine byte next }
{
    matches!(byte, b'#' | b'\r' | b'\n')
        || (matches!(byte, b'C' | b'S') && matches!(next, b' ' | b'.'))
}

/// Whether one of these bytes is a control character that no text has.
fn has_binary_control(first: &[u8]) -> bool
    ensures { IsTrue result ↔ HasBinaryControl first.now }
{
    first.iter().any(|byte| is_binary_control(*byte))
}

fn is_binary_control(byte: u8) -> bool
    ensures { IsTrue result ↔ IsBinaryControl byte }
{
    matches!(byte, 0..=6 | 0x0e..=0x1a | 0x1c..=0x1f | 0x7f)
}

/// Whether these bytes, at least two, may begin the stream of an endpoint. No line of a capture begins with such a byte.
fn is_stream(first: &[u8]) -> bool
    ensures { IsTrue result ↔ MayBeStream first.now }
{
    match Limits::new(MESSAGE_MAX, INPUT_MAX) {
        Some(limits) if first.len() > 1 => {
            is_lawful_start(first, Role::Client, limits)
                || is_lawful_start(first, Role::Server, limits)
        }
        _ => false,
    }
}
