ghost use Rattle.std.specs.Prelude.{◌≡◌, ◌≢◌, ◌⊎◌, ◌↔◌, ◌+◌, ◌≤◌, ℕ, true, IsTrue, None, Some, IsSome, IfSome, List, [], ◌++◌, take};
ghost use Rattle.std.specs.List.{AllByRecursion};
ghost use Rattle.wsn_rules.specs.declared.verdict.Refusal.{Refusal};
ghost use Rattle.wsn_rules.specs.declared.verdict.Verdict.TheVariants.{Refused};
ghost use Rattle.wsn_hint.specs.declared.hint.Hint.TheVariants.{Empty};
ghost use Rattle.wsn_hint.specs.Hints.{IsVerdictOnBytes, IsRefusedEarly, HintFits, FitsRefused, IsFirstFit, frame_hints, stream_hints, IsDataHead, BeginsCompressed, BeginsCapture, BeginsEndMark, BeginsLine, IsTextByte};

use crate::early_verdict::{early_refusal, is_lawful_start};
use crate::formats::format_of;
use crate::hint::Hint;
use wsn_rules::Limits;
use wsn_wire::{Reason, Role};

/// The hint for an input whose first bytes are these, read as the stream that `role` sent: its first 16 bytes, or all of
/// them if there are fewer.
///
/// `None` unless the stream is refused at offset 0 or 1, or is empty; and if its first bytes look like nothing known.
/// Otherwise the first hint of `stream_hints` (specs/Hints.antt) that fits, if the input limit is at least 2.
/// `OtherRole` is given only if that endpoint may send the first two bytes (RFC 6455 section 5.1).
pub fn hint_of(first: &[u8], role: Role, limits: Limits) -> Option<Hint>
    ensures refused { IsSome result → (first.now ≡ [])
        ⊎ ((later : List ℕ) → IsRefusedEarly role limits (first.now ++ later)) }
    ensures empty { first.now ≡ [] → result ≡ Some Empty }
    ensures fits { IfSome result (HintFits limits first.now) }
    ensures first { 2 ≤ limits.input → (refusal : Refusal)
        → IsVerdictOnBytes role limits (take 2 first.now) (Refused refusal)
        → IsFirstFit (FitsRefused role limits refusal.reason first.now) stream_hints result }
{
    if first.is_empty() {
        return Some(Hint::Empty);
    }
    let Some(refusal) = early_refusal(first, role, limits) else {
        return None;
    };
    if is_capture_text(first) {
        return Some(Hint::Capture);
    }
    match format_of(first) {
        Some(hint) => Some(hint),
        None => frame_hint(first, refusal.reason, role, limits),
    }
}

/// The hint for a stream that is refused at offset 0 or 1 for this reason, and is of no known format: compressed, the
/// other endpoint's, or a text.
fn frame_hint(first: &[u8], reason: Reason, role: Role, limits: Limits) -> Option<Hint>
    ensures fits { IfSome result (HintFits limits first.now) }
    ensures first { 2 ≤ limits.input
        → IsFirstFit (FitsRefused role limits reason first.now) frame_hints result }
{
    match reason {
        Reason::ReservedBits if is_compressed_start(first, role, limits) && !is_text(first) => {
            Some(Hint::Compressed)
        }
        Reason::MaskMissing if is_lawful_start(first, Role::Server, limits) => {
            Some(Hint::OtherRole(Role::Server))
        }
        Reason::MaskPresent if is_lawful_start(first, Role::Client, limits) => {
            Some(Hint::OtherRole(Role::Client))
        }
        _ if first.len() > 3 && is_text(first) => Some(Hint::Text),
        _ => None,
    }
}

/// Whether these bytes begin with a text or binary frame that is lawful but for RSV1, as compression sets it (RFC 7692
/// section 6).
pub fn is_compressed_start(first: &[u8], role: Role, limits: Limits) -> bool
    ensures compressed { result ≡ true → BeginsCompressed role limits first.now }
    ensures given { 2 ≤ limits.input → BeginsCompressed role limits first.now → result ≡ true }
{
    match first {
        [head, second, ..] => match without_compression(*head) {
            Some(plain) => is_lawful_start(&[plain, *second], role, limits),
            None => false,
        },
        _ => false,
    }
}

/// The first byte of the head of a text or binary frame, without RSV1; `None` if this isn't such a byte with RSV1 alone.
pub fn without_compression(head: u8) -> Option<u8>
    ensures plain { IfSome result (λ plain. (head ≡ plain + 0x40) × IsDataHead plain) }
    ensures none { result ≡ None → (plain : ℕ) → IsDataHead plain → head ≢ plain + 0x40 }
{
    match head {
        0x41 => Some(0x01),
        0x42 => Some(0x02),
        0xc1 => Some(0x81),
        0xc2 => Some(0x82),
        _ => None,
    }
}

/// Whether all these bytes are of a text in ASCII.
pub fn is_text(first: &[u8]) -> bool
    ensures { IsTrue result ↔ AllByRecursion IsTextByte first.now }
{
    first.iter().all(|byte| is_text_byte(*byte))
}

fn is_text_byte(byte: u8) -> bool
    ensures { IsTrue result ↔ IsTextByte byte }
{
    matches!(byte, b'\t' | b'\r' | b'\n' | 0x20..=0x7e)
}

/// Whether these bytes begin a line of a capture that has bytes, an end mark, or a comment after a space.
fn is_capture_text(first: &[u8]) -> bool
    ensures { IsTrue result ↔ BeginsCapture first.now }
{
    match first {
        _ if begins_line(first) => true,
        _ if begins_end_mark(first) => true,
        _ => first.starts_with(b"# "),
    }
}

/// Whether these bytes begin a line of a capture that has bytes.
fn begins_line(first: &[u8]) -> bool
    ensures { IsTrue result ↔ BeginsLine first.now }
{
    match first {
        [b'C' | b'S', b' ', high, low, ..] => high.is_ascii_hexdigit() && low.is_ascii_hexdigit(),
        _ => false,
    }
}

/// Whether these bytes begin with a line of a capture that is an end mark.
fn begins_end_mark(first: &[u8]) -> bool
    ensures { IsTrue result ↔ BeginsEndMark first.now }
{
    match first {
        [b'C' | b'S', b'.', rest @ ..] => matches!(rest, [] | [b'\r' | b'\n', ..]),
        _ => false,
    }
}
