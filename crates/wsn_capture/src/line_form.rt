ghost use Rattle.std.specs.Prelude.{◌≡◌, ◌*◌, ◌+◌, ◌≤◌, MatchResult, Ok, Err, length, take};
ghost use Rattle.wsn_capture.specs.LineEntries.{IsForm, HasNoHex, FitsInLine, held_entry};
ghost use Rattle.wsn_capture.specs.SideTexts.{text_entry};
ghost use Rattle.wsn_rules.specs.Entries.{without_cr, IsHex};
ghost use Rattle.wsn_capture.specs.declared.line_fault.LineFault.TheVariants.{BadHex};

use crate::hex_pairs::decode_pairs;
use crate::line_fault::LineFault;
use wsn_wire::Role;

/// The maximum length of a line in bytes, without the CR at its end: an endpoint's letter, a space and 8,192 digits.
pub(crate) const LINE_MAX: usize = 8194;

/// The maximum number of bytes that a line gives.
pub const BYTES_MAX: usize = 4096;

/// What a line of a capture gives. The bytes are held elsewhere, at the start of an array.
#[derive(Clone, Copy)]
pub enum LineEntry {
    /// Nothing: the line is empty, or a comment.
    Nothing,
    /// This number of bytes of an endpoint.
    Bytes(Role, usize),
    /// An endpoint's end mark.
    Mark(Role),
}

/// The form of a line, as known before its digits are read.
#[derive(Clone, Copy)]
enum LineForm {
    /// Empty, or a comment.
    Nothing,
    /// Bytes of an endpoint: their digits follow two bytes, a letter and a space.
    Bytes(Role),
    /// An endpoint's end mark.
    Mark(Role),
}

/// The line without the CR at its end, if it has one.
#[tactic(none)]
pub fn strip_cr(line: &[u8]) -> &[u8]
    ensures { result.now ≡ without_cr line.now }
{
    match line {
        [front @ .., b'\r'] => front,
        _ => line,
    }
}

/// What a line without its CR gives; its bytes are then at the start of `bytes`. The error is the first of the faults that
/// the line has by itself, `BadForm` or `BadHex`. The contents of the other bytes, and of all after an error, are
/// unspecified.
#[inline(always)]
pub(crate) fn entry_of(text: &[u8], bytes: &mut [u8; BYTES_MAX]) -> Result<LineEntry, LineFault>
    requires { length text.now ≤ LINE_MAX }
    ensures { MatchResult result
        (λ entry. FitsInLine entry × (text_entry text.now ≡ Ok (held_entry entry bytes.new)))
        (λ fault. text_entry text.now ≡ Err fault) }
{
    match form_of(text) {
        Some(LineForm::Nothing) => Ok(LineEntry::Nothing),
        Some(LineForm::Bytes(role)) => {
            let count = decode(&text[2..], bytes)?;
            Ok(LineEntry::Bytes(role, count))
        }
        Some(LineForm::Mark(role)) => Ok(LineEntry::Mark(role)),
        None => Err(LineFault::BadForm),
    }
}

/// The form of a line without its CR; `None` if it has none.
#[tactic(none)]
fn form_of(text: &[u8]) -> Option<LineForm>
    ensures { IsForm text.now result }
{
    match text {
        [] | [b'#', ..] => Some(LineForm::Nothing),
        [b'C', b' ', ..] => Some(LineForm::Bytes(Role::Client)),
        [b'S', b' ', ..] => Some(LineForm::Bytes(Role::Server)),
        [b'C', b'.'] => Some(LineForm::Mark(Role::Client)),
        [b'S', b'.'] => Some(LineForm::Mark(Role::Server)),
        _ => None,
    }
}

/// Decodes the digits into the first bytes of `bytes` and returns the number of these, at least 1. The error is
/// `BadHex`; the contents of `bytes` are then unspecified.
#[tactic(none)]
fn decode(digits: &[u8], bytes: &mut [u8]) -> Result<usize, LineFault>
    requires { length digits.now ≤ 2 * length bytes.old + 1 }
    ensures { MatchResult result
        (λ count. (count ≤ length bytes.new) × IsHex digits.now (take count bytes.new))
        (λ fault. (fault ≡ BadHex) × HasNoHex digits.now) }
{
    let count = digits.len() / 2;
    if count == 0 || digits.len() % 2 != 0 {
        return Err(LineFault::BadHex);
    }
    if !decode_pairs(digits, &mut bytes[..count]) {
        return Err(LineFault::BadHex);
    }
    Ok(count)
}
