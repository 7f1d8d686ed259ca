//! What an entry for people shows of a payload, and of the evidence for a refusal.
ghost use Rattle.std.specs.Prelude.{◌≡◌, ℕ, ◌+◌, ◌/◌, ◌≤◌, ◌++◌, [], if◌then◌else◌, List, Some, false, IfOk, codes, length};
ghost use Rattle.wsn_io.specs.Stops.{IsWrittenOrStops};
ghost use Rattle.wsn_print.specs.ShownParts.{IsEndOf, character_of, character_in};
ghost use Rattle.wsn_shown_text.specs.PeopleText.{people_reason, people_shown, people_seen, people_view, people_end, place_text, place_after, people_character, people_bad};
ghost use Rattle.wsn_shown_text.specs.Views.{EndView, view_in, shown_in, end_in};
ghost use Rattle.wsn_shown_text.specs.Views.Shown.{Code};

use crate::characters::{end_of_text, text_before};
use crate::line_views::{is_hidden, line_of_code, put_end_text, put_hex, put_hex_text, put_if};
use crate::views::{Ending, Shown, View};
use std::io::Write;
use wsn_io::{Output, Stop, put_line};
use wsn_print::{HeldBytes, Line, ShownCharacter, ViewLimit, put_comment_text};

/// The space for a place in a payload, and the words around it, in bytes.
const PLACE_MAX: usize = 60;

/// The line feed and the spaces in front of a bad character.
const INDENT: &[u8] = b"\n                                ";

/// Writes a view; a dash if it has 0 bytes, and there is more.
pub(crate) fn put_people_view<W: Write>(
    to: &mut Output<W>,
    limit: ViewLimit,
    view: &View<'_>,
) -> Result<(), Stop>
    requires { to.old.failed ≡ false }
    ensures { IsWrittenOrStops to.old to.new (people_view limit (view_in view.now)) result }
{
    if is_hidden(limit, view.more) {
        put_line(to, b"-")
    } else {
        put_people_seen(to, view)
    }
}

/// Writes what is shown, and ` ..` if there is more.
fn put_people_seen<W: Write>(to: &mut Output<W>, view: &View<'_>) -> Result<(), Stop>
    requires { to.old.failed ≡ false }
    ensures { IsWrittenOrStops to.old to.new (people_seen (view_in view.now)) result }
{
    put_people_shown(to, &view.shown)?;
    put_if(to, view.more, b" ..")
}

/// Writes a text as it is, and bytes in hexadecimal.
fn put_people_shown<W: Write>(to: &mut Output<W>, shown: &Shown<'_>) -> Result<(), Stop>
    requires { to.old.failed ≡ false }
    ensures { IsWrittenOrStops to.old to.new (people_shown (shown_in shown.now)) result }
{
    match *shown {
        Shown::Text(text) => put_comment_text(to, text),
        Shown::Ascii(text) => put_comment_text(to, text.as_bytes()),
        Shown::Hex(bytes) => put_hex_text(to, bytes),
        Shown::Code(code, reason) => put_people_code(to, code, reason),
        Shown::NoCode => put_line(to, b"-"),
    }
}

/// Writes a Close's code, and its reason after a space.
fn put_people_code<W: Write>(to: &mut Output<W>, code: u16, reason: &[u8]) -> Result<(), Stop>
    requires { to.old.failed ≡ false }
    ensures { IsWrittenOrStops to.old to.new (people_shown (Code code reason.now)) result }
{
    put_line(to, line_of_code(code).bytes())?;
    put_people_reason(to, reason)
}

fn put_people_reason<W: Write>(to: &mut Output<W>, reason: &[u8]) -> Result<(), Stop>
    requires { to.old.failed ≡ false }
    ensures { IsWrittenOrStops to.old to.new (people_reason reason.now) result }
{
    if reason.is_empty() {
        return Ok(());
    }
    put_line(to, b" ")?;
    put_comment_text(to, reason)
}

/// Writes the last bytes of the evidence for a refusal; nothing if the view has 0 bytes.
pub(crate) fn put_people_end<W: Write>(
    to: &mut Output<W>,
    limit: ViewLimit,
    end: &Ending<'_>,
) -> Result<(), Stop>
    requires { to.old.failed ≡ false }
    ensures { (e : EndView) → end_in end.now ≡ e → IsWrittenOrStops to.old to.new (people_end limit e) result }
{
    if limit.bytes() == 0 {
        return Ok(());
    }
    put_line(to, b"  ")?;
    put_end_text(to, limit, end)
}

/// Writes the line of a bad character, without the LF at its end, after a line that has none; nothing for none.
pub(crate) fn put_people_bad<W: Write>(
    to: &mut Output<W>,
    limit: ViewLimit,
    evidence: &HeldBytes<'_>,
    character: &Option<ShownCharacter<'_>>,
) -> Result<(), Stop>
    requires { to.old.failed ≡ false }
    ensures text { (all : List ℕ) → IsEndOf (limit / 2) all evidence.now →
        IsWrittenOrStops to.old to.new (people_bad limit all (character_in character.now)) result }
    ensures unfailed { IfOk result (λ done. to.new.failed ≡ false) }
{
    match character {
        Some(character) => put_bad(to, limit, evidence, character),
        None => Ok(()),
    }
}

fn put_bad<W: Write>(
    to: &mut Output<W>,
    limit: ViewLimit,
    evidence: &HeldBytes<'_>,
    character: &ShownCharacter<'_>,
) -> Result<(), Stop>
    requires { to.old.failed ≡ false }
    ensures text { (all : List ℕ) → IsEndOf (limit / 2) all evidence.now →
        IsWrittenOrStops to.old to.new (people_bad limit all (Some (character_of character.now))) result }
    ensures unfailed { IfOk result (λ done. to.new.failed ≡ false) }
{
    put_line(to, INDENT)?;
    put_people_character(to, limit, evidence, character)
}

/// Writes where a bad character is in the payload, and unless the view has 0 bytes its bytes and the text in front of it.
fn put_people_character<W: Write>(
    to: &mut Output<W>,
    limit: ViewLimit,
    evidence: &HeldBytes<'_>,
    character: &ShownCharacter<'_>,
) -> Result<(), Stop>
    requires { to.old.failed ≡ false }
    ensures text { (all : List ℕ) → IsEndOf (limit / 2) all evidence.now →
        IsWrittenOrStops to.old to.new (people_character limit all (character_of character.now)) result }
    ensures unfailed { IfOk result (λ done. to.new.failed ≡ false) }
{
    if limit.bytes() == 0 {
        return put_line(to, line_of_unseen(character.in_payload).bytes());
    }
    let end = end_of_text(limit, evidence, character);
    let before = text_before(end.as_slice(), character);
    let more = (before.len() as u64) < character.in_payload;
    put_line(to, b"bad character ")?;
    put_hex(to, character.bytes)?;
    put_line(to, line_of_seen(character.in_payload, more).bytes())?;
    put_comment_text(to, before.as_bytes())?;
    put_line(to, b"\"")
}

fn line_of_unseen(in_payload: u64) -> Line<PLACE_MAX>
    ensures { result ≡ codes "bad character" ++ place_text in_payload }
{
    let mut line = Line::new();
    line.push("bad character");
    push_place(&mut line, in_payload);
    line
}

fn line_of_seen(in_payload: u64, more: bool) -> Line<PLACE_MAX>
    ensures { result ≡ place_after in_payload more }
{
    let mut line = Line::new();
    push_place(&mut line, in_payload);
    line.push(", after ");
    line.push(opening_of(more));
    line
}

/// What is in front of a text, of which there may be more before.
fn opening_of(more: bool) -> &'static str
    ensures text { result.now ≡ (if more then codes ".." else []) ++ codes "\"" }
    ensures short { length result.now ≤ 3 }
{
    if more { "..\"" } else { "\"" }
}

fn push_place(line: &mut Line<PLACE_MAX>, in_payload: u64)
    requires { length line.old + 39 ≤ PLACE_MAX }
    ensures text { line.new ≡ line.old ++ place_text in_payload }
    ensures len { length line.new ≤ length line.old + 39 }
{
    line.push(" at ");
    line.push_number(in_payload);
    line.push(" of the payload");
}
