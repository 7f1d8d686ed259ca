//! Entries for people, in columns with least widths.
ghost use Rattle.std.specs.Prelude.{◌≡◌, ℕ, ◌/◌, ◌++◌, [], false, List, codes};
ghost use Rattle.wsn_io.specs.Stops.{IsWrittenOrStops};
ghost use Rattle.wsn_rules.specs.ShownStream.{Item};
ghost use Rattle.wsn_print.specs.ShownParts.{position_of, IsEndOf, character_in};
ghost use Rattle.wsn_shown_text.specs.Views.{view_in, view_of_end};
ghost use Rattle.wsn_shown_text.specs.PeopleText.{right, arrow, time_column, people_front, people_view, people_end, people_bad, people_rest, people_line, people_end_line};
ghost use Rattle.wsn_shown_text.specs.ShownItems.{IsItem, IsPeopleRest};

use crate::items::{Rest, ShownItem, no_bytes};
use crate::people_columns::{
    PEOPLE_MAX, padding, push_end_mark, push_event, push_frame, push_refused, push_remainder,
    push_unfinished, push_unfinished_head,
};
use crate::people_views::{put_people_bad, put_people_end, put_people_view};
use crate::views::{View, view_of_bytes, view_of_end, view_of_event, view_of_unfinished};
use std::io::Write;
use wsn_io::{Output, Stop, put_line};
use wsn_print::{EntryFront, HeldBytes, Line, Origin, ShownCharacter, ViewLimit};
use wsn_wire::Role;

/// Writes an item of an endpoint's stream for people: side and time, offset, word and size in columns, then the rest; a
/// refusal as a sentence, and a bad character in a line after it.
#[inline(never)]
pub(crate) fn put_people<W: Write>(
    to: &mut Output<W>,
    view: ViewLimit,
    front: &EntryFront<'_>,
    item: &ShownItem<'_>,
) -> Result<(), Stop>
    requires { to.old.failed ≡ false }
    ensures { (shown : Item) → IsItem view front.now.offset item.now shown → IsWrittenOrStops to.old to.new
        (people_line view front.now.role (position_of front.now.origin) shown) result }
{
    let mut line = Line::new();
    let rest = push_item(&mut line, view, front.offset, item);
    put_front(to, front)?;
    put_line(to, line.bytes())?;
    put_rest(to, view, &rest)
}

/// Writes an endpoint's end mark for people.
pub(crate) fn put_people_end_mark<W: Write>(
    to: &mut Output<W>,
    front: &EntryFront<'_>,
) -> Result<(), Stop>
    requires { to.old.failed ≡ false }
    ensures { IsWrittenOrStops to.old to.new
        (people_end_line front.now.role (position_of front.now.origin) front.now.offset) result }
{
    let mut line = Line::<PEOPLE_MAX>::new();
    push_end_mark(&mut line, front.offset);
    put_front(to, front)?;
    put_line(to, line.bytes())
}

/// Appends what is in front of an item's view or evidence to an empty line, and returns what is to be written then.
fn push_item<'a>(
    line: &mut Line<PEOPLE_MAX>,
    view: ViewLimit,
    offset: u64,
    item: &ShownItem<'a>,
) -> Rest<'a>
    requires { line.old ≡ [] }
    ensures { (shown : Item) → IsItem view offset item.now shown →
        (rest : List ℕ) × IsPeopleRest view result rest × (line.new ++ rest ≡ people_rest view shown) }
{
    match item {
        ShownItem::Event(event) => {
            push_event(line, offset, event);
            Rest::Seen(view_of_event(view, event))
        }
        ShownItem::Frame(head) => {
            push_frame(line, offset, head);
            Rest::Nothing
        }
        ShownItem::Unfinished(event, lacks) => {
            push_unfinished(line, offset, event, *lacks);
            Rest::Seen(view_of_unfinished(view, event))
        }
        ShownItem::UnfinishedHead => {
            push_unfinished_head(line, offset);
            Rest::Seen(no_bytes())
        }
        ShownItem::Refused(refusal, evidence, character) => {
            push_refused(line, offset, refusal);
            Rest::Evidence(*evidence, *character)
        }
        ShownItem::Remainder(which, bytes) => {
            push_remainder(line, offset, *which, bytes.bytes);
            Rest::Seen(view_of_bytes(view, bytes))
        }
    }
}

/// Writes which endpoint an entry is about, and when.
fn put_front<W: Write>(to: &mut Output<W>, front: &EntryFront<'_>) -> Result<(), Stop>
    requires { to.old.failed ≡ false }
    ensures { IsWrittenOrStops to.old to.new
        (people_front front.now.role (position_of front.now.origin)) result }
{
    put_line(to, arrow_of(front.role))?;
    put_time(to, &front.origin)
}

fn arrow_of(role: Role) -> &'static [u8]
    ensures { result.now ≡ arrow role }
{
    match role {
        Role::Client => b"client \xe2\x86\x92 ",
        Role::Server => b"server \xe2\x86\x92 ",
    }
}

/// Writes the column of the time; none in a stream without a capture.
fn put_time<W: Write>(to: &mut Output<W>, origin: &Origin<'_>) -> Result<(), Stop>
    requires { to.old.failed ≡ false }
    ensures { IsWrittenOrStops to.old to.new (time_column (position_of origin.now)) result }
{
    match origin {
        Origin::Line { time, .. } | Origin::End { time } => put_right(to, time.unwrap_or(b"-")),
        Origin::Stream => Ok(()),
    }
}

/// Writes a text at the right of its column.
fn put_right<W: Write>(to: &mut Output<W>, text: &[u8]) -> Result<(), Stop>
    requires { to.old.failed ≡ false }
    ensures { IsWrittenOrStops to.old to.new (right 10 text.now) result }
{
    put_line(to, padding(text.len()))?;
    put_line(to, text)
}

/// Writes what follows the columns of an item.
fn put_rest<W: Write>(to: &mut Output<W>, view: ViewLimit, rest: &Rest<'_>) -> Result<(), Stop>
    requires { to.old.failed ≡ false }
    ensures { (text : List ℕ) → IsPeopleRest view rest.now text → IsWrittenOrStops to.old to.new text result }
{
    match rest {
        Rest::Nothing => Ok(()),
        Rest::Seen(shown) => put_view_and_end(to, view, shown),
        Rest::Evidence(evidence, character) => put_evidence(to, view, evidence, character),
    }
}

fn put_view_and_end<W: Write>(
    to: &mut Output<W>,
    view: ViewLimit,
    shown: &View<'_>,
) -> Result<(), Stop>
    requires { to.old.failed ≡ false }
    ensures { IsWrittenOrStops to.old to.new (people_view view (view_in shown.now) ++ codes "\n") result }
{
    put_people_view(to, view, shown)?;
    put_line(to, b"\n")
}

/// Writes the evidence for a refusal, and the line of a bad character if there is one.
fn put_evidence<W: Write>(
    to: &mut Output<W>,
    view: ViewLimit,
    evidence: &HeldBytes<'_>,
    character: &Option<ShownCharacter<'_>>,
) -> Result<(), Stop>
    requires { to.old.failed ≡ false }
    ensures { (all : List ℕ) → IsEndOf (view / 2) all evidence.now → IsWrittenOrStops to.old to.new
        (people_end view (view_of_end view all) ++ people_bad view all (character_in character.now) ++ codes "\n") result }
{
    put_people_end(to, view, &view_of_end(view, evidence))?;
    put_people_bad(to, view, evidence, character)?;
    put_line(to, b"\n")
}
