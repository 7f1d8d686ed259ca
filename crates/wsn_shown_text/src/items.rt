ghost use Rattle.std.specs.Prelude.{◌≡◌, ℕ, ◌+◌, ◌/◌, ◌≤◌, ◌++◌, [], false, IfOk, List, length};
ghost use Rattle.wsn_io.specs.Stops.{IsWrittenOrStops};
ghost use Rattle.wsn_rules.specs.Meaning.{MeantEvent};
ghost use Rattle.wsn_rules.specs.ShownStream.{Item};
ghost use Rattle.wsn_rules.specs.ShownStream.Item.{Event};
ghost use Rattle.wsn_wire.specs.declared.endpoint.Role.{Role};
ghost use Rattle.wsn_print.specs.ShownParts.{EntryPosition, position_of, IsPlaced, IsEndOf, character_in};
ghost use Rattle.wsn_print.specs.ShownParts.EntryPosition.{InStream};
ghost use Rattle.wsn_shown_text.specs.Views.{view_in};
ghost use Rattle.wsn_shown_text.specs.Views.Shown.{Hex};
ghost use Rattle.wsn_shown_text.specs.Members.{item_type};
ghost use Rattle.wsn_shown_text.specs.EntryFormats.{item_entry, item_in, open_entry, front_in};
ghost use Rattle.wsn_shown_text.specs.ShownItems.{IsItem, IsRest, evidence_in};
ghost use Rattle.wsn_shown_text.specs.declared.fields.Shape.TheVariants.{Line, Object};

use crate::characters::{put_character_fields, put_character_line};
use crate::fields::{
    ENTRY_MAX, Shape, push_event, push_frame, push_refused, push_remainder, push_unfinished,
    push_unfinished_head, remainder_word,
};
use crate::frame_lines::put_frame_line;
use crate::fronts::{push_front, put_front, put_timed_front};
use crate::line_views::put_end_text;
use crate::object_views::put_end_fields;
use crate::people::put_people;
use crate::seen::{put_seen_after, put_shown, put_view_and_end};
use crate::views::{Shown, View, view_of_bytes, view_of_end, view_of_event, view_of_unfinished};
use std::io::Write;
use wsn_io::{Output, Stop, put_line};
use wsn_print::{
    EntryFront, Format, HeldBytes, Line, Origin, PlacedEvent, Remainder, ShownCharacter,
    ShownEvent, ViewLimit,
};
use wsn_rules::{HeadInfo, Refusal};
use wsn_wire::Role;

/// An item of a stream, of which as much is held as is printed.
#[derive(Clone, Copy)]
pub enum ShownItem<'a> {
    /// A complete event.
    Event(ShownEvent<'a>),
    /// A frame, by its head.
    Frame(HeadInfo),
    /// An event that isn't complete, and the number of bytes that its last frame lacks; `None` if only a part of the
    /// next head has come.
    Unfinished(ShownEvent<'a>, Option<u64>),
    /// A part of a head, while no message is open.
    UnfinishedHead,
    /// A refusal, its evidence, and the bad character of a text that is refused for one.
    Refused(Refusal, HeldBytes<'a>, Option<ShownCharacter<'a>>),
    /// Bytes that belong to no frame.
    Remainder(Remainder, HeldBytes<'a>),
}

/// What is written of an item after its fields.
#[derive(Clone, Copy)]
pub(crate) enum Rest<'a> {
    /// Nothing: the fields include the end.
    Nothing,
    /// A view.
    Seen(View<'a>),
    /// The evidence for a refusal, and the bad character if there is one.
    Evidence(HeldBytes<'a>, Option<ShownCharacter<'a>>),
}

/// Writes an item of an endpoint's stream in a format: an entry, such as `C - 0 text 5 1 "Hello"` or
/// `S - 7 refused 11 text-bad 1007 4772fc`, for people in columns; and in lines another for the bad character of a text
/// that is refused for one. A frame's own `offset` isn't printed, but the front's. `Stop::Write` if the writer fails:
/// a prefix of the text was written.
#[inline(always)]
pub fn put_entry<W: Write>(
    to: &mut Output<W>,
    format: Format,
    view: ViewLimit,
    front: &EntryFront<'_>,
    item: &ShownItem<'_>,
) -> Result<(), Stop>
    requires { to.old.failed ≡ false }
    ensures { (shown : Item) → IsItem view front.now.offset item.now shown → IsWrittenOrStops to.old to.new
        (item_entry format view front.now.role (position_of front.now.origin) shown) result }
{
    match format {
        Format::Text => put_words(to, view, front, item),
        Format::People => put_people(to, view, front, item),
        Format::Json => put_item_in(to, Shape::Object, view, front, item),
    }
}

/// Writes an item as a line of words.
#[inline(always)]
fn put_words<W: Write>(
    to: &mut Output<W>,
    view: ViewLimit,
    front: &EntryFront<'_>,
    item: &ShownItem<'_>,
) -> Result<(), Stop>
    requires { to.old.failed ≡ false }
    ensures { (shown : Item) → IsItem view front.now.offset item.now shown → IsWrittenOrStops to.old to.new
        (item_in Line view front.now.role (position_of front.now.origin) shown) result }
{
    match item {
        ShownItem::Frame(head) => put_frame_line(to, front, head),
        _ => put_item_in(to, Shape::Line, view, front, item),
    }
}

/// Writes an item as a line of words or as an object.
#[inline(always)]
fn put_item_in<W: Write>(
    to: &mut Output<W>,
    shape: Shape,
    view: ViewLimit,
    front: &EntryFront<'_>,
    item: &ShownItem<'_>,
) -> Result<(), Stop>
    requires { to.old.failed ≡ false }
    ensures { (shown : Item) → IsItem view front.now.offset item.now shown → IsWrittenOrStops to.old to.new
        (item_in shape view front.now.role (position_of front.now.origin) shown) result }
{
    let kind = kind_of(item);
    let mut line = Line::new();
    push_front(&mut line, shape, kind, front);
    let rest = push_item(&mut line, shape, view, front.offset, item);
    put_timed_front(to, shape, kind, front)?;
    match &rest {
        Rest::Seen(shown) => put_seen_after(to, &mut line, shape, view, shown),
        _ => {
            put_line(to, line.bytes())?;
            put_rest(to, shape, view, front, &rest)
        }
    }
}

/// The type of an item.
fn kind_of(item: &ShownItem<'_>) -> &'static str
    ensures word { (n offset : ℕ) (shown : Item) → IsItem n offset item.now shown → result.now ≡ item_type shown }
    ensures short { length result.now ≤ 10 }
{
    match item {
        ShownItem::Event(_) => "event",
        ShownItem::Frame(_) => "frame",
        ShownItem::Unfinished(_, _) => "unfinished",
        ShownItem::UnfinishedHead => "unfinished",
        ShownItem::Refused(_, _, _) => "refused",
        ShownItem::Remainder(which, _) => remainder_word(*which),
    }
}

/// Appends the offset and the fields of an item, and returns what is to be written then.
#[inline(always)]
fn push_item<'a>(
    line: &mut Line<ENTRY_MAX>,
    shape: Shape,
    view: ViewLimit,
    offset: u64,
    item: &ShownItem<'a>,
) -> Rest<'a>
    requires { length line.old + 160 ≤ ENTRY_MAX }
    ensures { (shown : Item) → IsItem view offset item.now shown → (role : Role) → (position : EntryPosition) →
        (fields : List ℕ) × (rest : List ℕ) × (line.new ≡ line.old ++ fields)
        × IsRest shape view role position result rest
        × (front_in shape (item_type shown) role position ++ (fields ++ rest) ≡ item_in shape view role position shown) }
{
    match item {
        ShownItem::Event(event) => {
            push_event(line, shape, offset, event);
            Rest::Seen(view_of_event(view, event))
        }
        ShownItem::Frame(head) => {
            push_frame(line, shape, offset, head);
            Rest::Nothing
        }
        ShownItem::Unfinished(event, lacks) => {
            push_unfinished(line, shape, offset, event, *lacks);
            Rest::Seen(view_of_unfinished(view, event))
        }
        ShownItem::UnfinishedHead => {
            push_unfinished_head(line, shape, offset);
            Rest::Seen(no_bytes())
        }
        ShownItem::Refused(refusal, evidence, character) => {
            push_refused(line, shape, offset, refusal);
            Rest::Evidence(*evidence, *character)
        }
        ShownItem::Remainder(which, bytes) => {
            push_remainder(line, shape, offset, *which, bytes.bytes);
            Rest::Seen(view_of_bytes(view, bytes))
        }
    }
}

/// A view of no bytes.
pub(crate) fn no_bytes() -> View<'static>
    ensures { view_in result ≡ record { shown = Hex []; more = false } }
{
    View {
        shown: Shown::Hex(b""),
        more: false,
    }
}

/// Writes what follows the fields of an item.
#[inline(always)]
fn put_rest<W: Write>(
    to: &mut Output<W>,
    shape: Shape,
    view: ViewLimit,
    front: &EntryFront<'_>,
    rest: &Rest<'_>,
) -> Result<(), Stop>
    requires { to.old.failed ≡ false }
    ensures { (text : List ℕ) →
        IsRest shape view front.now.role (position_of front.now.origin) rest.now text →
        IsWrittenOrStops to.old to.new text result }
{
    match rest {
        Rest::Nothing => Ok(()),
        Rest::Seen(shown) => put_view_and_end(to, shape, view, shown),
        Rest::Evidence(evidence, character) => match shape {
            Shape::Line => put_evidence_text(to, view, front, evidence, character),
            Shape::Object => put_evidence_fields(to, view, evidence, character),
        },
    }
}

/// Writes the end of a refusal's line, and the line of the bad character if there is one.
fn put_evidence_text<W: Write>(
    to: &mut Output<W>,
    view: ViewLimit,
    front: &EntryFront<'_>,
    evidence: &HeldBytes<'_>,
    character: &Option<ShownCharacter<'_>>,
) -> Result<(), Stop>
    requires { to.old.failed ≡ false }
    ensures { (all : List ℕ) → IsEndOf (view / 2) all evidence.now → IsWrittenOrStops to.old to.new
        (evidence_in Line view front.now.role (position_of front.now.origin) all (character_in character.now)) result }
{
    put_end_text(to, view, &view_of_end(view, evidence))?;
    put_line(to, b"\n")?;
    match character {
        Some(character) => put_character_line(to, view, front, evidence, character),
        None => Ok(()),
    }
}

/// Writes the end of a refusal's object, with the bad character if there is one.
fn put_evidence_fields<W: Write>(
    to: &mut Output<W>,
    view: ViewLimit,
    evidence: &HeldBytes<'_>,
    character: &Option<ShownCharacter<'_>>,
) -> Result<(), Stop>
    requires { to.old.failed ≡ false }
    ensures { (all : List ℕ) (role : Role) (position : EntryPosition) → IsEndOf (view / 2) all evidence.now →
        IsWrittenOrStops to.old to.new (evidence_in Object view role position all (character_in character.now)) result }
{
    put_end_fields(to, &view_of_end(view, evidence))?;
    put_character_fields(to, view, evidence, character)?;
    put_line(to, b"}\n")
}

/// Writes an event of a stream without its end.
pub(crate) fn put_placed<W: Write>(
    to: &mut Output<W>,
    shape: Shape,
    view: ViewLimit,
    role: Role,
    placed: &PlacedEvent<'_>,
) -> Result<(), Stop>
    requires { to.old.failed ≡ false }
    ensures text { (offset : ℕ) (event : MeantEvent) (frames : ℕ) → IsPlaced view placed.now offset event frames →
        IsWrittenOrStops to.old to.new (open_entry shape view role InStream (Event offset event frames)) result }
    ensures unfailed { IfOk result (λ done. to.new.failed ≡ false) }
{
    let front = EntryFront {
        role,
        origin: Origin::Stream,
        offset: placed.offset,
    };
    let mut line = Line::new();
    push_event(&mut line, shape, placed.offset, &placed.event);
    put_front(to, shape, "event", &front)?;
    put_line(to, line.bytes())?;
    put_shown(to, shape, view, &view_of_event(view, &placed.event))
}
