ghost use Rattle.std.specs.Prelude.{◌≡◌, ℕ, ◌-◌, ◌/◌, nat_lt, List, take, drop, length};
ghost use Rattle.wsn_text.specs.Utf8.{BeginsText};
ghost use Rattle.wsn_rules.specs.Meaning.{MeantEvent};
ghost use Rattle.wsn_print.specs.DifferingPayloads.{IsPartOf};
ghost use Rattle.wsn_print.specs.ShownParts.{Represents, HasText, HasTextPayload, IsFrontOf, IsEndOf, text_part};
ghost use Rattle.wsn_shown_text.specs.CharacterText.{first_characters};
ghost use Rattle.wsn_shown_text.specs.Views.{view_of_text, view_of_bytes, view_of_end, is_printable, view_of_body, view_of_close, view_of_event, view_of_unfinished, view_of_part, view_in, end_in};
ghost use Rattle.wsn_shown_text.specs.Views.Shown.{Ascii, Hex, NoCode};

use wsn_print::{HeldBytes, PayloadPart, ShownEvent, ViewLimit};
use wsn_text::whole_characters;
use wsn_wire::Op;

/// What is shown of a payload, whatever the format.
#[derive(Clone, Copy)]
pub(crate) enum Shown<'a> {
    /// The first bytes of a text, which are whole characters.
    Text(&'a [u8]),
    /// A text, of which only printable ASCII characters are shown as they are.
    Ascii(&'a str),
    /// Bytes in hexadecimal.
    Hex(&'a [u8]),
    /// A Close's code and reason.
    Code(u16, &'a [u8]),
    /// That a Close has no code, or none that is shown.
    NoCode,
}

/// What is shown of a payload, and whether there is more.
#[derive(Clone, Copy)]
pub(crate) struct View<'a> {
    /// What is shown.
    pub(crate) shown: Shown<'a>,
    /// Whether there is more.
    pub(crate) more: bool,
}

/// The last bytes of some, and whether there are more before them.
#[derive(Clone, Copy)]
pub(crate) struct Ending<'a> {
    /// The bytes.
    pub(crate) bytes: &'a [u8],
    /// Whether there are more.
    pub(crate) more: bool,
}

/// What is shown of a complete event's payload.
#[inline(always)]
pub(crate) fn view_of_event<'a>(view: ViewLimit, event: &ShownEvent<'a>) -> View<'a>
    ensures { (e : MeantEvent) → Represents view event.now e → HasText e → view_in result ≡ view_of_event view e }
{
    match event.op {
        Op::Text => view_of_text(view, &payload_of(event)),
        Op::Binary => view_of_bytes(view, &payload_of(event)),
        Op::Close => view_of_close(view, event.held),
        Op::Continue | Op::Ping | Op::Pong => view_of_body(view, event.held),
    }
}

/// What is shown of the payload of an event that isn't complete.
pub(crate) fn view_of_unfinished<'a>(view: ViewLimit, event: &ShownEvent<'a>) -> View<'a>
    ensures { (e : MeantEvent) → Represents view event.now e → HasTextPayload e →
        view_in result ≡ view_of_unfinished view e }
{
    match event.op {
        Op::Text => view_of_text(view, &payload_of(event)),
        _ => view_of_bytes(view, &payload_of(event)),
    }
}

/// The payload of an event, as far as it is held.
#[inline(always)]
fn payload_of<'a>(event: &ShownEvent<'a>) -> HeldBytes<'a>
    ensures bytes { result.bytes ≡ event.now.bytes }
    ensures held { result.held.now ≡ event.now.held.now }
{
    HeldBytes {
        bytes: event.bytes,
        held: event.held,
    }
}

/// A text's first bytes.
#[inline(always)]
fn view_of_text<'a>(view: ViewLimit, text: &HeldBytes<'a>) -> View<'a>
    ensures { (all : List ℕ) → IsFrontOf view all text.now → BeginsText all → view_in result ≡ view_of_text view all }
{
    let shown = whole_characters(front_of(text.held, view.bytes()));
    View {
        shown: Shown::Text(shown),
        more: (shown.len() as u64) < text.bytes,
    }
}

/// The first bytes, half as many as of a text.
pub(crate) fn view_of_bytes<'a>(view: ViewLimit, bytes: &HeldBytes<'a>) -> View<'a>
    ensures { (all : List ℕ) → IsFrontOf (view / 2) all bytes.now → view_in result ≡ view_of_bytes view all }
{
    first_bytes(view.bytes() / 2, bytes)
}

/// The last bytes, half as many as of a text.
pub(crate) fn view_of_end<'a>(view: ViewLimit, bytes: &HeldBytes<'a>) -> Ending<'a>
    ensures { (all : List ℕ) → IsEndOf (view / 2) all bytes.now → end_in result ≡ view_of_end view all }
{
    let most = view.bytes() / 2;
    Ending {
        bytes: end_of(bytes.held, most),
        more: (most as u64) < bytes.bytes,
    }
}

/// A ping's or pong's body: a text if all of it is printable.
fn view_of_body<'a>(view: ViewLimit, body: &'a [u8]) -> View<'a>
    ensures { view_in result ≡ view_of_body view body.now }
{
    let whole = HeldBytes {
        bytes: body.len() as u64,
        held: body,
    };
    if is_printable(body) {
        view_of_text(view, &whole)
    } else {
        view_of_bytes(view, &whole)
    }
}

/// A Close's code and reason.
#[tactic(none)]
fn view_of_close<'a>(view: ViewLimit, body: &'a [u8]) -> View<'a>
    ensures { view_in result ≡ view_of_close view body.now }
{
    if body.len() < 2 {
        return no_code(false);
    }
    if view.bytes() == 0 {
        return no_code(true);
    }
    let code = u16::from(body[0]) * 256 + u16::from(body[1]);
    View {
        shown: Shown::Code(code, &body[2..]),
        more: false,
    }
}

fn no_code<'a>(more: bool) -> View<'a>
    ensures { view_in result ≡ record { shown = NoCode; more = more } }
{
    View {
        shown: Shown::NoCode,
        more,
    }
}

/// What is shown of a payload around a place.
#[tactic(none)]
pub(crate) fn view_of_part<'a>(view: ViewLimit, part: &PayloadPart<'a>) -> View<'a>
    ensures { (place : ℕ) (event : MeantEvent) → IsPartOf view place part.now event →
        view_in result ≡ view_of_part view place event }
{
    let before = usize::from(part.before);
    if part.is_text {
        ascii_part(before + view.bytes(), &part.bytes)
    } else {
        first_bytes(before + view.bytes() / 2, &part.bytes)
    }
}

/// The whole characters of the first bytes, at most `most`.
fn ascii_part<'a>(most: usize, bytes: &HeldBytes<'a>) -> View<'a>
    ensures { (all : List ℕ) → IsFrontOf most all bytes.now → view_in result ≡
        record { shown = Ascii (take (text_part most all) all); more = nat_lt (text_part most all) (length all) } }
{
    let shown = first_characters(front_of(bytes.held, most));
    View {
        shown: Shown::Ascii(shown),
        more: (shown.len() as u64) < bytes.bytes,
    }
}

/// The first bytes, at most `most`.
fn first_bytes<'a>(most: usize, bytes: &HeldBytes<'a>) -> View<'a>
    ensures { (all : List ℕ) → IsFrontOf most all bytes.now →
        view_in result ≡ record { shown = Hex (take most all); more = nat_lt most (length all) } }
{
    View {
        shown: Shown::Hex(front_of(bytes.held, most)),
        more: (most as u64) < bytes.bytes,
    }
}

/// Whether all bytes are printable ASCII characters.
#[tactic(none)]
fn is_printable(bytes: &[u8]) -> bool
    ensures { result ≡ is_printable bytes.now }
{
    for b in bytes {
        if !matches!(b, b' '..=b'~') {
            return false;
        }
    }
    true
}

/// The whole characters with which bytes begin.
#[tactic(none)]
pub(crate) fn first_characters(bytes: &[u8]) -> &str
    ensures { result.now ≡ first_characters bytes.now }
{
    match bytes.utf8_chunks().next() {
        Some(chunk) => chunk.valid(),
        None => "",
    }
}

/// The first bytes, at most `most`.
pub(crate) fn front_of(bytes: &[u8], most: usize) -> &[u8]
    ensures { result.now ≡ take most bytes.now }
{
    if bytes.len() <= most {
        bytes
    } else {
        &bytes[..most]
    }
}

/// The last bytes, at most `most`.
#[tactic(none)]
pub(crate) fn end_of(bytes: &[u8], most: usize) -> &[u8]
    ensures { result.now ≡ drop (length bytes.now - most) bytes.now }
{
    if bytes.len() <= most {
        bytes
    } else {
        &bytes[bytes.len() - most..]
    }
}
