ghost use Rattle.std.specs.Prelude.{◌≡◌, ◌≢◌, ◌<◌, ◌≤◌, ◌^◌, ◌↔◌, ◌++◌, length, IsTrue};
ghost use Rattle.std.specs.Int.{to_be_bytes, w16};
ghost use Rattle.wsn_text.specs.Utf8.{IsText};
ghost use Rattle.wsn_rules.specs.Meaning.{Message, Control};
ghost use Rattle.wsn_rules.specs.LawfulEvents.{IsLawfulEvent, IsLawfulMessage, IsLawfulControl};
ghost use Rattle.wsn_events.specs.EventsMeant.{meant, close_body};

use arrayvec::ArrayVec;
use std::alloc::{Allocator, Global};
use wsn_text::{Utf8, code_allowed};
use wsn_wire::{CONTROL_MAX, Kind, Op};

/// The body of a control frame, or a Close's reason, in bytes (RFC 6455 section 5.5).
pub type Small = ArrayVec<u8, CONTROL_MAX>;

/// What a final frame ends: a message, a ping, a pong, or the close (RFC 6455 sections 5.4 to 5.6).
#[derive(Debug, Drop)]
pub enum Event<A: Allocator = Global> {
    /// A whole message, however it was fragmented: its kind and its bytes.
    Message(Kind, Vec<u8, A>),
    /// A ping with this body.
    Ping(Small),
    /// A pong with this body.
    Pong(Small),
    /// The close: its code and reason, if its body isn't empty.
    Close(Option<(u16, Small)>),
}

impl<A: Allocator> Event<A> {
    /// The event of a control frame with this body (RFC 6455 section 5.5).
    pub(crate) fn control(op: Op, body: Small) -> Event<A>
        requires { IsLawfulControl op body.items }
        ensures { meant result ≡ Control op body.items }
    {
        match op {
            Op::Ping => Event::Ping(body),
            Op::Pong => Event::Pong(body),
            _ => Event::Close(code_and_reason(&body)),
        }
    }
}

/// The code and reason in a Close's body; `None` if it is empty (RFC 6455 section 5.5.1).
fn code_and_reason(body: &[u8]) -> Option<(u16, Small)>
    requires whole { length body.now ≢ 1 }
    requires small { length body.now ≤ 125 }
    ensures { close_body result ≡ body.now }
{
    let (code, rest) = body.split_first_chunk::<2>()?;
    let mut reason = Small::new();
    let _fits = reason.try_extend_from_slice(rest);
    Some((u16::from_be_bytes(*code), reason))
}

/// Whether a stream can mean this event. A text message must be UTF-8, and a ping or pong has at most 125 bytes. A
/// Close must be empty, or have a code that a Close may carry and a reason that is UTF-8 of at most 123 bytes (RFC 6455
/// sections 5.5, 5.6, 7.4 and 8.1).
pub fn is_lawful<A: Allocator>(event: &Event<A>) -> bool
    ensures { IsTrue result ↔ IsLawfulEvent (meant event.now) }
{
    match event {
        Event::Message(kind, text) => may_say(*kind, text),
        Event::Ping(body) => may_echo(body),
        Event::Pong(body) => may_echo(body),
        Event::Close(None) => true,
        Event::Close(Some((code, reason))) => may_close(*code, reason),
    }
}

/// Whether a message of this kind may have these bytes (RFC 6455 section 5.6).
fn may_say(kind: Kind, bytes: &[u8]) -> bool
    requires { length bytes.now < 2 ^ 63 }
    ensures { IsTrue result ↔ IsLawfulMessage kind bytes.now }
{
    match kind {
        Kind::Text => is_text(bytes),
        Kind::Binary => true,
    }
}

/// Whether a ping or a pong may have this body.
fn may_echo(body: &[u8]) -> bool
    ensures ping { IsTrue result ↔ IsLawfulControl Op.Ping body.now }
    ensures pong { IsTrue result ↔ IsLawfulControl Op.Pong body.now }
{
    body.len() <= CONTROL_MAX
}

/// Whether a Close may have this code and this reason.
fn may_close(code: u16, reason: &[u8]) -> bool
    ensures { IsTrue result ↔ IsLawfulControl Op.Close (to_be_bytes w16 code ++ reason.now) }
{
    reason.len() <= 123 && code_allowed(code) && is_text(reason)
}

fn is_text(bytes: &[u8]) -> bool
    ensures { IsTrue result ↔ IsText bytes.now }
{
    let mut utf8 = Utf8::new();
    utf8.feed(bytes).is_ok() && utf8.is_whole()
}

/// Whether two events are equal, whatever their allocators are.
#[tactic(none)]
pub(crate) fn is_same<A: Allocator, B: Allocator>(one: &Event<A>, other: &Event<B>) -> bool
    ensures { IsTrue result ↔ (meant one.now ≡ meant other.now) }
{
    match (one, other) {
        (Event::Message(kind, text), Event::Message(other_kind, other_text)) => {
            kind == other_kind && text.as_slice() == other_text.as_slice()
        }
        (Event::Ping(body), Event::Ping(other_body)) => body == other_body,
        (Event::Pong(body), Event::Pong(other_body)) => body == other_body,
        (Event::Close(None), Event::Close(None)) => true,
        (Event::Close(Some((code, reason))), Event::Close(Some((other_code, other_reason)))) => {
            code == other_code && reason == other_reason
        }
        _ => false,
    }
}

/// Whether the event is this message.
pub(crate) fn is_message<A: Allocator>(event: &Event<A>, kind: Kind, text: &[u8]) -> bool
    ensures { IsTrue result ↔ (meant event.now ≡ Message kind text.now) }
{
    match event {
        Event::Message(own_kind, own_text) => *own_kind == kind && own_text.as_slice() == text,
        Event::Ping(_) | Event::Pong(_) | Event::Close(_) => false,
    }
}
