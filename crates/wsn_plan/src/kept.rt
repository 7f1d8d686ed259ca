ghost use Rattle.std.specs.Prelude.{◌≡◌, ◌++◌, IfSome};
ghost use Rattle.std.specs.Int.{to_be_bytes, w16};
ghost use Rattle.wsn_rules.specs.Meaning as meant_event;
ghost use Rattle.wsn_events.specs.EventsMeant.{meant};
ghost use Rattle.wsn_plan.specs.Gathering.{kept_meant};

use std::alloc::Allocator;
use wsn_events::Event;
use wsn_wire::{Kind, Op};

/// An event that is kept until the whole input is read: 40 bytes beside its payload, where an [`Event`] has room for the
/// largest body of a control.
#[derive(Drop)]
pub(crate) enum Kept<A: Allocator> {
    /// A message: its kind and its bytes.
    Message(Kind, Vec<u8, A>),
    /// A control: its opcode and its body.
    Control(Op, Vec<u8, A>),
}

/// The event, to be kept; `None` if an allocation fails. An empty body needs no memory.
pub(crate) fn to_keep<A: Allocator, B: Allocator>(room: B, event: &Event<A>) -> Option<Kept<B>>
    ensures { IfSome result (λ kept. kept_meant kept ≡ meant event.now) }
{
    match event {
        Event::Message(kind, text) => Some(Kept::Message(*kind, copy_of(room, text)?)),
        Event::Ping(body) => control(room, Op::Ping, body),
        Event::Pong(body) => control(room, Op::Pong, body),
        Event::Close(None) => control(room, Op::Close, &[]),
        Event::Close(Some((code, reason))) => close(room, *code, reason),
    }
}

/// A control with this body.
fn control<A: Allocator>(alloc: A, op: Op, body: &[u8]) -> Option<Kept<A>>
    ensures { IfSome result (λ kept. kept_meant kept ≡ meant_event.Control op body.now) }
{
    let body = copy_of(alloc, body)?;
    Some(Kept::Control(op, body))
}

/// A Close with this code and this reason (RFC 6455 section 5.5.1).
fn close<A: Allocator>(alloc: A, code: u16, reason: &[u8]) -> Option<Kept<A>>
    ensures { IfSome result (λ kept. kept_meant kept ≡ meant_event.Control Op.Close (to_be_bytes w16 code ++ reason.now)) }
{
    let mut body = code.to_be_bytes().to_vec(alloc).ok()?;
    body.extend_from_slice(reason).ok()?;
    Some(Kept::Control(Op::Close, body))
}

/// A copy of the bytes in exact room; `None` if an allocation fails. No bytes need no memory.
#[inline(always)]
pub(crate) fn copy_of<A: Allocator>(room: A, bytes: &[u8]) -> Option<Vec<u8, A>>
    ensures { IfSome result (λ copy. copy.items ≡ bytes.now) }
{
    let mut copy = Vec::with_capacity(room, bytes.len()).ok()?;
    copy.extend_from_slice(bytes).ok()?;
    Some(copy)
}
