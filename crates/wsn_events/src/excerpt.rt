ghost use Rattle.std.specs.Prelude.{◌≡◌, ℕ, ◌<◌, ◌≤◌, ◌^◌, length, take};
ghost use Rattle.wsn_rules.specs.LawfulEvents.{IsLawfulEvent};
ghost use Rattle.wsn_rules.specs.Meaning.{MeantEvent, Message};
ghost use Rattle.wsn_events.specs.EventsMeant.{meant};

use crate::event::Event;
use crate::normal_form::{control_of, op_of};
use arrayvec::ArrayVec;
use std::alloc::Allocator;
use wsn_print::{PlacedEvent, ShownEvent};
use wsn_wire::{Kind, Op};

/// The most bytes of a payload that an [`Excerpt`] has.
const EXCERPT_MAX: usize = 4_096;

/// What is kept of an event to show it: where it is in its stream, and its first 4,096 bytes.
#[derive(Drop)]
pub struct Excerpt {
    /// The offset of its first frame.
    offset: u64,
    /// The number of its frames.
    frames: u64,
    /// Its opcode.
    op: Op,
    /// The number of bytes of its payload.
    bytes: u64,
    /// The first of them.
    held: ArrayVec<u8, EXCERPT_MAX>,
}

impl Excerpt {
    ghost use Rattle.wsn_print.specs.ShownParts.{IsPlaced};
    ghost use Rattle.wsn_events.specs.Excerpts.{IsExcerptOf, HasPayload};

    /// What is kept of an event with this number of frames, the first of them at this offset.
    pub(crate) fn new<A: Allocator>(event: &Event<A>, offset: u64, frames: u64) -> Excerpt
        requires { IsLawfulEvent (meant event.now) }
        ensures { IsExcerptOf result offset (meant event.now) frames }
    {
        match event {
            Event::Message(kind, text) => Excerpt::of_message(*kind, text, offset, frames),
            Event::Ping(_) | Event::Pong(_) | Event::Close(_) => {
                let (op, body) = control_of(event);
                Excerpt::of_payload(op, &body, offset, frames)
            }
        }
    }

    /// What is kept of a message.
    pub(crate) fn of_message(kind: Kind, text: &[u8], offset: u64, frames: u64) -> Excerpt
        requires size { length text.now < 2 ^ 63 }
        requires lawful { IsLawfulEvent (Message kind text.now) }
        ensures { IsExcerptOf result offset (Message kind text.now) frames }
    {
        Excerpt::of_payload(op_of(kind), text, offset, frames)
    }

    fn of_payload(op: Op, payload: &[u8], offset: u64, frames: u64) -> Excerpt
        requires { length payload.now < 2 ^ 63 }
        ensures payload { HasPayload result op payload.now }
        ensures offset { result.offset ≡ offset }
        ensures frames { result.frames ≡ frames }
    {
        let mut held = ArrayVec::new();
        let _fits = held.try_extend_from_slice(&payload[..payload.len().min(EXCERPT_MAX)]);
        Excerpt {
            offset,
            frames,
            op,
            bytes: payload.len() as u64,
            held,
        }
    }

    /// The event as it is printed, for each view.
    pub(crate) fn placed(&self) -> PlacedEvent<'_>
        ensures { (n offset : ℕ) (event : MeantEvent) (frames : ℕ) → n ≤ 4096 →
            IsExcerptOf self.now offset event frames → IsPlaced n result offset event frames }
    {
        PlacedEvent {
            offset: self.offset,
            event: ShownEvent {
                op: self.op,
                bytes: self.bytes,
                frames: self.frames,
                held: self.held.as_slice(),
            },
        }
    }
}
