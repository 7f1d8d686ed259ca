ghost use Rattle.std.specs.Prelude.{◌≡◌};
ghost use Rattle.wsn_rules.specs.Meaning.{Control, payload_in};
ghost use Rattle.wsn_print.specs.DifferingPayloads.{is_text};
ghost use Rattle.wsn_events.specs.EventsMeant.{meant};
ghost use Rattle.wsn_events.specs.PayloadExcerpts.{meant_payload, meant_payloads, event_given};
ghost use Rattle.wsn_events.specs.Turns.{IsLawfulTurn, meant_last};

use crate::event::{Event, Small};
use crate::normal_form::control_of;
use crate::source::Next;
use crate::turn::{LastTurn, Turn};
use std::alloc::Allocator;
use wsn_wire::{Kind, Op};

/// The payload of an event: a message's where it is held, or a copy of a control's body.
#[derive(Drop)]
pub(crate) enum Payload<'a> {
    /// A message's.
    Message(Kind, &'a [u8]),
    /// A control's.
    Control(Op, Small),
}

impl Payload<'_> {
    /// Its bytes.
    pub(crate) fn bytes(&self) -> &[u8]
        ensures { result.now ≡ payload_in (meant_payload self.now) }
    {
        match self {
            Payload::Message(_, text) => text,
            Payload::Control(_, body) => body,
        }
    }

    /// Whether it is a text message's.
    #[tactic(none)]
    pub(crate) fn is_text(&self) -> bool
        ensures { result ≡ is_text (meant_payload self.now) }
    {
        match self {
            Payload::Message(Kind::Text, _) => true,
            Payload::Message(Kind::Binary, _) | Payload::Control(..) => false,
        }
    }
}

/// The payload of a source's last turn; `None` if that is a verdict.
pub(crate) fn payload_of<'a, A: Allocator + Copy>(last: &LastTurn<'a, A>) -> Option<Payload<'a>>
    requires { IsLawfulTurn (meant_last last.now) }
    ensures { meant_payloads result ≡ event_given (meant_last last.now) }
{
    match last.turn {
        Turn::Lent(kind) => Some(Payload::Message(*kind, last.source.taken())),
        Turn::Own(Next::Event(Event::Message(kind, text))) => {
            Some(Payload::Message(*kind, text.as_slice()))
        }
        Turn::Own(Next::Event(event)) => {
            let (op, body) = control_of(event);
            Some(Payload::Control(op, body))
        }
        Turn::Own(Next::Done(_)) => None,
    }
}
