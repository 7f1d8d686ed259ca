ghost use Rattle.std.specs.Prelude.{◌≡◌, ℕ, ◌≤◌, Option};
ghost use Rattle.wsn_rules.specs.ShownStream.{Item};
ghost use Rattle.wsn_rules.specs.Meaning.{MeantEvent};
ghost use Rattle.wsn_print.specs.DifferingPayloads.{event_in, StandsForPlace, StandsForPayloads};
ghost use Rattle.wsn_print.specs.ShownParts.{StandsFor};
ghost use Rattle.wsn_events.specs.Excerpts.{IsExcerptIn, IsKeptOf};
ghost use Rattle.wsn_events.specs.PayloadExcerpts.{ArePartsKept, ArePayloadsKept};
ghost use Rattle.wsn_events.specs.Turns.{IsLawfulTurn, meant_last};

use crate::excerpt::Excerpt;
use crate::payload_difference::PayloadDifference;
use crate::source::Next;
use crate::turn::{LastTurn, Turn};
use std::alloc::Allocator;
use wsn_print::{Difference, DifferingPayloads, PlacedEvent};

/// The first events of two streams that differ.
#[derive(Drop)]
pub struct FirstDifference {
    /// Their index, from 0.
    pub index: u64,
    /// What is kept of the first stream's event; `None` if it has no more events.
    pub first: Option<Excerpt>,
    /// What is kept of the second stream's event; `None` if it has no more events.
    pub second: Option<Excerpt>,
    /// Where their payloads differ; `None` if they are the same, or if a stream has no more events.
    pub payloads: Option<PayloadDifference>,
}

impl FirstDifference {
    /// The events as they are printed, for each view.
    pub fn shown(&self) -> Difference<'_>
        ensures index { result.index ≡ self.now.index }
        ensures first { (n : ℕ) (item : Option Item) → n ≤ 4096 → IsExcerptIn self.now.first item →
            StandsFor n result.first item }
        ensures second { (n : ℕ) (item : Option Item) → n ≤ 4096 → IsExcerptIn self.now.second item →
            StandsFor n result.second item }
        ensures payloads { (n : ℕ) (one other : Option Item) → n ≤ 4096 →
            ArePayloadsKept self.now.payloads (event_in one) (event_in other) →
            StandsForPayloads n result.payloads one other }
    {
        Difference {
            index: self.index,
            first: placed_in(&self.first),
            second: placed_in(&self.second),
            payloads: shown_payloads(&self.payloads),
        }
    }
}

/// The event as it is printed, if there is one.
fn placed_in(excerpt: &Option<Excerpt>) -> Option<PlacedEvent<'_>>
    ensures { (n : ℕ) (item : Option Item) → n ≤ 4096 → IsExcerptIn excerpt.now item → StandsFor n result item }
{
    match excerpt {
        Some(excerpt) => Some(excerpt.placed()),
        None => None,
    }
}

/// The payloads as they are printed, if they differ.
fn shown_payloads(payloads: &Option<PayloadDifference>) -> Option<DifferingPayloads<'_>>
    ensures { (n : ℕ) (place : Option ℕ) (one other : Option MeantEvent) → n ≤ 4096 →
        ArePartsKept payloads.now place one other → StandsForPlace n result place one other }
{
    match payloads {
        Some(payloads) => Some(payloads.shown()),
        None => None,
    }
}

/// What is kept of a source's last turn.
pub(crate) fn excerpt_of<A: Allocator + Copy>(last: &LastTurn<'_, A>) -> Option<Excerpt>
    requires { IsLawfulTurn (meant_last last.now) }
    ensures { IsKeptOf last.now.source.now (meant_last last.now) result }
{
    let source = last.source;
    let (offset, frames) = (source.offset(), source.frames());
    match last.turn {
        Turn::Lent(kind) => Some(Excerpt::of_message(*kind, source.taken(), offset, frames)),
        Turn::Own(Next::Event(event)) => Some(Excerpt::new(event, offset, frames)),
        Turn::Own(Next::Done(_)) => None,
    }
}
