ghost use Rattle.std.specs.Prelude.{◌≡◌, ℕ, ◌-◌, ◌+◌, ◌≤◌, length, Option, IfSome};
ghost use Rattle.wsn_rules.specs.LawfulEvents.{IsLawfulEvent};
ghost use Rattle.wsn_rules.specs.Meaning.{MeantEvent, payload_in};
ghost use Rattle.wsn_rules.specs.ShownStream.{Item};
ghost use Rattle.wsn_print.specs.DifferingPayloads.{place_between, view_start, event_in, IsPartOf, StandsForPlace, StandsForPayloads};
ghost use Rattle.wsn_events.specs.PayloadExcerpts.{meant_payload, meant_payloads, IsLawfulIfAny, IsPartKept, ArePartsKept, ArePayloadsKept};

use crate::equal_bytes::common_length;
use crate::payload::Payload;
use arrayvec::ArrayVec;
use wsn_print::{DifferingPayloads, HeldBytes, PayloadPart};
use wsn_text::whole_characters;

/// The most bytes of a payload that are kept: those of the greatest view, and 11 before the place.
const PART_MAX: usize = 4_107;

/// The number of bytes before the place that are shown, unless a character of a text begins before them.
const BEFORE: usize = 8;

/// Where the payloads of two events differ, and what is kept of both to show that place.
#[derive(Drop)]
pub struct PayloadDifference {
    /// The place of the first byte in which they differ.
    place: u64,
    /// What is kept of the first stream's payload.
    first: PayloadExcerpt,
    /// What is kept of the second stream's payload.
    second: PayloadExcerpt,
}

/// What is kept of a payload from a little before a place on.
#[derive(Drop)]
struct PayloadExcerpt {
    /// Whether it is a text message's.
    is_text: bool,
    /// The number of the bytes before those that are kept.
    from: u64,
    /// The number of bytes that are kept before the place.
    before: u8,
    /// The number of the payload's bytes from there on.
    bytes: u64,
    /// The first of them.
    held: ArrayVec<u8, PART_MAX>,
}

impl PayloadDifference {
    /// What is kept of two payloads; `None` if they are the same, or if there aren't two.
    pub(crate) fn between(
        one: &Option<Payload<'_>>,
        other: &Option<Payload<'_>>,
    ) -> Option<PayloadDifference>
        requires one { IsLawfulIfAny (meant_payloads one.now) }
        requires other { IsLawfulIfAny (meant_payloads other.now) }
        ensures { ArePayloadsKept result (meant_payloads one.now) (meant_payloads other.now) }
    {
        match (one, other) {
            (Some(one), Some(other)) => PayloadDifference::of_both(one, other),
            _ => None,
        }
    }

    #[tactic(none)]
    fn of_both(one: &Payload<'_>, other: &Payload<'_>) -> Option<PayloadDifference>
        requires one { IsLawfulEvent (meant_payload one.now) }
        requires other { IsLawfulEvent (meant_payload other.now) }
        ensures { ArePayloadsKept result (Option.Some (meant_payload one.now)) (Option.Some (meant_payload other.now)) }
    {
        match place_between(one.bytes(), other.bytes()) {
            Some(place) => Some(PayloadDifference {
                place: place as u64,
                first: PayloadExcerpt::new(one, place),
                second: PayloadExcerpt::new(other, place),
            }),
            None => None,
        }
    }

    /// The payloads as they are printed, for each view.
    #[tactic(none)]
    pub(crate) fn shown(&self) -> DifferingPayloads<'_>
        ensures { (n : ℕ) (place : Option ℕ) (one other : Option MeantEvent) → n ≤ 4096 →
            ArePartsKept (Option.Some self.now) place one other → StandsForPlace n (Option.Some result) place one other }
    {
        DifferingPayloads {
            place: self.place,
            first: self.first.part(),
            second: self.second.part(),
        }
    }
}

impl PayloadExcerpt {
    /// What is kept of a payload around this place.
    #[tactic(none)]
    fn new(payload: &Payload<'_>, place: usize) -> PayloadExcerpt
        requires within { place ≤ length (payload_in (meant_payload payload.now)) }
        requires lawful { IsLawfulEvent (meant_payload payload.now) }
        ensures { IsPartKept place result (meant_payload payload.now) }
    {
        let from = view_start(payload, place);
        let bytes = &payload.bytes()[from..];
        let mut held = ArrayVec::new();
        let _fits = held.try_extend_from_slice(&bytes[..bytes.len().min(PART_MAX)]);
        PayloadExcerpt {
            is_text: payload.is_text(),
            from: from as u64,
            before: (place - from) as u8,
            bytes: bytes.len() as u64,
            held,
        }
    }

    /// The payload as it is printed, for each view.
    fn part(&self) -> PayloadPart<'_>
        ensures { (n place : ℕ) (event : MeantEvent) → n ≤ 4096 → IsPartKept place self.now event →
            IsPartOf n place result event }
    {
        PayloadPart {
            is_text: self.is_text,
            from: self.from,
            before: self.before,
            bytes: HeldBytes {
                bytes: self.bytes,
                held: self.held.as_slice(),
            },
        }
    }
}

/// The place of the first byte in which two payloads differ; `None` if they are the same.
#[tactic(none)]
fn place_between(bytes: &[u8], others: &[u8]) -> Option<usize>
    ensures is { result ≡ place_between bytes.now others.now }
    ensures within { IfSome result (λ place. (place ≤ length bytes.now) × (place ≤ length others.now)) }
{
    let place = common_length(bytes, others);
    if place < bytes.len() {
        return Some(place);
    }
    if place < others.len() {
        return Some(place);
    }
    None
}

/// Where a view of a payload around this place begins.
#[tactic(none)]
fn view_start(payload: &Payload<'_>, place: usize) -> usize
    requires within { place ≤ length (payload_in (meant_payload payload.now)) }
    requires lawful { IsLawfulEvent (meant_payload payload.now) }
    ensures is { result ≡ view_start place (meant_payload payload.now) }
    ensures near { (result ≤ place) × (place ≤ result + 11) }
{
    let start = place.saturating_sub(BEFORE);
    if payload.is_text() {
        whole_characters(&payload.bytes()[..start]).len()
    } else {
        start
    }
}
