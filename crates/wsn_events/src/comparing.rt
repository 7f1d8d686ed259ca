ghost use Rattle.std.specs.Prelude.{◌≡◌, ℕ, List, Some, IfOk, true, false, Ok};
ghost use Rattle.wsn_wire.specs.declared.endpoint.Role.{Role};
ghost use Rattle.wsn_io.specs.Transfer.{Incoming};
ghost use Rattle.wsn_rules.specs.Limits.{Limits};
ghost use Rattle.wsn_rules.specs.Meaning.{MeantEvent, Message};
ghost use Rattle.wsn_events.specs.Sources.{IsLast};
ghost use Rattle.wsn_rules.specs.LeftOut.{events_without};
ghost use Rattle.wsn_events.specs.Excerpts.{IsContrasted, KeepsFirst, KeepsOf, index_in};
ghost use Rattle.wsn_rules.specs.SameMeaning.{IsAnAccepted, IsComparisonOfBy, IsComparisonOf};
ghost use Rattle.wsn_events.specs.Comparing.{IsComparisonOutcome, IsRoundOf, AreLentAlike, IsComparedBy, IsCompared};
ghost use Rattle.wsn_events.specs.Turns.{OfEvent, IsLawfulTurn, meant_next, meant_last};
ghost use Rattle.wsn_events.specs.LentMessages.{MayLend};

use crate::equal_bytes::are_equal;
use crate::event::{is_message, is_same};
use crate::first_difference::{FirstDifference, excerpt_of};
use crate::leaving_out::turn_after;
use crate::payload::payload_of;
use crate::payload_difference::PayloadDifference;
use crate::source::{Next, Source};
use crate::turn::{LastTurn, Turn, give_back};
use std::alloc::Allocator;
use std::io::Read;
use wsn_io::{Input, Stop};
use wsn_rules::{Compared, Without};
use wsn_scan::{Limits, Verdict};
use wsn_wire::{Kind, Role};

/// Compares what two streams mean, however they are framed and masked (RFC 6455 sections 5.3 and 5.4). `role` is the
/// endpoint that sent them. Both are read to their verdicts, and one event of each is held at a time. Returns whether
/// they mean the same, the index of the first event that differs, or the verdict of a stream that isn't accepted: the
/// first stream's, or else the second's.
///
/// Errors, of either stream and even if the other has its verdict: `Read` if the reader fails; `InputLimit` if a byte
/// past the input limit comes; `Memory` if an allocation for a message fails.
#[tactic(none)]
pub fn same<A: Allocator + Copy, R: Read, S: Read>(
    alloc: A,
    first: &mut Input<R>,
    second: &mut Input<S>,
    role: Role,
    limits: Limits,
) -> Result<Compared, Stop>
    requires first { first.old.failed ≡ false }
    requires second { second.old.failed ≡ false }
    ensures compared { IsCompared role limits first.old first.new second.old second.new result }
    ensures whole { IfOk result (λ compared. (all others : List ℕ) → first.old.remaining ≡ Some all →
        second.old.remaining ≡ Some others →
        IsComparisonOf role limits all others compared) }
{
    let nothing = Without {
        ping: false,
        pong: false,
        close: false,
    };
    same_without(alloc, first, second, role, limits, nothing)
}

/// Compares what two streams mean, as [`same`] does, but leaves the controls of these kinds out of both meanings. An
/// index counts what is left. The streams' verdicts are those of all their frames.
///
/// Errors: as [`same`].
#[tactic(none)]
pub fn same_without<A: Allocator + Copy, R: Read, S: Read>(
    alloc: A,
    first: &mut Input<R>,
    second: &mut Input<S>,
    role: Role,
    limits: Limits,
    without: Without,
) -> Result<Compared, Stop>
    requires first { first.old.failed ≡ false }
    requires second { second.old.failed ≡ false }
    ensures compared { IsComparedBy (events_without without) role limits first.old first.new second.old second.new
        result }
    ensures whole { IfOk result (λ compared. (all others : List ℕ) → first.old.remaining ≡ Some all →
        second.old.remaining ≡ Some others →
        IsComparisonOfBy (events_without without) role limits all others compared) }
{
    let (compared, _difference) = contrast(alloc, first, second, role, limits, without)?;
    Ok(compared)
}

/// Compares what two streams mean, as [`same_without`] does. If they differ, it also returns what is needed to show the
/// first events that do.
///
/// Errors: as [`same`].
#[tactic(none)]
pub fn contrast<A: Allocator + Copy, R: Read, S: Read>(
    alloc: A,
    first: &mut Input<R>,
    second: &mut Input<S>,
    role: Role,
    limits: Limits,
    without: Without,
) -> Result<(Compared, Option<FirstDifference>), Stop>
    requires first { first.old.failed ≡ false }
    requires second { second.old.failed ≡ false }
    ensures { IsContrasted without role limits first.old first.new second.old second.new result }
{
    let mut events = Source::new(alloc, role, limits);
    let mut others = Source::new(alloc, role, limits);
    let mut index = 0;
    let mut difference = None;
    loop {
        let lent = events.take_message();
        let other_lent = take_other(lent, &mut others);
        if are_alike(&events, lent, &others, other_lent) {
            index += 1;
            continue;
        }
        let turn = turn_after(lent, &mut events, first, without)?;
        let other = turn_after(other_lent, &mut others, second, without)?;
        let round = end_round(
            &mut difference,
            index,
            &LastTurn {
                source: &events,
                turn: &turn,
            },
            &LastTurn {
                source: &others,
                turn: &other,
            },
        );
        if let Round::Over(verdict, other) = round {
            let compared = outcome(verdict, other, index_of(&difference));
            return Ok((compared, difference));
        }
        give_back(&mut events, turn);
        give_back(&mut others, other);
        index += 1;
    }
}

/// Takes the other source's message, as [`Source::take_message`] does, but only if the first one lends a message: it is
/// compared with that. Otherwise nothing changes.
#[inline(always)]
fn take_other<A: Allocator + Copy>(lent: Option<Kind>, others: &mut Source<A>) -> Option<Kind>
    ensures { MayLend others.old others.new result }
{
    match lent {
        Some(_) => others.take_message(),
        None => None,
    }
}

/// Whether both sources lend a message, and these are the same.
#[inline(always)]
fn are_alike<A: Allocator + Copy>(
    events: &Source<A>,
    lent: Option<Kind>,
    others: &Source<A>,
    other: Option<Kind>,
) -> bool
    ensures { result ≡ true → AreLentAlike events.now lent others.now other }
{
    match (lent, other) {
        (Some(kind), Some(other)) => kind == other && are_equal(events.taken(), others.taken()),
        _ => false,
    }
}

/// The round that the last turns of both sources make. It keeps of the first events that differ what shows them.
#[inline(always)]
fn end_round<A: Allocator + Copy>(
    difference: &mut Option<FirstDifference>,
    index: u64,
    first: &LastTurn<'_, A>,
    second: &LastTurn<'_, A>,
) -> Round
    requires first { IsLawfulTurn (meant_last first.now) }
    requires second { IsLawfulTurn (meant_last second.now) }
    ensures round { IsRoundOf (meant_last first.now) (meant_last second.now) result }
    ensures kept { KeepsOf result index first.now.source.now (meant_last first.now) second.now.source.now
        (meant_last second.now) difference.old difference.new }
{
    let round = round_of(first, second);
    if let Round::Unlike = round {
        keep_first(difference, index, first, second);
    }
    round
}

/// Keeps what shows the events that the sources gave last, unless a difference is kept already.
#[inline(never)]
#[tactic(none)]
fn keep_first<A: Allocator + Copy>(
    difference: &mut Option<FirstDifference>,
    index: u64,
    first: &LastTurn<'_, A>,
    second: &LastTurn<'_, A>,
)
    requires first { IsLawfulTurn (meant_last first.now) }
    requires second { IsLawfulTurn (meant_last second.now) }
    ensures { KeepsFirst index first.now.source.now (meant_last first.now) second.now.source.now
        (meant_last second.now) difference.old difference.new }
{
    if difference.is_some() {
        return;
    }
    let payloads = PayloadDifference::between(&payload_of(first), &payload_of(second));
    *difference = Some(FirstDifference {
        index,
        first: excerpt_of(first),
        second: excerpt_of(second),
        payloads,
    });
}

/// The index of a difference, if there is one.
#[tactic(none)]
fn index_of(difference: &Option<FirstDifference>) -> Option<u64>
    ensures { result ≡ index_in difference.now }
{
    match difference {
        Some(difference) => Some(difference.index),
        None => None,
    }
}

/// The turns of both streams in one round.
#[derive(Clone, Copy)]
enum Round {
    /// The same event.
    Alike,
    /// Two events that differ, or an event and a verdict.
    Unlike,
    /// Both verdicts.
    Over(Verdict, Verdict),
}

/// The round that these two turns make.
#[inline(always)]
fn round_of<A: Allocator + Copy>(first: &LastTurn<'_, A>, second: &LastTurn<'_, A>) -> Round
    ensures { IsRoundOf (meant_last first.now) (meant_last second.now) result }
{
    match (first.turn, second.turn) {
        (Turn::Own(next), Turn::Own(other)) => round_of_own(next, other),
        (Turn::Own(next), Turn::Lent(kind)) => round_with(next, *kind, second.source.taken()),
        (Turn::Lent(kind), Turn::Own(next)) => round_with(next, *kind, first.source.taken()),
        (Turn::Lent(kind), Turn::Lent(other)) => {
            if kind == other && are_equal(first.source.taken(), second.source.taken()) {
                Round::Alike
            } else {
                Round::Unlike
            }
        }
    }
}

/// The round that these two results make.
#[tactic(none)]
fn round_of_own<A: Allocator>(next: &Next<A>, other: &Next<A>) -> Round
    ensures { IsRoundOf (meant_next next.now) (meant_next other.now) result }
{
    match (next, other) {
        (Next::Done(verdict), Next::Done(other)) => Round::Over(*verdict, *other),
        (Next::Event(event), Next::Event(other)) if is_same(event, other) => Round::Alike,
        _ => Round::Unlike,
    }
}

/// The round that this result makes with this message, whichever of the two is the first stream's.
fn round_with<A: Allocator>(next: &Next<A>, kind: Kind, text: &[u8]) -> Round
    ensures first { IsRoundOf (meant_next next.now) (OfEvent (Message kind text.now)) result }
    ensures second { IsRoundOf (OfEvent (Message kind text.now)) (meant_next next.now) result }
{
    match next {
        Next::Event(event) if is_message(event, kind, text) => Round::Alike,
        _ => Round::Unlike,
    }
}

/// The answer, by both verdicts and the index of the first difference.
#[tactic(none)]
fn outcome(verdict: Verdict, other: Verdict, difference: Option<u64>) -> Compared
    ensures answer { (part : List MeantEvent → List MeantEvent) →
        IsComparisonOutcome part verdict other difference result }
    ensures differs { (k : ℕ) → result ≡ Compared.Different k →
        (difference ≡ Some k) × IsAnAccepted verdict × IsAnAccepted other }
{
    let Verdict::Accepted(_) = verdict else {
        return Compared::NotAccepted {
            second: false,
            verdict,
        };
    };
    let Verdict::Accepted(_) = other else {
        return Compared::NotAccepted {
            second: true,
            verdict: other,
        };
    };
    match difference {
        None => Compared::Equal,
        Some(index) => Compared::Different(index),
    }
}
