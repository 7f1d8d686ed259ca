ghost use Rattle.std.specs.Prelude.{◌≡◌, ℕ, ◌<◌, None, Some, IfOk, IfSome, IfNone, Ok, List, MatchOption, Result, true, false};
ghost use Rattle.wsn_rules.specs.Meaning.{MeantEvent};
ghost use Rattle.wsn_wire.specs.declared.endpoint.Role.{Role};
ghost use Rattle.wsn_rules.specs.declared.verdict.Verdict.{Verdict};
ghost use Rattle.wsn_io.specs.declared.stop.Stop.{Stop};
ghost use Rattle.wsn_events.specs.SourceStates.{HasGiven, answered, events_ahead, next_of, HasBegunOrEnded};
ghost use Rattle.wsn_events.specs.Turns.{GivesEvent, own_turn};
ghost use Rattle.wsn_events.specs.LeavingOut.{is_turn_left_out, ReadsTurn, TakesTurnWithout};

use crate::event::Event;
use crate::source::{Next, Source};
use crate::turn::Turn;
use std::alloc::Allocator;
use std::io::Read;
use wsn_io::{Input, Stop};
use wsn_rules::Without;
use wsn_wire::Kind;

/// Reads on to the next event that isn't left out, or to the verdict, as [`Source::next_turn`] does.
#[inline(always)]
#[tactic(none)]
pub fn turn_without<A: Allocator + Copy, R: Read>(
    source: &mut Source<A>,
    input: &mut Input<R>,
    without: Without,
) -> Result<Turn<A>, Stop>
    requires begun { HasBegunOrEnded source.old }
    requires readable { answered source.old ≡ None → input.old.failed ≡ false }
    ensures next { (role : Role) (limits : _) (came : List ℕ) (given : List MeantEvent) →
        HasGiven role limits source.old came given →
        TakesTurnWithout without role limits input.old input.new source.new came given result }
    ensures not_left_out { IfOk result (λ turn. is_turn_left_out without turn ≡ false) }
    ensures falls { GivesEvent result → events_ahead source.new < events_ahead source.old }
    ensures again { (answer : Result Verdict Stop) → answered source.old ≡ Some answer →
        (result ≡ own_turn (next_of answer)) × (source.new ≡ source.old) × (input.new ≡ input.old) }
{
    loop {
        if let Some(turn) = unless_left_out(source.next_turn(input)?, without) {
            return Ok(turn);
        }
    }
}

/// The turn of a source that may have lent a message just now: that message, or else what [`turn_without`] reads on to.
#[inline(always)]
pub fn turn_after<A: Allocator + Copy, R: Read>(
    lent: Option<Kind>,
    source: &mut Source<A>,
    input: &mut Input<R>,
    without: Without,
) -> Result<Turn<A>, Stop>
    requires begun { HasBegunOrEnded source.old }
    requires readable { answered source.old ≡ None → input.old.failed ≡ false }
    ensures lent { IfSome lent (λ kind. (result ≡ Ok (Turn.Lent kind)) × (source.new ≡ source.old)
        × (input.new ≡ input.old)) }
    ensures own { IfNone lent (ReadsTurn without input.old input.new source.old source.new result) }
{
    match lent {
        Some(kind) => Ok(Turn::Lent(kind)),
        None => turn_without(source, input, without),
    }
}

/// The turn, unless it is an event that is left out, which it frees.
#[inline(always)]
#[tactic(none)]
fn unless_left_out<A: Allocator>(turn: Turn<A>, without: Without) -> Option<Turn<A>>
    ensures { MatchOption result (is_turn_left_out without turn ≡ true)
        (λ kept. (kept ≡ turn) × (is_turn_left_out without turn ≡ false)) }
{
    if is_left_out(&turn, without) {
        return None;
    }
    Some(turn)
}

/// Whether this is an event that is left out.
#[inline(always)]
#[tactic(none)]
fn is_left_out<A: Allocator>(turn: &Turn<A>, without: Without) -> bool
    ensures { result ≡ is_turn_left_out without turn.now }
{
    match turn {
        Turn::Own(Next::Event(Event::Ping(_))) => without.ping,
        Turn::Own(Next::Event(Event::Pong(_))) => without.pong,
        Turn::Own(Next::Event(Event::Close(_))) => without.close,
        Turn::Own(Next::Event(Event::Message(..)) | Next::Done(_)) | Turn::Lent(_) => false,
    }
}
