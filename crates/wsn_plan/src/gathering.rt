ghost use Rattle.std.specs.Prelude.{◌≡◌, [], ◌∷◌, ◌++◌, false, map, IfOk, IfErr};
ghost use Rattle.wsn_rules.specs.Meaning.{Message};
ghost use Rattle.wsn_events.specs.EventsMeant.{meant};
ghost use Rattle.wsn_plan.specs.Gathering.{IsGathered, kept_meant};

use crate::kept::{Kept, copy_of, to_keep};
use std::alloc::Allocator;
use std::io::Read;
use wsn_events::{Event, Next, Source, Turn};
use wsn_io::{Input, Stop};
use wsn_scan::{Limits, Verdict};
use wsn_wire::{Kind, Role};

/// An input's verdict and all its events, in a vector of `A` with their bytes in room of `B`.
#[derive(Drop)]
pub(crate) struct Gathered<A: Allocator, B: Allocator> {
    pub verdict: Verdict,
    pub events: Vec<Kept<B>, A>,
}

/// Reads an input to its verdict and keeps all its events: their bytes in room of `room`, the rest in `alloc`'s. `Memory`
/// if an allocation fails, which can happen only after a payload byte of a data frame or a whole frame.
#[tactic(none)]
pub(crate) fn gather<A: Allocator + Copy, B: Allocator + Copy, R: Read>(
    alloc: A,
    room: B,
    input: &mut Input<R>,
    role: Role,
    limits: Limits,
) -> Result<Gathered<A, B>, Stop>
    requires readable { input.old.failed ≡ false }
    ensures { IsGathered role limits input.old input.new result }
{
    let mut source = Source::new(alloc, role, limits);
    let mut events = Vec::new(alloc);
    loop {
        if let Some(kind) = source.take_message() {
            keep_message(room, &mut events, kind, source.taken())?;
            continue;
        }
        match source.next_turn(input)? {
            Turn::Lent(kind) => keep_message(room, &mut events, kind, source.taken())?,
            Turn::Own(Next::Event(event)) => {
                keep(room, &mut events, &event)?;
                source.reuse(event);
            }
            Turn::Own(Next::Done(verdict)) => return Ok(Gathered { verdict, events }),
        }
    }
}

/// Keeps a message, after the others. `Memory` if an allocation fails, and no other error.
fn keep_message<A: Allocator, B: Allocator>(
    room: B,
    events: &mut Vec<Kept<B>, A>,
    kind: Kind,
    text: &[u8],
) -> Result<(), Stop>
    ensures kept { IfOk result (λ _. map kept_meant events.new.items
        ≡ map kept_meant events.old.items ++ Message kind text.now ∷ []) }
    ensures stop { IfErr result (λ stop. stop ≡ Stop.Memory) }
{
    let text = copy_of(room, text).ok_or(Stop::Memory)?;
    events
        .push(Kept::Message(kind, text))
        .map_err(|_| Stop::Memory)
}

/// Keeps an event, after the others. `Memory` if an allocation fails, and no other error.
fn keep<A: Allocator, B: Allocator>(
    room: B,
    events: &mut Vec<Kept<B>, A>,
    event: &Event<A>,
) -> Result<(), Stop>
    ensures kept { IfOk result (λ _. map kept_meant events.new.items
        ≡ map kept_meant events.old.items ++ meant event.now ∷ []) }
    ensures stop { IfErr result (λ stop. stop ≡ Stop.Memory) }
{
    let one = to_keep(room, event).ok_or(Stop::Memory)?;
    events.push(one).map_err(|_| Stop::Memory)
}
