ghost use Rattle.std.specs.Prelude.{◌≡◌, ℕ, ◌≤◌, ◌↔◌, false, List, Ok, Some, IsSome, map};
ghost use Rattle.wsn_wire.specs.declared.endpoint.Role.TheVariants.{Client};
ghost use Rattle.wsn_rules.specs.declared.why.Why.{Why};
ghost use Rattle.wsn_rules.specs.declared.why.Why.TheVariants.{TooManyPieces};
ghost use Rattle.wsn_rules.specs.Limits.{InRange};
ghost use Rattle.wsn_rules.specs.LawfulEvents.{AreLawful};
ghost use Rattle.wsn_rules.specs.Recut.{recut_bytes};
ghost use Rattle.wsn_rules.specs.UniformPlan.{uniform_plan};
ghost use Rattle.wsn_io.specs.Stops.{IsWrittenOrStops};
ghost use Rattle.wsn_plan.specs.Gathering.{kept_meant};
ghost use Rattle.wsn_plan.specs.Recutting.{IsRecut, IsRecutWhole, IsRefragmented, FitsWithin};

use crate::Plan;
use crate::checking::fault_of;
use crate::framing::put_step;
use crate::gathering::{Gathered, gather};
use crate::kept::Kept;
use crate::uniform_plans::{UniformFrames, uniform_of_kept};
use crate::walking::Walk;
use bumpalo::Bump;
use std::alloc::Allocator;
use std::io::{Read, Write};
use wsn_io::{Input, Output, Stop};
use wsn_rules::{Step, Why};
use wsn_scan::{Limits, Verdict};
use wsn_wire::Role;

/// What [`recut`] and [`recut_uniform`] return.
#[derive(Clone, Copy, Debug)]
pub enum RecutAnswer {
    /// The input is accepted, the plan fits its meaning, and the recut is written.
    Done,
    /// The input isn't accepted, whatever the plan.
    NotAccepted(Verdict),
    /// The input is accepted, but the plan doesn't fit its meaning: the faulty step, counted from 0, and the reason. If
    /// the plan ends before the events do, `step` is the number of steps.
    Fault { step: u64, why: Why },
}

/// Refragments a stream: reads an input and writes its meaning in the frames of a plan (RFC 6455 section 5.4). `role`
/// is the endpoint that sent the stream. The whole input and the plan are checked before the first byte is written:
/// with any answer but `Done`, and any error but `Write`, the output is unchanged.
///
/// Errors: `Read` if the reader fails; `InputLimit` if a byte past the input limit comes; `Memory` if an allocation
/// fails, which can happen only after a payload byte of a data frame or a whole frame; `Write` if the writer fails: a
/// prefix of the recut is written.
///
/// It holds all that the input means: the bytes of its messages and controls, which are at most those of the input, and
/// 40 bytes for each message and control, in an arena and a vector that can have room for twice as much.
pub fn recut<A: Allocator + Copy, R: Read, W: Write>(
    alloc: A,
    input: &mut Input<R>,
    output: &mut Output<W>,
    role: Role,
    limits: Limits,
    plan: &Plan<A>,
) -> Result<RecutAnswer, Stop>
    requires readable { input.old.failed ≡ false }
    requires writable { output.old.failed ≡ false }
    ensures recut { IsRecut role limits (λ _. plan.now) input.old input.new output.old output.new result }
    ensures whole { (all : List ℕ) → input.old.remaining ≡ Some all →
        IsRecutWhole role limits (λ _. plan.now) all output.old output.new result }
{
    let arena = Bump::new(alloc);
    let Gathered {
        verdict,
        mut events,
    } = gather(alloc, &arena, input, role, limits)?;
    let Verdict::Accepted(_) = verdict else {
        return Ok(RecutAnswer::NotAccepted(verdict));
    };
    refragment(output, role, limits, &mut events, plan.steps())
}

/// Refragments a stream as [`recut`] does, by the plan that [`uniform`] makes of its events. Its only fault is
/// `TooManyPieces`. The plan is held beside the events: 24 bytes for each frame, in a vector that can have room for twice
/// as many.
pub fn recut_uniform<A: Allocator + Copy, R: Read, W: Write>(
    alloc: A,
    input: &mut Input<R>,
    output: &mut Output<W>,
    role: Role,
    limits: Limits,
    frames: UniformFrames,
) -> Result<RecutAnswer, Stop>
    requires readable { input.old.failed ≡ false }
    requires writable { output.old.failed ≡ false }
    requires size { 1 ≤ frames.size }
    requires key { IsSome frames.key ↔ (role ≡ Client) }
    ensures recut { IsRecut role limits (uniform_plan frames.size frames.weave frames.key) input.old input.new output.old
        output.new result }
    ensures whole { (all : List ℕ) → input.old.remaining ≡ Some all →
        IsRecutWhole role limits (uniform_plan frames.size frames.weave frames.key) all output.old output.new result }
    ensures only_fault { (step : ℕ) (why : Why) → result ≡ Ok (RecutAnswer.Fault step why) → why ≡ TooManyPieces }
{
    let arena = Bump::new(alloc);
    let Gathered {
        verdict,
        mut events,
    } = gather(alloc, &arena, input, role, limits)?;
    let Verdict::Accepted(_) = verdict else {
        return Ok(RecutAnswer::NotAccepted(verdict));
    };
    let plan = uniform_of_kept(alloc, &events, frames)?;
    refragment(output, role, limits, &mut events, plan.steps())
}

/// Writes the events in the frames of a plan that fits them, or returns the plan's fault and writes nothing.
#[tactic(none)]
fn refragment<A: Allocator, W: Write>(
    output: &mut Output<W>,
    role: Role,
    limits: Limits,
    events: &mut [Kept<A>],
    steps: &[Step],
) -> Result<RecutAnswer, Stop>
    requires unfailed { output.old.failed ≡ false }
    requires range { InRange limits }
    requires lawful { AreLawful limits.message (map kept_meant events.old) }
    ensures { IsRefragmented role limits steps.now (map kept_meant events.old) output.old output.new result }
{
    if let Some((step, why)) = fault_of(role, limits, events, steps) {
        return Ok(RecutAnswer::Fault { step, why });
    }
    put_steps(output, events, steps)?;
    Ok(RecutAnswer::Done)
}

/// Writes the frames of a plan that fits the events. `Write` if the writer fails: a prefix of them is written.
#[tactic(none)]
fn put_steps<A: Allocator, W: Write>(
    output: &mut Output<W>,
    events: &mut [Kept<A>],
    steps: &[Step],
) -> Result<(), Stop>
    requires unfailed { output.old.failed ≡ false }
    requires fits { FitsWithin steps.now (map kept_meant events.old) }
    ensures { IsWrittenOrStops output.old output.new (recut_bytes steps.now (map kept_meant events.old)) result }
{
    let mut walk = Walk::start(events);
    for step in steps {
        put_step(output, events, &walk, step)?;
        walk.take(events, step);
    }
    Ok(())
}
