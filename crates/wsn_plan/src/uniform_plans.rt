ghost use Rattle.std.specs.Prelude.{◌≡◌, ℕ, ◌++◌, ◌≤◌, ◌<◌, ◌^◌, ◌↔◌, List, IfOk, IfErr, IsSome, MatchOption, length, map, replicate};
ghost use Rattle.wsn_wire.specs.declared.endpoint.Role.TheVariants.{Client};
ghost use Rattle.wsn_wire.specs.declared.length_encoding.Form.TheVariants.{Shortest};
ghost use Rattle.wsn_rules.specs.declared.step.Step.TheVariants.{Piece, Last, Control};
ghost use Rattle.wsn_rules.specs.UniformPlan.{piece_count, ahead, uniform_plan};
ghost use Rattle.wsn_events.specs.EventsMeant.{meant};
ghost use Rattle.wsn_plan.specs.Gathering.{kept_meant};
ghost use Rattle.wsn_plan.specs.Uniform.{message_steps};
ghost use Rattle.wsn_plan.specs.Walking.{IsControl, IsMessageOf};

use crate::Plan;
use crate::kept::Kept;
use crate::walking::message_len;
use std::alloc::Allocator;
use wsn_events::Event;
use wsn_io::Stop;
use wsn_rules::Step;
use wsn_wire::{Form, Role};

/// Frames of one size, as [`uniform`] plans them.
#[derive(Clone, Copy, Debug)]
pub struct UniformFrames {
    /// The bytes of each frame of a message but the last; at least 1.
    pub size: u32,
    /// Whether the first frame of a message that has several comes before the controls directly before that message.
    pub weave: bool,
    /// The masking key of all frames: a client's must have one, a server's none (RFC 6455 section 5.1).
    pub key: Option<[u8; 4]>,
}

/// Plans frames of one size for events of an endpoint of this role: each control in one frame, and each message in
/// frames of that size, the last of which holds the rest (RFC 6455 section 5.4).
///
/// `Memory` if an allocation fails, and no other error. Without events it allocates no memory.
pub fn uniform<A: Allocator>(
    alloc: A,
    events: &[Event<A>],
    role: Role,
    frames: UniformFrames,
) -> Result<Plan<A>, Stop>
    requires size { 1 ≤ frames.size }
    requires key { IsSome frames.key ↔ (role ≡ Client) }
    ensures plan { IfOk result (λ plan. plan ≡ uniform_plan frames.size frames.weave frames.key (map meant events.now)) }
    ensures stop { IfErr result (λ stop. (stop ≡ Stop.Memory) × (0 < length events.now)) }
{
    // The role only determines whether there is a key.
    let _ = role;
    let mut plan = Plan::new(alloc);
    let mut controls = 0;
    for event in events {
        if let Some(bytes) = event_len(event) {
            push_message(&mut plan, frames, controls, bytes)?;
            controls = 0;
        } else {
            controls += 1;
        }
    }
    push_times(&mut plan, Step::Control { key: frames.key }, controls)?;
    Ok(plan)
}

/// Plans frames of one size for events that are kept, as [`uniform`] does.
pub(crate) fn uniform_of_kept<A: Allocator, B: Allocator>(
    alloc: A,
    events: &[Kept<B>],
    frames: UniformFrames,
) -> Result<Plan<A>, Stop>
    requires size { 1 ≤ frames.size }
    ensures plan { IfOk result (λ plan.
        plan ≡ uniform_plan frames.size frames.weave frames.key (map kept_meant events.now)) }
    ensures stop { IfErr result (λ stop. (stop ≡ Stop.Memory) × (0 < length events.now)) }
{
    let mut plan = Plan::new(alloc);
    let mut controls = 0;
    for event in events {
        if let Some(bytes) = message_len(event) {
            push_message(&mut plan, frames, controls, bytes)?;
            controls = 0;
        } else {
            controls += 1;
        }
    }
    push_times(&mut plan, Step::Control { key: frames.key }, controls)?;
    Ok(plan)
}

/// How many bytes a message has; `None` for a control.
fn event_len<A: Allocator>(event: &Event<A>) -> Option<u64>
    ensures { MatchOption result (IsControl (meant event.now)) (IsMessageOf (meant event.now)) }
{
    match event {
        Event::Message(_, text) => Some(text.len() as u64),
        _ => None,
    }
}

/// Appends the steps of a message of this many bytes, and of the controls directly before it.
#[tactic(none)]
fn push_message<A: Allocator>(
    plan: &mut Plan<A>,
    frames: UniformFrames,
    controls: u64,
    bytes: u64,
) -> Result<(), Stop>
    requires { 1 ≤ frames.size }
    ensures pushed { IfOk result (λ _.
        plan.new ≡ plan.old ++ message_steps frames.size frames.weave frames.key controls bytes) }
    ensures stop { IfErr result (λ stop. stop ≡ Stop.Memory) }
{
    let piece = Step::Piece {
        len: u64::from(frames.size),
        key: frames.key,
        form: Form::Shortest,
    };
    let pieces = bytes.saturating_sub(1) / u64::from(frames.size);
    let ahead = pieces.min(most_ahead(frames.weave));
    push_times(plan, piece, ahead)?;
    push_times(plan, Step::Control { key: frames.key }, controls)?;
    push_times(plan, piece, pieces - ahead)?;
    plan.push(Step::Last {
        key: frames.key,
        form: Form::Shortest,
    })
}

/// How many Pieces of a message come before the controls directly before it, at most.
#[tactic(none)]
fn most_ahead(weave: bool) -> u64
    ensures { result ≡ ahead weave }
{
    if weave { 1 } else { 0 }
}

/// Appends a step this many times.
fn push_times<A: Allocator>(plan: &mut Plan<A>, step: Step, times: u64) -> Result<(), Stop>
    ensures pushed { IfOk result (λ _. plan.new ≡ plan.old ++ replicate times step) }
    ensures stop { IfErr result (λ stop. (stop ≡ Stop.Memory) × (0 < times)) }
{
    for _ in 0..times {
        plan.push(step)?;
    }
    Ok(())
}
