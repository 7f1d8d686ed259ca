ghost use Rattle.std.specs.Prelude.{◌≡◌, ℕ, ◌≤◌, false, length, List, Some};
ghost use Rattle.wsn_scan.specs.Feeding.{IsRunning};
ghost use Rattle.wsn_scan.specs.Scans.{room_of};
ghost use Rattle.wsn_plan.specs.Planning.{IsAnswerWith, IsPlanned, IsPlannedChunk, IsPlannedWhole, step_of_head};

use crate::Plan;
use std::alloc::{Allocator, Global};
use std::io::Read;
use wsn_io::{Input, Stop};
use wsn_rules::{HeadInfo, Refusal, Step};
use wsn_scan::{CHUNK, ChunkReader, Limits, Part, Scan, Taken, Verdict};
use wsn_wire::Role;

/// What [`plan_of`] returns.
#[derive(Drop)]
pub enum PlanAnswer<A: Allocator = Global> {
    /// The input is accepted and leaves no message unfinished: the steps of its frames, up to its Close.
    Plan(Plan<A>),
    /// The input isn't accepted.
    NotAccepted(Verdict),
    /// The input is accepted, but its Close interrupts a message, and no plan restores that.
    Unfinished,
}

/// Plans an input's own frames (RFC 6455 sections 5.2 to 5.4): the recut of the input's meaning by this plan is the
/// input again, up to the end of its Close. `role` is the endpoint that sent the stream.
///
/// Errors: `Read` if the reader fails; `InputLimit` if a byte past the input limit comes; `Memory` if an allocation
/// fails, which can happen only after a whole frame.
///
/// It holds one chunk of the input, no payload, and 24 bytes for each frame that ended, in a vector that can have room
/// for twice as many.
#[tactic(none)]
pub fn plan_of<A: Allocator + Copy, R: Read>(
    alloc: A,
    input: &mut Input<R>,
    role: Role,
    limits: Limits,
) -> Result<PlanAnswer<A>, Stop>
    requires readable { input.old.failed ≡ false }
    ensures planned { IsPlanned role limits input.old input.new result }
    ensures whole { (all : List ℕ) → input.old.remaining ≡ Some all → IsPlannedWhole role limits all result }
{
    let mut scan = Scan::new(role, limits);
    let mut plan = Plan::new(alloc);
    let mut chunks = ChunkReader::new(limits);
    let mut buffer = [0; CHUNK];
    while let Some(len) = chunks.next(input, &mut buffer)? {
        if let Some(refusal) = plan_chunk(&mut scan, &mut buffer[..len], &mut plan)? {
            return Ok(PlanAnswer::NotAccepted(Verdict::Refused(refusal)));
        }
    }
    Ok(answer_of(scan.finish(), plan))
}

/// Feeds the chunk to the scan, all of it or the bytes up to a refusal, and adds the step of each frame that ends to the
/// plan. Returns the refusal, if there is one. `Memory` if an allocation fails: the rest of the chunk isn't fed then.
#[tactic(none)]
fn plan_chunk<A: Allocator>(
    scan: &mut Scan,
    chunk: &mut [u8],
    plan: &mut Plan<A>,
) -> Result<Option<Refusal>, Stop>
    requires begun { IsRunning scan.old }
    requires fits { length chunk.old ≤ room_of scan.old }
    ensures { IsPlannedChunk scan.old scan.new chunk.old plan.old plan.new result }
{
    let mut part = Part::new();
    let mut at = 0;
    while at < chunk.len() {
        if let Some((taken, head)) = scan.next_event(&mut chunk[at..]) {
            at += taken;
            plan.push(step_of(&head))?;
            continue;
        }
        let (taken, found) = scan.next(&mut chunk[at..], &mut part);
        at += taken;
        match found {
            Taken::Part => {
                if part.ends {
                    plan.push(step_of(&part.head))?;
                }
            }
            Taken::Refused => break,
            Taken::More | Taken::Closed => {}
        }
    }
    Ok(scan.refusal())
}

/// The step of a frame with this head.
#[tactic(none)]
fn step_of(head: &HeadInfo) -> Step
    ensures { result ≡ step_of_head head.now }
{
    let HeadInfo { key, form, len, .. } = *head;
    if head.op.is_control() {
        return Step::Control { key };
    }
    if head.fin {
        return Step::Last { key, form };
    }
    Step::Piece { len, key, form }
}

/// The answer for an input with this verdict, by the plan of its frames.
#[tactic(none)]
fn answer_of<A: Allocator>(verdict: Verdict, plan: Plan<A>) -> PlanAnswer<A>
    ensures { IsAnswerWith verdict plan result }
{
    match verdict {
        Verdict::Accepted(summary) if summary.unfinished.is_some() => PlanAnswer::Unfinished,
        Verdict::Accepted(_) => PlanAnswer::Plan(plan),
        Verdict::Cut(_) | Verdict::Refused(_) => PlanAnswer::NotAccepted(verdict),
    }
}
