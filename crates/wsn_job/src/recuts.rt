ghost use Rattle.std.specs.Prelude.{◌≡◌, false};
ghost use Rattle.wsn_plan.specs.Recutting.{IsRecut};
ghost use Rattle.wsn_job.specs.Recuts.{IsRecutDiagnosed, planned_by, recut_status};
ghost use Rattle.wsn_command.specs.Jobs.{MayRecut};

use crate::diagnostics::{diagnose, diagnose_stop, diagnose_verdict};
use std::alloc::Allocator;
use std::io::{Read, Write};
use wsn_command::How;
use wsn_io::{Input, Output, Stop};
use wsn_plan::{RecutAnswer, UniformFrames, recut, recut_uniform};
use wsn_print::line_of_recut_fault;
use wsn_scan::Limits;
use wsn_wire::Role;

/// Writes the stream's meaning in other frames, by a plan or by size.
pub(crate) fn recut_input<A: Allocator + Copy, R: Read, W: Write>(
    alloc: A,
    input: &mut Input<R>,
    role: Role,
    limits: Limits,
    how: &How<A>,
    output: &mut Output<W>,
) -> Result<RecutAnswer, Stop>
    requires readable { input.old.failed ≡ false }
    requires writable { output.old.failed ≡ false }
    requires may_recut { MayRecut role how.now }
    ensures { IsRecut role limits (planned_by how.now) input.old input.new output.old output.new result }
{
    match how {
        How::ByPlan(plan) => recut(alloc, input, output, role, limits, plan),
        How::BySize { size, weave, key } => {
            let frames = UniformFrames {
                size: *size,
                weave: *weave,
                key: *key,
            };
            recut_uniform(alloc, input, output, role, limits, frames)
        }
    }
}

/// Writes the line of an answer without a recut, or of a stop, to `errors`.
pub(crate) fn diagnose_answer<E: Write>(done: Result<RecutAnswer, Stop>, errors: &mut Output<E>)
    ensures { IsRecutDiagnosed done errors.old errors.new }
{
    match done {
        Ok(RecutAnswer::Done) => {}
        Ok(RecutAnswer::NotAccepted(verdict)) => diagnose_verdict(errors, &verdict),
        Ok(RecutAnswer::Fault { step, why }) => diagnose(
            errors,
            line_of_recut_fault(step, why).bytes(),
        ),
        Err(stop) => diagnose_stop(errors, stop),
    }
}

/// The exit status for an answer or a stop.
#[tactic(none)]
pub(crate) fn status(done: Result<RecutAnswer, Stop>) -> u8
    ensures { result ≡ recut_status done }
{
    match done {
        Ok(RecutAnswer::Done) => 0,
        Ok(RecutAnswer::NotAccepted(_) | RecutAnswer::Fault { .. }) => 1,
        Err(_) => 2,
    }
}
