ghost use Rattle.std.specs.Prelude.{◌≡◌, false};
ghost use Rattle.wsn_job.specs.Plans.{IsPlanPrinted, IsPlanDiagnosed, plan_status};

use crate::diagnostics::{diagnose, diagnose_stop, diagnose_verdict};
use std::alloc::Allocator;
use std::io::{Read, Write};
use wsn_io::{Input, Output, Stop};
use wsn_plan::{PlanAnswer, plan_of, write_plan};
use wsn_print::line_of_unfinished;
use wsn_scan::Limits;
use wsn_wire::Role;

/// Prints the plan of the stream's own frames, if there is one.
#[tactic(none)]
pub(crate) fn print_plan<A: Allocator + Copy, R: Read, W: Write>(
    alloc: A,
    input: &mut Input<R>,
    role: Role,
    limits: Limits,
    output: &mut Output<W>,
) -> Result<PlanAnswer<A>, Stop>
    requires readable { input.old.failed ≡ false }
    requires writable { output.old.failed ≡ false }
    ensures { IsPlanPrinted role limits input.old input.new output.old output.new result }
{
    let answer = plan_of(alloc, input, role, limits)?;
    if let PlanAnswer::Plan(plan) = &answer {
        write_plan(output, plan)?;
    }
    Ok(answer)
}

/// Writes the line of an answer without a plan, or of a stop, to `errors`.
#[tactic(none)]
pub(crate) fn diagnose_answer<A: Allocator, E: Write>(
    done: &Result<PlanAnswer<A>, Stop>,
    errors: &mut Output<E>,
)
    ensures { IsPlanDiagnosed done.now errors.old errors.new }
{
    match done {
        Ok(PlanAnswer::Plan(_)) => {}
        Ok(PlanAnswer::NotAccepted(verdict)) => diagnose_verdict(errors, verdict),
        Ok(PlanAnswer::Unfinished) => diagnose(errors, line_of_unfinished()),
        Err(stop) => diagnose_stop(errors, *stop),
    }
}

/// The exit status for an answer or a stop.
#[tactic(none)]
pub(crate) fn status<A: Allocator>(done: &Result<PlanAnswer<A>, Stop>) -> u8
    ensures { result ≡ plan_status done.now }
{
    match done {
        Ok(PlanAnswer::Plan(_)) => 0,
        Ok(PlanAnswer::NotAccepted(_) | PlanAnswer::Unfinished) => 1,
        Err(_) => 2,
    }
}
