ghost use Rattle.std.specs.Prelude.{◌≡◌, false};
ghost use Rattle.wsn_job.specs.Verdicts.{IsVerdictPrinted};
ghost use Rattle.wsn_job.specs.Diagnostics.{IsVerdictDiagnosed};

use crate::diagnostics::{diagnose_stop, diagnose_verdict};
use std::io::{Read, Write};
use wsn_io::{Input, Output, Stop};
use wsn_print::{Format, put_verdict_as};
use wsn_scan::{Limits, Verdict, judge};
use wsn_wire::Role;

/// Prints the verdict on the input.
#[tactic(none)]
pub(crate) fn print_verdict<R: Read, W: Write>(
    input: &mut Input<R>,
    role: Role,
    limits: Limits,
    format: Format,
    output: &mut Output<W>,
) -> Result<Verdict, Stop>
    requires readable { input.old.failed ≡ false }
    requires writable { output.old.failed ≡ false }
    ensures { IsVerdictPrinted format role limits input.old input.new output.old output.new result }
{
    let verdict = judge(input, role, limits)?;
    put_verdict_as(output, format, &verdict)?;
    Ok(verdict)
}

/// Writes the line of a stop, or of a verdict that isn't accepted, to `errors`.
#[tactic(none)]
pub(crate) fn diagnose_unless_accepted<E: Write>(
    done: Result<Verdict, Stop>,
    errors: &mut Output<E>,
)
    ensures { IsVerdictDiagnosed done errors.old errors.new }
{
    match done {
        Ok(Verdict::Accepted(_)) => {}
        Ok(verdict) => diagnose_verdict(errors, &verdict),
        Err(stop) => diagnose_stop(errors, stop),
    }
}
