ghost use Rattle.std.specs.Prelude.{◌≡◌, false};
ghost use Rattle.wsn_print.specs.VerdictText.{verdict_line};
ghost use Rattle.wsn_job.specs.Diagnostics.{IsDiagnosed, IsStopDiagnosed};
ghost use Rattle.wsn_print.specs.FaultText.{stop_line, line_fault_line};
ghost use Rattle.wsn_capture.specs.LineFaults.{fault_word};

use std::io::Write;
use wsn_capture::LineFault;
use wsn_io::{Output, Stop};
use wsn_print::{line_of_line_fault, line_of_stop, put_verdict};
use wsn_rules::Verdict;

/// Writes a line to `errors`. What can't be written is dropped, and after a failed write nothing more is written.
#[tactic(none)]
pub fn diagnose<E: Write>(errors: &mut Output<E>, line: &[u8])
    ensures { IsDiagnosed errors.old errors.new line.now }
{
    if !errors.failed() {
        let _ = errors.put(line);
    }
}

/// Writes a verdict's line to `errors` in the same way.
#[tactic(none)]
pub fn diagnose_verdict<E: Write>(errors: &mut Output<E>, verdict: &Verdict)
    ensures { IsDiagnosed errors.old errors.new (verdict_line verdict.now) }
{
    if !errors.failed() {
        let _ = put_verdict(errors, verdict);
    }
}

/// Writes a stop's line to `errors` in the same way.
pub fn diagnose_stop<E: Write>(errors: &mut Output<E>, stop: Stop)
    ensures { IsDiagnosed errors.old errors.new (stop_line stop) }
{
    diagnose(errors, line_of_stop(stop).bytes());
}

/// Writes the line of a capture's faulty line in the same way: its number, counted from 1, and its fault.
#[tactic(none)]
pub fn diagnose_line_fault<E: Write>(errors: &mut Output<E>, number: u32, fault: LineFault)
    ensures { IsDiagnosed errors.old errors.new (line_fault_line number (fault_word fault)) }
{
    diagnose(errors, line_of_line_fault(number, fault.word()).bytes());
}

/// Writes the line of a stop, if there is one, as [`diagnose`] does.
#[tactic(none)]
pub fn diagnose_if_stopped<T: Copy, E: Write>(done: Result<T, Stop>, errors: &mut Output<E>)
    ensures { IsStopDiagnosed done errors.old errors.new }
{
    if let Err(stop) = done {
        diagnose_stop(errors, stop);
    }
}
