ghost use Rattle.std.specs.Prelude.{◌≡◌};
ghost use Rattle.wsn_job.specs.Diagnostics.{IsDiagnosed};
ghost use Rattle.wsn_job.specs.Redactions.{IsRedactDiagnosed, redact_status, redact_stop_line};

use crate::diagnostics::{diagnose_line_fault, diagnose_stop};
use std::io::Write;
use wsn_capture::CaptureStop;
use wsn_io::{Output, Stop};
use wsn_redact::RedactStop;
use wsn_rules::Verdict;

/// The program's exit status.
pub(crate) fn status(done: Result<Verdict, Stop>) -> u8
    ensures { result ≡ redact_status done }
{
    match done {
        Ok(_) => 0,
        Err(_) => 2,
    }
}

/// The program's exit status for a capture.
pub(crate) fn capture_status(done: Result<(), RedactStop>) -> u8
    ensures { result ≡ redact_status done }
{
    match done {
        Ok(()) => 0,
        Err(_) => 2,
    }
}

/// Writes the line of a stop, if there is one, to `errors`.
pub(crate) fn diagnose_redaction<E: Write>(done: Result<(), RedactStop>, errors: &mut Output<E>)
    ensures { IsRedactDiagnosed done errors.old errors.new }
{
    if let Err(stop) = done {
        diagnose_redact_stop(errors, stop);
    }
}

/// Writes the line of a stop to `errors`.
fn diagnose_redact_stop<E: Write>(errors: &mut Output<E>, stop: RedactStop)
    ensures { IsDiagnosed errors.old errors.new (redact_stop_line stop) }
{
    match stop {
        RedactStop::Capture(CaptureStop::Read) => diagnose_stop(errors, Stop::Read),
        RedactStop::Capture(CaptureStop::Line { number, fault }) => {
            diagnose_line_fault(errors, number, fault);
        }
        RedactStop::Write => diagnose_stop(errors, Stop::Write),
    }
}
