ghost use Rattle.std.specs.Prelude.{◌≡◌, ◌⊎◌, false, true};
ghost use Rattle.std.specs.Str.{IsUtf8};
ghost use Rattle.wsn_job.specs.Channels.{channels};
ghost use Rattle.wsn_job.specs.Closings.{IsReportPrinted, IsNamedReportPrinted, IsNamedClosingRun, IsClosingDiagnosed, closing_status, closing_stop_line};
ghost use Rattle.wsn_job.specs.Diagnostics.{IsDiagnosed};

use crate::diagnostics::{diagnose_line_fault, diagnose_stop};
use std::io::{Read, Write};
use wsn_capture::{CaptureReport, CaptureStop, read_capture};
use wsn_io::{Input, Output, Stop};
use wsn_print::{Format, put_named_report, put_report_as, status_of_outcome};
use wsn_scan::Limits;
use wsn_show::ShowStop;

/// What is asked of one of several captures: how its connection closed.
#[derive(Clone, Copy)]
pub struct NamedClosing<'a> {
    /// The name of its file.
    pub name: &'a str,
    /// The limits for reading the streams of both endpoints.
    pub limits: Limits,
    /// The format of the report.
    pub format: Format,
    ghost text: { ∥ IsUtf8 name.now ∥₁ },
}

/// Judges one of several captures, and prints the report in one line with the name of its file; returns the program's exit
/// status for this capture.
///
/// 0: both sides of the connection sent a Close. 1: any other report. 2: a stop, which is reported in one line on
/// `errors`, as [`run`](crate::run) reports it. What can't be written to `errors` is dropped.
pub fn run_named_closing<R: Read, W: Write, E: Write>(
    closing: &NamedClosing<'_>,
    input: &mut Input<R>,
    output: &mut Output<W>,
    errors: &mut Output<E>,
) -> u8
    requires readable { input.old.failed ≡ false }
    requires writable { output.old.failed ≡ false }
    ensures done { IsNamedClosingRun closing.now.format closing.now.name.now closing.now.limits
        (channels input.old output.old errors.old) (channels input.new output.new errors.new) result }
    ensures status { (result ≡ 0) ⊎ (result ≡ 1) ⊎ (result ≡ 2) }

    // A failed read or write always gives status 2.
    ensures read { input.new.failed ≡ true → result ≡ 2 }
    ensures write { output.new.failed ≡ true → result ≡ 2 }
{
    let done = print_named_report(closing, input, output);
    diagnose_closing(done, errors);
    status(done)
}

/// Prints the report of the capture on the input, in one line with the name of its file.
#[tactic(none)]
fn print_named_report<R: Read, W: Write>(
    closing: &NamedClosing<'_>,
    input: &mut Input<R>,
    output: &mut Output<W>,
) -> Result<CaptureReport, ShowStop>
    requires readable { input.old.failed ≡ false }
    requires writable { output.old.failed ≡ false }
    ensures { IsNamedReportPrinted closing.now.format closing.now.name.now closing.now.limits input.old input.new
        output.old output.new result }
{
    let read = read_capture(input, closing.limits).map_err(ShowStop::Capture)?;
    match put_named_report(output, closing.format, closing.name, &read.report) {
        Ok(()) => Ok(read),
        Err(_) => Err(ShowStop::Write),
    }
}

/// Prints the report of the capture on the input.
#[tactic(none)]
pub(crate) fn print_report<R: Read, W: Write>(
    input: &mut Input<R>,
    limits: Limits,
    format: Format,
    output: &mut Output<W>,
) -> Result<CaptureReport, ShowStop>
    requires readable { input.old.failed ≡ false }
    requires writable { output.old.failed ≡ false }
    ensures { IsReportPrinted format limits input.old input.new output.old output.new result }
{
    let read = read_capture(input, limits).map_err(ShowStop::Capture)?;
    match put_report_as(output, format, &read.report) {
        Ok(()) => Ok(read),
        Err(_) => Err(ShowStop::Write),
    }
}

/// Writes the line of a stop, if there is one, to `errors`.
#[tactic(none)]
pub(crate) fn diagnose_closing<E: Write>(
    done: Result<CaptureReport, ShowStop>,
    errors: &mut Output<E>,
)
    ensures { IsClosingDiagnosed done errors.old errors.new }
{
    if let Err(stop) = done {
        diagnose_closing_stop(errors, stop);
    }
}

/// Writes the line of a stop to `errors`.
#[tactic(none)]
fn diagnose_closing_stop<E: Write>(errors: &mut Output<E>, stop: ShowStop)
    ensures { IsDiagnosed errors.old errors.new (closing_stop_line stop) }
{
    match stop {
        ShowStop::Capture(CaptureStop::Read) => diagnose_stop(errors, Stop::Read),
        ShowStop::Capture(CaptureStop::Line { number, fault }) => {
            diagnose_line_fault(errors, number, fault);
        }
        ShowStop::Write => diagnose_stop(errors, Stop::Write),
    }
}

/// The exit status for a report or a stop.
pub(crate) fn status(done: Result<CaptureReport, ShowStop>) -> u8
    ensures { result ≡ closing_status done }
{
    match done {
        Ok(read) => status_of_outcome(read.report.outcome),
        Err(_) => 2,
    }
}
