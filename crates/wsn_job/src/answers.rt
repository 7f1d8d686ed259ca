//! What a run answered, by what its work came to.

ghost use Rattle.std.specs.Prelude.{◌≡◌};
ghost use Rattle.wsn_job.specs.Answers.{verdict_answer, plan_answer, recut_answer, payload_answer, report_answer, redacted_answer, compared_answer};

use std::alloc::Allocator;
use wsn_capture::{CaptureReport, CaptureStop};
use wsn_command::Answer;
use wsn_events::Compared;
use wsn_io::Stop;
use wsn_parts::Payload;
use wsn_plan::{PlanAnswer, RecutAnswer};
use wsn_redact::RedactStop;
use wsn_rules::Verdict;
use wsn_show::ShowStop;

/// The verdict, unless the work stopped.
pub(crate) fn of_verdict(done: Result<Verdict, Stop>) -> Answer
    ensures { result ≡ verdict_answer done }
{
    match done {
        Ok(verdict) => Answer::Verdict(verdict),
        Err(_) => Answer::Stopped,
    }
}

/// The verdict on a stream of which there is no plan for its sake.
pub(crate) fn of_plan<A: Allocator>(done: &Result<PlanAnswer<A>, Stop>) -> Answer
    ensures { result ≡ plan_answer done.now }
{
    match done {
        Ok(PlanAnswer::NotAccepted(verdict)) => Answer::Verdict(*verdict),
        Ok(PlanAnswer::Plan(_) | PlanAnswer::Unfinished) => Answer::Other,
        Err(_) => Answer::Stopped,
    }
}

/// The verdict on a stream that isn't recut for its sake.
pub(crate) fn of_recut(done: Result<RecutAnswer, Stop>) -> Answer
    ensures { result ≡ recut_answer done }
{
    match done {
        Ok(RecutAnswer::NotAccepted(verdict)) => Answer::Verdict(verdict),
        Ok(RecutAnswer::Done | RecutAnswer::Fault { .. }) => Answer::Other,
        Err(_) => Answer::Stopped,
    }
}

/// The verdict on a stream that was read to its end or to a refusal.
pub(crate) fn of_payload(done: Result<Payload, Stop>) -> Answer
    ensures { result ≡ payload_answer done }
{
    match done {
        Ok(Payload::Unfinished(verdict)) => Answer::Verdict(verdict),
        Ok(Payload::Head { verdict, .. }) => Answer::Verdict(verdict),
        Ok(Payload::Nothing(verdict)) => Answer::Verdict(verdict),
        Ok(Payload::Whole | Payload::Inside(_)) => Answer::Other,
        Err(_) => Answer::Stopped,
    }
}

/// The report, with the bytes after both Closes, unless the work stopped; a line that isn't accepted is a stop of its own.
pub(crate) fn of_report(done: Result<CaptureReport, ShowStop>) -> Answer
    ensures { result ≡ report_answer done }
{
    match done {
        Ok(read) => Answer::Report(read),
        Err(ShowStop::Capture(CaptureStop::Line { .. })) => Answer::FaultyLine,
        Err(ShowStop::Capture(CaptureStop::Read)) => Answer::Stopped,
        Err(ShowStop::Write) => Answer::Stopped,
    }
}

/// That a capture's redaction is written, unless the work stopped; a line that isn't accepted is a stop of its own.
pub(crate) fn of_redaction(done: Result<(), RedactStop>) -> Answer
    ensures { result ≡ redacted_answer done }
{
    match done {
        Ok(()) => Answer::Other,
        Err(RedactStop::Capture(CaptureStop::Line { .. })) => Answer::FaultyLine,
        Err(RedactStop::Capture(CaptureStop::Read)) => Answer::Stopped,
        Err(RedactStop::Write) => Answer::Stopped,
    }
}

/// The verdict on the stream that isn't accepted, if one isn't.
pub(crate) fn of_comparison(done: Result<Compared, Stop>) -> Answer
    ensures { result ≡ compared_answer done }
{
    match done {
        Ok(Compared::NotAccepted { verdict, .. }) => Answer::Verdict(verdict),
        Ok(Compared::Equal | Compared::Different(_)) => Answer::Other,
        Err(_) => Answer::Stopped,
    }
}
