use crate::diagnostics::{diagnose_if_stopped, diagnose_stop};
use crate::verdicts::diagnose_unless_accepted;
use crate::{answers, payloads, plans, printed_closings, recuts, redactions};
use std::alloc::Allocator;
use std::io::Write;
use wsn_capture::CaptureReport;
use wsn_command::{Answer, Ran};
use wsn_io::{Output, Stop};
use wsn_parts::Payload;
use wsn_plan::{PlanAnswer, RecutAnswer};
use wsn_print::status_of_verdict;
use wsn_redact::RedactStop;
use wsn_rules::Verdict;
use wsn_show::ShowStop;

/// What a job's work came to: its answer, or the stop that ended it. Nothing of it is on standard error yet.
#[derive(Drop)]
pub(crate) enum Done<A: Allocator> {
    Judge(Result<Verdict, Stop>),
    Frames(Result<Verdict, Stop>),
    Normal(Result<Verdict, Stop>),
    Redact(Result<Verdict, Stop>),
    Plan(Result<PlanAnswer<A>, Stop>),
    Recut(Result<RecutAnswer, Stop>),
    /// With the offset that was asked for.
    Payload(u64, Result<Payload, Stop>),
    ShowStream(Result<Verdict, Stop>),
    Closing(Result<CaptureReport, ShowStop>),
    Show(Result<CaptureReport, ShowStop>),
    RedactCapture(Result<(), RedactStop>),
    /// Nothing was shown, since memory for a view was refused.
    Memory,
}

impl<A: Allocator> Done<A> {
    ghost use Rattle.std.specs.Prelude.{◌≡◌};
    ghost use Rattle.wsn_job.specs.Work.{IsDoneDiagnosed, done_answer, done_ran, done_status};

    /// Writes to `errors` what the job says there: a stop's line, or that of an answer that isn't on standard output.
    #[tactic(none)]
    pub fn diagnose<E: Write>(&self, errors: &mut Output<E>)
        ensures { IsDoneDiagnosed self.now errors.old errors.new }
    {
        match self {
            Done::Judge(done) | Done::Frames(done) | Done::Redact(done) | Done::ShowStream(done) =>
                {
                    diagnose_if_stopped(*done, errors);
                }
            Done::Normal(done) => diagnose_unless_accepted(*done, errors),
            Done::Plan(done) => plans::diagnose_answer(done, errors),
            Done::Recut(done) => recuts::diagnose_answer(*done, errors),
            Done::Payload(at, done) => payloads::diagnose_payload(*at, *done, errors),
            Done::Closing(done) | Done::Show(done) => {
                printed_closings::diagnose_closing(*done, errors);
            }
            Done::RedactCapture(done) => redactions::diagnose_redaction(*done, errors),
            Done::Memory => diagnose_stop(errors, Stop::Memory),
        }
    }

    /// The program's exit status.
    #[tactic(none)]
    pub fn status(&self) -> u8
        ensures { result ≡ done_status self.now }
    {
        match self {
            Done::Judge(done) | Done::Frames(done) | Done::Normal(done) | Done::ShowStream(done) =>
                status_of_verdict(*done),
            Done::Redact(done) => redactions::status(*done),
            Done::Plan(done) => plans::status(done),
            Done::Recut(done) => recuts::status(*done),
            Done::Payload(_, done) => payloads::status(*done),
            Done::Closing(done) | Done::Show(done) => printed_closings::status(*done),
            Done::RedactCapture(done) => redactions::capture_status(*done),
            Done::Memory => 2,
        }
    }

    /// The answer.
    pub fn answer(&self) -> Answer
        ensures { result ≡ done_answer self.now }
    {
        match self {
            Done::Judge(done)
            | Done::Frames(done)
            | Done::Normal(done)
            | Done::Redact(done)
            | Done::ShowStream(done) => answers::of_verdict(*done),
            Done::Plan(done) => answers::of_plan(done),
            Done::Recut(done) => answers::of_recut(*done),
            Done::Payload(_, done) => answers::of_payload(*done),
            Done::Closing(done) | Done::Show(done) => answers::of_report(*done),
            Done::RedactCapture(done) => answers::of_redaction(*done),
            Done::Memory => Answer::Stopped,
        }
    }

    /// What the run came to.
    pub fn ran(&self) -> Ran
        ensures { result ≡ done_ran self.now }
    {
        Ran {
            status: self.status(),
            answer: self.answer(),
        }
    }
}
