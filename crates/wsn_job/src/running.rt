ghost use Rattle.std.specs.Prelude.{◌≡◌, ◌⊎◌, false, true};
ghost use Rattle.wsn_command.specs.Jobs.{MayRun};
ghost use Rattle.wsn_job.specs.Channels.{channels};
ghost use Rattle.wsn_job.specs.Work.{IsDone, IsRun, done_status};

use crate::done::Done;
use crate::plans::print_plan;
use crate::printed_closings::print_report;
use crate::recuts::recut_input;
use crate::shows::{show_capture, show_one_stream};
use crate::verdicts::print_verdict;
use std::alloc::Allocator;
use std::io::{Read, Write};
use wsn_command::{Job, Ran};
use wsn_events::normalise;
use wsn_io::{Input, Output};
use wsn_parts::{list_as, payload};
use wsn_redact::{redact, redact_capture};

/// Does a command's work and returns the program's exit status and the answer.
///
/// Status 0: the command did its work on an accepted stream, or both sides of the connection sent a Close, or a stream
/// or a capture was redacted. 1: any other answer; one that isn't printed on `output` is reported in one line on `errors`.
/// 2: a stop, which is reported in one line on `errors`. What can't be written to `errors` is dropped.
#[tactic(none)]
pub fn run<A: Allocator + Copy, R: Read, W: Write, E: Write>(
    alloc: A,
    job: &Job<A>,
    input: &mut Input<R>,
    output: &mut Output<W>,
    errors: &mut Output<E>,
) -> Ran
    requires readable { input.old.failed ≡ false }
    requires writable { output.old.failed ≡ false }
    requires may_run { MayRun job.now }
    ensures done { IsRun job.now (channels input.old output.old errors.old)
        (channels input.new output.new errors.new) result }
    ensures status { (result.status ≡ 0) ⊎ (result.status ≡ 1) ⊎ (result.status ≡ 2) }

    // A failed read or write always gives status 2.
    ensures read { input.new.failed ≡ true → result.status ≡ 2 }
    ensures write { output.new.failed ≡ true → result.status ≡ 2 }
{
    let done = work(alloc, job, input, output);
    done.diagnose(errors);
    done.ran()
}

/// Does a command's work, but for what it says on standard error.
#[tactic(none)]
pub(crate) fn work<A: Allocator + Copy, R: Read, W: Write>(
    alloc: A,
    job: &Job<A>,
    input: &mut Input<R>,
    output: &mut Output<W>,
) -> Done<A>
    requires readable { input.old.failed ≡ false }
    requires writable { output.old.failed ≡ false }
    requires may_run { MayRun job.now }
    ensures done { IsDone job.now input.old input.new output.old output.new result }
    ensures status { (done_status result ≡ 0) ⊎ (done_status result ≡ 1) ⊎ (done_status result ≡ 2) }
    ensures read { input.new.failed ≡ true → done_status result ≡ 2 }
    ensures write { output.new.failed ≡ true → done_status result ≡ 2 }
{
    match job {
        Job::Judge(role, limits, format) => {
            Done::Judge(print_verdict(input, *role, *limits, *format, output))
        }
        Job::Frames(role, limits, format) => {
            Done::Frames(list_as(input, output, *role, *limits, *format))
        }
        Job::Normal(role, limits) => {
            Done::Normal(normalise(alloc, input, output, *role, *limits))
        }
        Job::Redact(role, limits) => Done::Redact(redact(input, output, *role, *limits)),
        Job::Plan(role, limits) => Done::Plan(print_plan(alloc, input, *role, *limits, output)),
        Job::Recut(role, limits, how) => {
            Done::Recut(recut_input(alloc, input, *role, *limits, how, output))
        }
        Job::Payload(role, limits, at) => {
            Done::Payload(*at, payload(input, output, *role, *limits, *at))
        }
        Job::ShowStream(role, limits, style) => {
            show_one_stream(alloc, input, *role, *limits, *style, output)
        }
        Job::Closing(limits, format) => {
            Done::Closing(print_report(input, *limits, *format, output))
        }
        Job::Show(limits, style) => show_capture(alloc, input, *limits, *style, output),
        Job::RedactCapture(limits) => Done::RedactCapture(redact_capture(input, output, *limits)),
    }
}
