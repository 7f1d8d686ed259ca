ghost use Rattle.std.specs.Prelude.{◌≡◌, ◌⊎◌, false, true, Result, IfSome};
ghost use Rattle.wsn_job.specs.Channels.{channels};
ghost use Rattle.wsn_job.specs.Sides.{MayRunOnSide, IsRunOnSide, IsFaultySide, IsFirstFaultySide, IsSameDiagnosed};
ghost use Rattle.wsn_io.specs.declared.stop.Stop.{Stop};
ghost use Rattle.wsn_rules.specs.declared.compared.Compared.{Compared};
ghost use Rattle.wsn_job.specs.Comparisons.{compared_channels, IsComparisonPrinted};
ghost use Rattle.wsn_print.specs.Statuses.{comparison_status};

use crate::answers;
use crate::comparisons::print_comparison;
use crate::diagnostics::{diagnose_if_stopped, diagnose_line_fault};
use crate::running::work;
use crate::streams::ComparedStreams;
use std::alloc::Allocator;
use std::io::{Read, Write};
use wsn_capture::{CaptureStop, LineFault, SideReader};
use wsn_command::{Answer, Comparison, Job, Ran};
use wsn_events::Compared;
use wsn_io::{Input, Output, Stop};
use wsn_print::status_of_comparison;

/// A line of a capture that isn't accepted: its number, counted from 1, and its first fault.
#[derive(Clone, Copy)]
struct FaultyLine {
    number: u32,
    fault: LineFault,
}

impl FaultyLine {
    ghost use Rattle.wsn_job.specs.Diagnostics.{IsDiagnosed};
    ghost use Rattle.wsn_print.specs.FaultText.{line_fault_line};
    ghost use Rattle.wsn_capture.specs.LineFaults.{fault_word};

    /// Writes `line N: WORD` to `errors`.
    #[tactic(none)]
    fn diagnose<E: Write>(&self, errors: &mut Output<E>)
        ensures { IsDiagnosed errors.old errors.new (line_fault_line self.now.number (fault_word self.now.fault)) }
    {
        diagnose_line_fault(errors, self.number, self.fault);
    }
}

/// Does a command's work over one endpoint's side of a capture, as [`crate::run`] does it over a stream, and returns the
/// program's exit status and the answer.
///
/// A line of the capture that isn't accepted ends the work as a failed read does, with status 2, after the bytes of the
/// lines before it; `errors` reports the line, as `line N: WORD`, in the place of `read failed`, and the answer is
/// `FaultyLine`.
#[tactic(none)]
pub fn run_on_side<A: Allocator + Copy, R: Read, W: Write, E: Write>(
    alloc: A,
    job: &Job<A>,
    side: &mut Input<SideReader<R>>,
    output: &mut Output<W>,
    errors: &mut Output<E>,
) -> Ran
    requires readable { side.old.failed ≡ false }
    requires writable { output.old.failed ≡ false }
    requires may_run { MayRunOnSide job.now }
    ensures done { IsRunOnSide job.now (channels side.old output.old errors.old)
        (channels side.new output.new errors.new) result }
    ensures status { (result.status ≡ 0) ⊎ (result.status ≡ 1) ⊎ (result.status ≡ 2) }

    // A failed read, as at a faulty line, or a failed write always gives status 2.
    ensures read { side.new.failed ≡ true → result.status ≡ 2 }
    ensures write { output.new.failed ≡ true → result.status ≡ 2 }
{
    let done = work(alloc, job, side, output);
    match faulty_line(side) {
        Some(line) => {
            line.diagnose(errors);
            Ran {
                status: done.status(),
                answer: Answer::FaultyLine,
            }
        }
        None => {
            done.diagnose(errors);
            done.ran()
        }
    }
}

/// Compares two sides of captures, both of endpoints of one role, as [`crate::run_same`] compares two streams.
///
/// A line that isn't accepted ends the comparison as a failed read does, with status 2, and `errors` reports the line in
/// the place of `read failed`, of the first side, if its reads failed; the answer is `FaultyLine`.
#[tactic(none)]
pub fn run_same_on_sides<A: Allocator + Copy, R: Read, S: Read, W: Write, E: Write>(
    alloc: A,
    sides: &mut ComparedStreams<SideReader<R>, SideReader<S>>,
    comparison: Comparison,
    output: &mut Output<W>,
    errors: &mut Output<E>,
) -> Ran
    requires first { sides.old.first.failed ≡ false }
    requires second { sides.old.second.failed ≡ false }
    requires writable { output.old.failed ≡ false }
    ensures done { (done : Result Compared Stop)
        × IsComparisonPrinted comparison (compared_channels sides.old.first sides.old.second output.old)
        (compared_channels sides.new.first sides.new.second output.new) done
        × (result.status ≡ comparison_status done)
        × IsSameDiagnosed sides.new.first sides.new.second done result.answer errors.old errors.new }
    ensures status { (result.status ≡ 0) ⊎ (result.status ≡ 1) ⊎ (result.status ≡ 2) }

    // A failed read, as at a faulty line, or a failed write always gives status 2.
    ensures read { sides.new.first.failed ≡ true → result.status ≡ 2 }
    ensures read_second { sides.new.second.failed ≡ true → result.status ≡ 2 }
    ensures write { output.new.failed ≡ true → result.status ≡ 2 }
{
    let done = print_comparison(alloc, sides, comparison, output);
    let status = status_of_comparison(done);
    match faulty_line_of_two(done, &sides.first, &sides.second) {
        Some(line) => {
            line.diagnose(errors);
            Ran {
                status,
                answer: Answer::FaultyLine,
            }
        }
        None => {
            diagnose_if_stopped(done, errors);
            Ran {
                status,
                answer: answers::of_comparison(done),
            }
        }
    }
}

/// The faulty line at which a comparison of two sides stopped, if it stopped at a failed read: that of the first side, if
/// a read of that one failed.
#[tactic(none)]
fn faulty_line_of_two<R: Read, S: Read>(
    done: Result<Compared, Stop>,
    first: &Input<SideReader<R>>,
    second: &Input<SideReader<S>>,
) -> Option<FaultyLine>
    ensures { IfSome result (λ line. (done ≡ Err Stop.Read)
        × IsFirstFaultySide first.now second.now line.number line.fault) }
{
    match done {
        Err(Stop::Read) if first.failed() => faulty_line(first),
        Err(Stop::Read) => faulty_line(second),
        _ => None,
    }
}

/// The faulty line at which the reads of a side failed, if they failed at a line.
#[tactic(none)]
fn faulty_line<R: Read>(side: &Input<SideReader<R>>) -> Option<FaultyLine>
    ensures { IfSome result (λ line. IsFaultySide side.now line.number line.fault) }
{
    if !side.failed() {
        return None;
    }
    let Some(reader) = side.reader() else {
        return None;
    };
    match reader.stop() {
        Some(CaptureStop::Line { number, fault }) => Some(FaultyLine { number, fault }),
        Some(CaptureStop::Read) | None => None,
    }
}
