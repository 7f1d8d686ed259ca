ghost use Rattle.std.specs.Prelude.{◌≡◌, ◌⊎◌, ℕ, false, true, List, Result, Ok, Some};
ghost use Rattle.wsn_io.specs.Stops.{IsWrittenOrStops};
ghost use Rattle.wsn_events.specs.Excerpts.{HasExcerpts};
ghost use Rattle.wsn_job.specs.Answers.{compared_answer, ran_with};
ghost use Rattle.wsn_job.specs.Comparisons.{compared_channels, IsAnswerText, IsComparisonPrinted};
ghost use Rattle.wsn_io.specs.declared.stop.Stop.{Stop};
ghost use Rattle.wsn_rules.specs.declared.compared.Compared.{Compared};
ghost use Rattle.wsn_print.specs.Statuses.{comparison_status};
ghost use Rattle.wsn_job.specs.Diagnostics.{IsStopDiagnosed};

use crate::answers;
use crate::diagnostics::diagnose_if_stopped;
use crate::streams::ComparedStreams;
use std::alloc::Allocator;
use std::io::{Read, Write};
use wsn_command::{Comparison, Ran};
use wsn_events::{Compared, FirstDifference, contrast};
use wsn_io::{Output, Stop};
use wsn_print::{ViewLimit, put_compared_as, status_of_comparison};
use wsn_shown_text::put_difference_as;

/// Compares the meaning of two streams that endpoints of one role sent, prints the answer, and returns the program's exit
/// status and the answer.
///
/// In words, the answer is the line `equal`, with status 0; `different K`, with status 1, where K is the index, from 0, of
/// the first event that differs; or, for a stream that isn't accepted, `first ` or `second ` and its verdict's line, with
/// status 1. With a view, the lines `first ` and `second ` follow `different K`, each with the stream's event as `show`
/// prints it, or a dash if the stream has no such event. If both have one and the payloads differ, the line
/// `differ-at PLACE VIEW VIEW` says where, with a view of both around that place. A stop gives status 2 and one line on
/// `errors`; what can't be written there is dropped.
#[tactic(none)]
pub fn run_same<A: Allocator + Copy, R: Read, S: Read, W: Write, E: Write>(
    alloc: A,
    streams: &mut ComparedStreams<R, S>,
    comparison: Comparison,
    output: &mut Output<W>,
    errors: &mut Output<E>,
) -> Ran
    requires first { streams.old.first.failed ≡ false }
    requires second { streams.old.second.failed ≡ false }
    requires writable { output.old.failed ≡ false }
    ensures done { (done : Result Compared Stop)
        × IsComparisonPrinted comparison (compared_channels streams.old.first streams.old.second output.old)
        (compared_channels streams.new.first streams.new.second output.new) done
        × (result ≡ ran_with (comparison_status done) (compared_answer done))
        × IsStopDiagnosed done errors.old errors.new }
    ensures status { (result.status ≡ 0) ⊎ (result.status ≡ 1) ⊎ (result.status ≡ 2) }

    // A failed read or write always gives status 2.
    ensures read { streams.new.first.failed ≡ true → result.status ≡ 2 }
    ensures read_second { streams.new.second.failed ≡ true → result.status ≡ 2 }
    ensures write { output.new.failed ≡ true → result.status ≡ 2 }
{
    let done = print_comparison(alloc, streams, comparison, output);
    diagnose_if_stopped(done, errors);
    Ran {
        status: status_of_comparison(done),
        answer: answers::of_comparison(done),
    }
}

/// Compares two streams and prints the answer.
#[tactic(none)]
pub(crate) fn print_comparison<A: Allocator + Copy, R: Read, S: Read, W: Write>(
    alloc: A,
    streams: &mut ComparedStreams<R, S>,
    comparison: Comparison,
    output: &mut Output<W>,
) -> Result<Compared, Stop>
    requires first { streams.old.first.failed ≡ false }
    requires second { streams.old.second.failed ≡ false }
    requires writable { output.old.failed ≡ false }
    ensures { IsComparisonPrinted comparison (compared_channels streams.old.first streams.old.second output.old)
        (compared_channels streams.new.first streams.new.second output.new) result }
{
    let Comparison {
        role,
        limits,
        without,
        ..
    } = comparison;
    let (compared, difference) = contrast(
        alloc,
        &mut streams.first,
        &mut streams.second,
        role,
        limits,
        without,
    )?;
    put_answer(output, comparison, compared, &difference)?;
    Ok(compared)
}

/// Prints an answer, and if the comparison has a view the first events that differ.
#[tactic(none)]
fn put_answer<W: Write>(
    output: &mut Output<W>,
    comparison: Comparison,
    compared: Compared,
    difference: &Option<FirstDifference>,
) -> Result<(), Stop>
    requires { output.old.failed ≡ false }
    ensures { (bytes others : List ℕ) →
        HasExcerpts comparison.without comparison.role comparison.limits bytes others (Ok (compared, difference.now)) →
        (text : List ℕ) × IsAnswerText comparison bytes others compared text
        × IsWrittenOrStops output.old output.new text result }
{
    let Compared::Different(_) = compared else {
        return put_compared_as(output, comparison.format, compared);
    };
    match comparison.view {
        Some(view) => put_seen(output, comparison, view, compared, difference),
        None => put_compared_as(output, comparison.format, compared),
    }
}

/// Prints that the streams differ, and the first events that do, of whose payloads so much is shown.
#[tactic(none)]
fn put_seen<W: Write>(
    output: &mut Output<W>,
    comparison: Comparison,
    view: ViewLimit,
    compared: Compared,
    difference: &Option<FirstDifference>,
) -> Result<(), Stop>
    requires writable { output.old.failed ≡ false }
    requires seen { comparison.view ≡ Some view }
    ensures { (bytes others : List ℕ) (k : ℕ) → compared ≡ Compared.Different k →
        HasExcerpts comparison.without comparison.role comparison.limits bytes others (Ok (compared, difference.now)) →
        (text : List ℕ) × IsAnswerText comparison bytes others compared text
        × IsWrittenOrStops output.old output.new text result }
{
    match difference {
        Some(difference) => put_difference_as(
            output,
            comparison.format,
            view,
            comparison.role,
            &difference.shown(),
        ),
        None => put_compared_as(output, comparison.format, compared),
    }
}
