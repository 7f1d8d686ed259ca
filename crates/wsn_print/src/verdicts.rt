ghost use Rattle.std.specs.Prelude.{◌≡◌, false};
ghost use Rattle.wsn_io.specs.Stops.{IsWrittenOrStops};
ghost use Rattle.wsn_print.specs.VerdictText.{verdict_line};

use crate::line::Line;
use std::io::Write;
use wsn_io::{Output, Stop, put_line};
use wsn_rules::{Refusal, Summary, Verdict};

/// The maximum length in bytes of the line of a verdict: of an accepted stream, with three numbers of twenty digits.
const VERDICT_LINE_MAX: usize = 88;

/// Writes a verdict in one line, such as `accepted 11 tail 0 unfinished -`, `cut 2` or `refused 5 text-bad 1007`.
/// `Stop::Write` if the writer fails: a prefix of the line was written.
pub fn put_verdict<W: Write>(to: &mut Output<W>, verdict: &Verdict) -> Result<(), Stop>
    requires { to.old.failed ≡ false }
    ensures { IsWrittenOrStops to.old to.new (verdict_line verdict.now) result }
{
    put_line(to, line_of_verdict(verdict).bytes())
}

/// The line of a verdict, as [`put_verdict`] writes it.
pub(crate) fn line_of_verdict(verdict: &Verdict) -> Line<VERDICT_LINE_MAX>
    ensures { result ≡ verdict_line verdict.now }
{
    match verdict {
        Verdict::Accepted(summary) => line_of_accepted(summary),
        Verdict::Cut(summary) => line_of_cut(summary),
        Verdict::Refused(refusal) => line_of_refused(refusal),
    }
}

fn line_of_accepted(summary: &Summary) -> Line<VERDICT_LINE_MAX>
    ensures { result ≡ verdict_line (Verdict.Accepted summary.now) }
{
    let mut line = Line::new();
    line.push("accepted ");
    line.push_number(summary.used);
    line.push(" tail ");
    line.push_number(summary.tail);
    line.push(" unfinished ");
    line.push_number_or_dash(summary.unfinished.map(u64::from));
    line.push("\n");
    line
}

fn line_of_cut(summary: &Summary) -> Line<VERDICT_LINE_MAX>
    ensures { result ≡ verdict_line (Verdict.Cut summary.now) }
{
    let mut line = Line::new();
    line.push("cut ");
    line.push_number(summary.used);
    line.push("\n");
    line
}

fn line_of_refused(refusal: &Refusal) -> Line<VERDICT_LINE_MAX>
    ensures { result ≡ verdict_line (Verdict.Refused refusal.now) }
{
    let mut line = Line::new();
    line.push_refusal(refusal);
    line.push("\n");
    line
}
