//! A report for people: what it means in sentences, and the command to type next.
ghost use Rattle.std.specs.Prelude.{◌≡◌, ◌+◌, ◌≤◌, ◌++◌, false, codes, length};
ghost use Rattle.wsn_io.specs.Stops.{IsWrittenOrStops};
ghost use Rattle.wsn_print.specs.PeopleReport.{meaning_lines, people_report};

mod ended_streams;
mod refused_streams;
mod words;

use crate::line::Line;
use crate::reports::put_report;
use ended_streams::{closer, push_abnormal, push_closed, push_half};
use refused_streams::push_failed;
use std::io::Write;
use words::{MEANING_MAX, push_explain};
use wsn_io::{Output, Stop, put_line};
use wsn_rules::{Outcome, Report};

/// Writes a report for people: the seven lines of [`put_report`], then what they mean in sentences, and the command to
/// type next, such as `Next: wsn explain text-bad`. `Stop::Write` if the writer fails: a prefix of the lines was written.
pub fn put_people_report<W: Write>(to: &mut Output<W>, report: &Report) -> Result<(), Stop>
    requires { to.old.failed ≡ false }
    ensures { IsWrittenOrStops to.old to.new (people_report report.now) result }
{
    put_report(to, report)?;
    let mut lines = Line::new();
    push_meaning(&mut lines, report.outcome, report);
    put_line(to, lines.bytes())
}

/// Appends what a report with this outcome means.
fn push_meaning(lines: &mut Line<MEANING_MAX>, outcome: Outcome, report: &Report)
    requires { length lines.old + 530 ≤ MEANING_MAX }
    ensures { lines.new ≡ lines.old ++ meaning_lines outcome report.now }
{
    match outcome {
        Outcome::Failed => push_failed(lines, &report.client, &report.server),
        Outcome::Clean => {
            push_closed(
                lines,
                closer(report.first),
                report,
                "Both directions then ended.",
            );
        }
        Outcome::Complete => push_closed(
            lines,
            closer(report.first),
            report,
            "The capture lacks the end of a direction.",
        ),
        Outcome::Abnormal => push_abnormal(lines, &report.client, &report.server),
        Outcome::Half => push_half(lines, closer(report.first), report),
        Outcome::Live => {
            lines.push("Nothing is wrong so far: no side has closed, and no direction has ended.");
            lines.push("\n");
            push_explain(lines, "open");
        }
    }
}
