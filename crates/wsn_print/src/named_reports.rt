ghost use Rattle.std.specs.Prelude.{◌≡◌, ◌+◌, ◌≤◌, ◌++◌, false, codes, drop, length};
ghost use Rattle.wsn_io.specs.Stops.{IsWrittenOrStops};
ghost use Rattle.wsn_print.specs.NamedReportText.{named_report_line, named_report_object, named_report_text, outcome_columns};
ghost use Rattle.wsn_print.specs.Objects.{report_object};
ghost use Rattle.wsn_print.specs.ReportText.{side_text};

use crate::format::Format;
use crate::line::Line;
use crate::objects::line_of_report;
use crate::quoted::{put_comment_text, put_quoted_characters};
use crate::reports::outcome_word;
use std::io::Write;
use wsn_io::{Output, Stop, put_line};
use wsn_rules::{Report, Side};

/// The space for the columns of a report in bytes: two refused streams, with offsets of twenty digits, fit.
const COLUMNS_MAX: usize = 160;

/// Writes the report on one of several captures in one line, with the name of its file: in text the name, the outcome,
/// and what became of the client's and of the server's stream, between tabs, such as `a.capture`, `clean`, `closed 1000`,
/// `closed 1000`; as JSON an object. Hidden characters of the name are escaped, and in text a backslash is doubled.
/// `Stop::Write` if the writer fails: a prefix of the line was written.
pub fn put_named_report<W: Write>(
    to: &mut Output<W>,
    format: Format,
    name: &str,
    report: &Report,
) -> Result<(), Stop>
    requires { to.old.failed ≡ false }
    ensures { IsWrittenOrStops to.old to.new (named_report_text format name.now report.now) result }
{
    match format {
        Format::Text | Format::People => put_named_line(to, name, report),
        Format::Json => put_named_object(to, name, report),
    }
}

fn put_named_line<W: Write>(to: &mut Output<W>, name: &str, report: &Report) -> Result<(), Stop>
    requires { to.old.failed ≡ false }
    ensures { IsWrittenOrStops to.old to.new (named_report_line name.now report.now) result }
{
    put_comment_text(to, name.as_bytes())?;
    let mut line = columns_of(report);
    line.push("\n");
    put_line(to, line.bytes())
}

fn put_named_object<W: Write>(to: &mut Output<W>, name: &str, report: &Report) -> Result<(), Stop>
    requires { to.old.failed ≡ false }
    ensures { IsWrittenOrStops to.old to.new (named_report_object name.now report.now) result }
{
    put_line(to, b"{\"file\":\"")?;
    put_quoted_characters(to, name)?;
    put_line(to, b"\",")?;
    put_line(to, &line_of_report(report).bytes()[1..])
}

/// The outcome and what became of both streams, each after a tab.
fn columns_of(report: &Report) -> Line<COLUMNS_MAX>
    ensures text { result ≡ outcome_columns report.now }
    ensures len { length result + 1 ≤ COLUMNS_MAX }
{
    let mut line = Line::new();
    line.push("\t");
    line.push(outcome_word(report.outcome));
    line.push("\t");
    push_state(&mut line, &report.client);
    line.push("\t");
    push_state(&mut line, &report.server);
    line
}

/// Appends what became of a stream.
fn push_state(line: &mut Line<COLUMNS_MAX>, side: &Side)
    requires { length line.old + 69 ≤ COLUMNS_MAX }
    ensures text { line.new ≡ line.old ++ side_text side.now }
    ensures len { length line.new ≤ length line.old + 69 }
{
    match side {
        Side::Closed(code) => push_closed(line, *code),
        Side::Refused(refusal) => line.push_refusal(refusal),
        Side::Ended => line.push("ended"),
        Side::Cut => line.push("cut"),
        Side::Running => line.push("running"),
    }
}

/// Appends that a stream has a Close, with this code.
fn push_closed(line: &mut Line<COLUMNS_MAX>, code: Option<u16>)
    requires { length line.old + 69 ≤ COLUMNS_MAX }
    ensures text { line.new ≡ line.old ++ side_text (Side.Closed code) }
    ensures len { length line.new ≤ length line.old + 69 }
{
    line.push("closed ");
    match code {
        Some(code) => line.push_number(u64::from(code)),
        None => line.push("-"),
    }
}
