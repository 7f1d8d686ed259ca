ghost use Rattle.std.specs.Prelude.{◌≡◌, false};
ghost use Rattle.wsn_io.specs.Stops.{IsWrittenOrStops};
ghost use Rattle.wsn_print.specs.Formats.{verdict_text, report_text, comparison_text};

use crate::comparisons::put_compared;
use crate::objects::{put_compared_object, put_report_object, put_verdict_object};
use crate::people_reports::put_people_report;
use crate::reports::put_report;
use crate::verdicts::put_verdict;
use std::io::Write;
use wsn_io::{Output, Stop};
use wsn_rules::{Compared, Report, Verdict};

/// The format of answers.
#[derive(Clone, Copy, Debug, PartialEq, Eq)]
pub enum Format {
    /// Lines of words.
    Text,
    /// What `show` prints in columns and sentences, for people; any other answer in lines of words.
    People,
    /// One JSON object a line.
    Json,
}

/// Writes a verdict in a format. `Stop::Write` if the writer fails: a prefix of the line was written.
pub fn put_verdict_as<W: Write>(
    to: &mut Output<W>,
    format: Format,
    verdict: &Verdict,
) -> Result<(), Stop>
    requires { to.old.failed ≡ false }
    ensures { IsWrittenOrStops to.old to.new (verdict_text format verdict.now) result }
{
    match format {
        Format::Text | Format::People => put_verdict(to, verdict),
        Format::Json => put_verdict_object(to, verdict),
    }
}

/// Writes a report in a format. `Stop::Write` if the writer fails: a prefix of the text was written.
pub fn put_report_as<W: Write>(
    to: &mut Output<W>,
    format: Format,
    report: &Report,
) -> Result<(), Stop>
    requires { to.old.failed ≡ false }
    ensures { IsWrittenOrStops to.old to.new (report_text format report.now) result }
{
    match format {
        Format::Text => put_report(to, report),
        Format::People => put_people_report(to, report),
        Format::Json => put_report_object(to, report),
    }
}

/// Writes a comparison in a format. `Stop::Write` if the writer fails: a prefix of the line was written.
pub fn put_compared_as<W: Write>(
    to: &mut Output<W>,
    format: Format,
    compared: Compared,
) -> Result<(), Stop>
    requires { to.old.failed ≡ false }
    ensures { IsWrittenOrStops to.old to.new (comparison_text format compared) result }
{
    match format {
        Format::Text | Format::People => put_compared(to, compared),
        Format::Json => put_compared_object(to, &compared),
    }
}
