ghost use Rattle.std.specs.Prelude.{◌≡◌, ◌+◌, ◌≤◌, [], ◌++◌, false, codes, decimal, length};
ghost use Rattle.wsn_io.specs.Stops.{IsWrittenOrStops};
ghost use Rattle.wsn_print.specs.Fields.{number_text};
ghost use Rattle.wsn_print.specs.ReportText.{report_lines, report_line, side_text, first_text, echo_text, outcome_word};

use crate::line::Line;
use std::io::Write;
use wsn_io::{Output, Stop, put_line};
use wsn_rules::{Outcome, Refusal, Report, Side};
use wsn_wire::Role;

/// The space for a report in bytes: two refused streams, with offsets of twenty digits, fit.
const REPORT_MAX: usize = 280;

/// Writes a report in seven lines, such as `client closed 1000`, `server closed 1000`, `first client`, `echo yes`,
/// `client-sees 1000`, `server-sees 1000`, `outcome clean`. `Stop::Write` if the writer fails: a prefix of the lines
/// was written.
#[tactic(none)]
pub fn put_report<W: Write>(to: &mut Output<W>, report: &Report) -> Result<(), Stop>
    requires { to.old.failed ≡ false }
    ensures { IsWrittenOrStops to.old to.new (report_lines report.now) result }
{
    let mut lines = Line::new();
    push_side(&mut lines, "client ", &report.client);
    push_side(&mut lines, "server ", &report.server);
    push_word(&mut lines, "first ", first_text(report.first));
    push_word(&mut lines, "echo ", echo_text(report.echo));
    push_code(&mut lines, "client-sees ", report.client_sees);
    push_code(&mut lines, "server-sees ", report.server_sees);
    push_word(&mut lines, "outcome ", outcome_word(report.outcome));
    put_line(to, lines.bytes())
}

fn first_text(first: Option<Role>) -> &'static str
    ensures text { result.now ≡ first_text first }
    ensures short { length result.now ≤ 8 }
{
    match first {
        Some(Role::Client) => "client",
        Some(Role::Server) => "server",
        None => "-",
    }
}

fn echo_text(echo: Option<bool>) -> &'static str
    ensures text { result.now ≡ echo_text echo }
    ensures short { length result.now ≤ 8 }
{
    match echo {
        Some(true) => "yes",
        Some(false) => "no",
        None => "-",
    }
}

/// The word for an outcome.
pub(crate) fn outcome_word(outcome: Outcome) -> &'static str
    ensures word { result.now ≡ outcome_word outcome }
    ensures short { length result.now ≤ 8 }
{
    match outcome {
        Outcome::Failed => "failed",
        Outcome::Clean => "clean",
        Outcome::Complete => "complete",
        Outcome::Abnormal => "abnormal",
        Outcome::Half => "half",
        Outcome::Live => "open",
    }
}

/// Appends the line of one side.
fn push_side(lines: &mut Line<REPORT_MAX>, name: &str, side: &Side)
    requires { length lines.old + length name.now + 70 ≤ REPORT_MAX }
    ensures text { lines.new ≡ lines.old ++ report_line name.now (side_text side.now) }
    ensures len { length lines.new ≤ length lines.old + length name.now + 70 }
{
    match side {
        Side::Closed(code) => push_closed(lines, name, *code),
        Side::Refused(refusal) => push_refused(lines, name, refusal),
        Side::Ended => push_word(lines, name, "ended"),
        Side::Cut => push_word(lines, name, "cut"),
        Side::Running => push_word(lines, name, "running"),
    }
}

fn push_closed(lines: &mut Line<REPORT_MAX>, name: &str, code: Option<u16>)
    requires { length lines.old + length name.now + 70 ≤ REPORT_MAX }
    ensures text { lines.new ≡ lines.old ++ report_line name.now (side_text (Side.Closed code)) }
    ensures len { length lines.new ≤ length lines.old + length name.now + 70 }
{
    lines.push(name);
    push_code(lines, "closed ", code);
}

fn push_refused(lines: &mut Line<REPORT_MAX>, name: &str, refusal: &Refusal)
    requires { length lines.old + length name.now + 70 ≤ REPORT_MAX }
    ensures text { lines.new ≡ lines.old ++ report_line name.now (side_text (Side.Refused refusal.now)) }
    ensures len { length lines.new ≤ length lines.old + length name.now + 70 }
{
    lines.push(name);
    lines.push_refusal(refusal);
    lines.push("\n");
}

/// Appends a line with a close code, or a dash for `None`.
fn push_code(lines: &mut Line<REPORT_MAX>, name: &str, code: Option<u16>)
    requires { length lines.old + length name.now + 21 ≤ REPORT_MAX }
    ensures text { lines.new ≡ lines.old ++ report_line name.now (number_text code) }
    ensures len { length lines.new ≤ length lines.old + length name.now + 21 }
{
    match code {
        Some(code) => {
            lines.push(name);
            lines.push_number(u64::from(code));
            lines.push("\n");
        }
        None => push_word(lines, name, "-"),
    }
}

/// Appends a line with a word.
fn push_word(lines: &mut Line<REPORT_MAX>, name: &str, word: &str)
    requires { length lines.old + length name.now + length word.now + 1 ≤ REPORT_MAX }
    ensures text { lines.new ≡ lines.old ++ report_line name.now word.now }
    ensures len { length lines.new ≡ length lines.old + length name.now + length word.now + 1 }
{
    lines.push(name);
    lines.push(word);
    lines.push("\n");
}
