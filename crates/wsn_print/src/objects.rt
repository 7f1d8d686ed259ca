ghost use Rattle.std.specs.Prelude.{◌≡◌, ◌+◌, ◌≤◌, ◌++◌, codes, false, length};
ghost use Rattle.wsn_io.specs.Stops.{IsWrittenOrStops};
ghost use Rattle.wsn_print.specs.Json.{field, string_field, number_or_null_field};
ghost use Rattle.wsn_print.specs.Objects.{count_fields, close_value, refusal_fields, verdict_members, verdict_object, side_object, first_value, echo_value, report_object, comparison_object};

use crate::json::{push_field, push_number_field, push_number_or_null, push_string_field};
use crate::line::Line;
use crate::reports::outcome_word;
use std::io::Write;
use wsn_io::{Output, Stop, put_line};
use wsn_rules::{Compared, Refusal, Report, Side, Summary, Verdict};
use wsn_wire::Role;

/// The space for the object of a verdict in bytes: of an accepted stream, with eight numbers of twenty digits.
const VERDICT_MAX: usize = 320;

/// The space for the object of a report in bytes: two refused streams, with offsets of twenty digits, fit.
const REPORT_MAX: usize = 520;

/// The space for the object of a comparison in bytes, with the object of a verdict.
const COMPARISON_MAX: usize = 380;

/// Writes a verdict as a JSON object in one line, such as `{"type":"verdict","verdict":"refused","offset":5,
/// "reason":"text-bad","code":1007}` (without the space). `Stop::Write` if the writer fails: a prefix of the line was
/// written.
pub fn put_verdict_object<W: Write>(to: &mut Output<W>, verdict: &Verdict) -> Result<(), Stop>
    requires { to.old.failed ≡ false }
    ensures { IsWrittenOrStops to.old to.new (verdict_object verdict.now) result }
{
    put_line(to, line_of_verdict(verdict).bytes())
}

/// Writes a report as a JSON object in one line, with an object for each side. `Stop::Write` if the writer fails: a
/// prefix of the line was written.
pub fn put_report_object<W: Write>(to: &mut Output<W>, report: &Report) -> Result<(), Stop>
    requires { to.old.failed ≡ false }
    ensures { IsWrittenOrStops to.old to.new (report_object report.now) result }
{
    put_line(to, line_of_report(report).bytes())
}

/// Writes a comparison as a JSON object in one line, such as `{"type":"comparison","answer":"equal"}`; of a stream that
/// isn't accepted with the verdict as an object. `Stop::Write` if the writer fails: a prefix of the line was written.
pub fn put_compared_object<W: Write>(to: &mut Output<W>, compared: &Compared) -> Result<(), Stop>
    requires { to.old.failed ≡ false }
    ensures { IsWrittenOrStops to.old to.new (comparison_object compared.now) result }
{
    put_line(to, line_of_comparison(compared).bytes())
}

fn line_of_verdict(verdict: &Verdict) -> Line<VERDICT_MAX>
    ensures { result ≡ verdict_object verdict.now }
{
    let mut line = Line::new();
    line.push("{\"type\":\"verdict\",");
    push_verdict(&mut line, verdict);
    line.push("}\n");
    line
}

/// Appends the members of a verdict.
fn push_verdict<const MAX: usize>(line: &mut Line<MAX>, verdict: &Verdict)
    requires { length line.old + 300 ≤ MAX }
    ensures text { line.new ≡ line.old ++ verdict_members verdict.now }
    ensures len { length line.new ≤ length line.old + 300 }
{
    match verdict {
        Verdict::Accepted(summary) => push_accepted(line, summary),
        Verdict::Cut(summary) => push_cut(line, summary),
        Verdict::Refused(refusal) => push_refused(line, refusal),
    }
}

fn push_accepted<const MAX: usize>(line: &mut Line<MAX>, summary: &Summary)
    requires { length line.old + 300 ≤ MAX }
    ensures text { line.new ≡ line.old ++ verdict_members (Verdict.Accepted summary.now) }
    ensures len { length line.new ≤ length line.old + 300 }
{
    line.push("\"verdict\":\"accepted\"");
    push_number_field(line, "used", summary.used);
    push_number_field(line, "tail", summary.tail);
    push_size(line, "unfinished", summary.unfinished);
    push_counts(line, summary);
    push_close(line, summary.close);
}

fn push_cut<const MAX: usize>(line: &mut Line<MAX>, summary: &Summary)
    requires { length line.old + 300 ≤ MAX }
    ensures text { line.new ≡ line.old ++ verdict_members (Verdict.Cut summary.now) }
    ensures len { length line.new ≤ length line.old + 300 }
{
    line.push("\"verdict\":\"cut\"");
    push_number_field(line, "used", summary.used);
    push_size(line, "unfinished", summary.unfinished);
    push_counts(line, summary);
}

fn push_refused<const MAX: usize>(line: &mut Line<MAX>, refusal: &Refusal)
    requires { length line.old + 300 ≤ MAX }
    ensures text { line.new ≡ line.old ++ verdict_members (Verdict.Refused refusal.now) }
    ensures len { length line.new ≤ length line.old + 300 }
{
    line.push("\"verdict\":\"refused\"");
    push_refusal(line, "offset", refusal);
}

/// Appends the size of a message, or null for `None`.
fn push_size<const MAX: usize>(line: &mut Line<MAX>, key: &str, size: Option<u32>)
    requires { length line.old + length key.now + 24 ≤ MAX }
    ensures text { line.new ≡ line.old ++ number_or_null_field key.now size }
    ensures len { length line.new ≤ length line.old + length key.now + 24 }
{
    match size {
        Some(size) => push_number_field(line, key, u64::from(size)),
        None => push_field(line, key, "null"),
    }
}

/// Appends the numbers of frames, messages, pings and pongs.
fn push_counts<const MAX: usize>(line: &mut Line<MAX>, summary: &Summary)
    requires { length line.old + 120 ≤ MAX }
    ensures text { line.new ≡ line.old ++ count_fields summary.now }
    ensures len { length line.new ≤ length line.old + 120 }
{
    push_number_field(line, "frames", summary.frames);
    push_number_field(line, "messages", summary.messages);
    push_number_field(line, "pings", summary.pings);
    push_number_field(line, "pongs", summary.pongs);
}

fn push_close<const MAX: usize>(line: &mut Line<MAX>, close: Option<Option<u16>>)
    requires { length line.old + 40 ≤ MAX }
    ensures text { line.new ≡ line.old ++ field (codes "close") (close_value close) }
    ensures len { length line.new ≤ length line.old + 40 }
{
    match close {
        Some(code) => {
            line.push(",\"close\":{\"code\":");
            push_number_or_null(line, code.map(u64::from));
            line.push("}");
        }
        None => push_field(line, "close", "null"),
    }
}

/// Appends the offset of the offending byte, under this key, the reason and the close code of a refusal.
#[tactic(auto, using(crate::proofs::ReportTexts::word_short))]
pub fn push_refusal<const MAX: usize>(line: &mut Line<MAX>, key: &str, refusal: &Refusal)
    requires { length line.old + length key.now + 90 ≤ MAX }
    ensures text { line.new ≡ line.old ++ refusal_fields key.now refusal.now }
    ensures len { length line.new ≤ length line.old + length key.now + 90 }
{
    let reason = refusal.reason;
    push_number_field(line, key, refusal.offset);
    push_string_field(line, "reason", reason.word());
    push_number_field(line, "code", u64::from(reason.code()));
}

pub(crate) fn line_of_report(report: &Report) -> Line<REPORT_MAX>
    ensures { result ≡ report_object report.now }
{
    let mut line = Line::new();
    line.push("{\"type\":\"report\"");
    push_side(&mut line, "client", &report.client);
    push_side(&mut line, "server", &report.server);
    push_field(&mut line, "first", first_value(report.first));
    push_field(&mut line, "echo", echo_value(report.echo));
    push_code(&mut line, "client_sees", report.client_sees);
    push_code(&mut line, "server_sees", report.server_sees);
    push_string_field(&mut line, "outcome", outcome_word(report.outcome));
    line.push("}\n");
    line
}

/// Appends what became of a side, as an object.
fn push_side(line: &mut Line<REPORT_MAX>, key: &str, side: &Side)
    requires { length line.old + length key.now + 130 ≤ REPORT_MAX }
    ensures text { line.new ≡ line.old ++ field key.now (side_object side.now) }
    ensures len { length line.new ≤ length line.old + length key.now + 130 }
{
    match side {
        Side::Closed(code) => push_closed_side(line, key, *code),
        Side::Refused(refusal) => push_refused_side(line, key, refusal),
        Side::Ended => push_field(line, key, "{\"state\":\"ended\"}"),
        Side::Cut => push_field(line, key, "{\"state\":\"cut\"}"),
        Side::Running => push_field(line, key, "{\"state\":\"running\"}"),
    }
}

fn push_closed_side(line: &mut Line<REPORT_MAX>, key: &str, code: Option<u16>)
    requires { length line.old + length key.now + 130 ≤ REPORT_MAX }
    ensures text { line.new ≡ line.old ++ field key.now (side_object (Side.Closed code)) }
    ensures len { length line.new ≤ length line.old + length key.now + 130 }
{
    push_field(line, key, "{\"state\":\"closed\"");
    push_code(line, "code", code);
    line.push("}");
}

fn push_refused_side(line: &mut Line<REPORT_MAX>, key: &str, refusal: &Refusal)
    requires { length line.old + length key.now + 130 ≤ REPORT_MAX }
    ensures text { line.new ≡ line.old ++ field key.now (side_object (Side.Refused refusal.now)) }
    ensures len { length line.new ≤ length line.old + length key.now + 130 }
{
    push_field(line, key, "{\"state\":\"refused\"");
    push_refusal(line, "offset", refusal);
    line.push("}");
}

/// Appends a close code, or null for `None`.
fn push_code(line: &mut Line<REPORT_MAX>, key: &str, code: Option<u16>)
    requires { length line.old + length key.now + 24 ≤ REPORT_MAX }
    ensures text { line.new ≡ line.old ++ number_or_null_field key.now code }
    ensures len { length line.new ≤ length line.old + length key.now + 24 }
{
    match code {
        Some(code) => push_number_field(line, key, u64::from(code)),
        None => push_field(line, key, "null"),
    }
}

fn first_value(first: Option<Role>) -> &'static str
    ensures text { result.now ≡ first_value first }
    ensures short { length result.now ≤ 8 }
{
    match first {
        Some(Role::Client) => "\"client\"",
        Some(Role::Server) => "\"server\"",
        None => "null",
    }
}

fn echo_value(echo: Option<bool>) -> &'static str
    ensures text { result.now ≡ echo_value echo }
    ensures short { length result.now ≤ 8 }
{
    match echo {
        Some(true) => "true",
        Some(false) => "false",
        None => "null",
    }
}

fn line_of_comparison(compared: &Compared) -> Line<COMPARISON_MAX>
    ensures { result ≡ comparison_object compared.now }
{
    match compared {
        Compared::Equal => line_of_equal(),
        Compared::Different(index) => line_of_difference(*index),
        Compared::NotAccepted { second, verdict } => line_of_not_accepted(*second, verdict),
    }
}

fn line_of_equal() -> Line<COMPARISON_MAX>
    ensures { result ≡ comparison_object Compared.Equal }
{
    let mut line = Line::new();
    push_answer(&mut line, "equal");
    line.push("}\n");
    line
}

/// Appends the type and the answer to an empty line.
fn push_answer(line: &mut Line<COMPARISON_MAX>, word: &str)
    requires { length line.old + length word.now + 40 ≤ COMPARISON_MAX }
    ensures text { line.new ≡ line.old ++ codes "{\"type\":\"comparison\"" ++ string_field (codes "answer") word.now }
    ensures len { length line.new ≤ length line.old + length word.now + 40 }
{
    line.push("{\"type\":\"comparison\"");
    push_string_field(line, "answer", word);
}

fn line_of_difference(index: u64) -> Line<COMPARISON_MAX>
    ensures { result ≡ comparison_object (Compared.Different index) }
{
    let mut line = Line::new();
    push_answer(&mut line, "different");
    push_number_field(&mut line, "event", index);
    line.push("}\n");
    line
}

fn line_of_not_accepted(second: bool, verdict: &Verdict) -> Line<COMPARISON_MAX>
    ensures { result ≡ comparison_object (Compared.NotAccepted second verdict.now) }
{
    let mut line = Line::new();
    push_answer(&mut line, if second { "second" } else { "first" });
    line.push(",\"verdict\":{");
    push_verdict(&mut line, verdict);
    line.push("}}\n");
    line
}
