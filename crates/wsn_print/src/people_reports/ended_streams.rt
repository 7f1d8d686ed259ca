//! What a report means in which no stream is refused: who closed the connection, and how both streams ended.
ghost use Rattle.std.specs.Prelude.{◌≡◌, ◌+◌, ◌≤◌, ◌++◌, codes, length};
ghost use Rattle.wsn_print.specs.PeopleReport.{close_code, closer, side_in, answer_words, closed_lines, close_words, half_lines, direction_line, end_line, is_cut, end_word, abnormal_lines};

use super::words::{MEANING_MAX, endpoint_word, other_endpoint, push_code, push_explain};
use crate::line::Line;
use wsn_rules::{Report, Side};
use wsn_wire::Role;

/// The code of the Close in a stream.
fn close_code(side: &Side) -> Option<u16>
    ensures { result ≡ close_code side.now }
{
    match side {
        Side::Closed(code) => *code,
        Side::Refused(_) | Side::Ended | Side::Cut | Side::Running => None,
    }
}

/// The side that closed first, as a report has it.
pub(super) fn closer(first: Option<Role>) -> Role
    ensures { result ≡ closer first }
{
    match first {
        Some(role) => role,
        None => Role::Client,
    }
}

/// The code of an endpoint's Close.
fn code_of(report: &Report, role: Role) -> Option<u16>
    ensures { result ≡ close_code (side_in report.now role) }
{
    match role {
        Role::Client => close_code(&report.client),
        Role::Server => close_code(&report.server),
    }
}

/// Appends how the second Close answers the first.
fn push_answer(lines: &mut Line<MEANING_MAX>, echo: Option<bool>, code: Option<u16>)
    requires { length lines.old + 30 ≤ MEANING_MAX }
    ensures text { lines.new ≡ lines.old ++ answer_words echo code }
    ensures len { length lines.new ≤ length lines.old + 30 }
{
    match echo {
        Some(true) => lines.push("with the same"),
        Some(false) => push_code(lines, code),
        None => push_code(lines, code),
    }
}

/// Appends who closed first and who answered, and how the connection ended.
pub(super) fn push_closed(
    lines: &mut Line<MEANING_MAX>,
    role: Role,
    report: &Report,
    sentence: &str,
)
    requires room { length lines.old + 190 ≤ MEANING_MAX }
    requires short { length sentence.now ≤ 60 }
    ensures { lines.new ≡ lines.old ++ closed_lines role report.now sentence.now }
{
    let other = other_endpoint(role);
    lines.push("The ");
    lines.push(endpoint_word(role));
    lines.push(" closed first, ");
    push_code(lines, code_of(report, role));
    lines.push(", and the ");
    lines.push(endpoint_word(other));
    lines.push(" answered ");
    push_answer(lines, report.echo, code_of(report, other));
    lines.push(".\n");
    lines.push(sentence);
    lines.push("\n");
}

/// Appends that an endpoint sent a Close.
fn push_close_words(lines: &mut Line<MEANING_MAX>, role: Role, code: Option<u16>)
    requires { length lines.old + 60 ≤ MEANING_MAX }
    ensures text { lines.new ≡ lines.old ++ close_words role code }
    ensures len { length lines.new ≤ length lines.old + 60 }
{
    lines.push("The ");
    lines.push(endpoint_word(role));
    lines.push(" sent a Close ");
    push_code(lines, code);
}

/// Appends who closed, and who didn't answer.
pub(super) fn push_half(lines: &mut Line<MEANING_MAX>, role: Role, report: &Report)
    requires { length lines.old + 150 ≤ MEANING_MAX }
    ensures { lines.new ≡ lines.old ++ half_lines role report.now }
{
    push_close_words(lines, role, code_of(report, role));
    lines.push("; no answer of the ");
    lines.push(endpoint_word(other_endpoint(role)));
    lines.push(" is in the capture.\n");
    push_explain(lines, "half");
}

/// Appends how an endpoint's direction ended.
fn push_direction(lines: &mut Line<MEANING_MAX>, role: Role, words: &str)
    requires short { length words.now ≤ 40 }
    requires room { length lines.old + 90 ≤ MEANING_MAX }
    ensures text { lines.new ≡ lines.old ++ direction_line role words.now }
    ensures len { length lines.new ≤ length lines.old + 90 }
{
    lines.push("The ");
    lines.push(endpoint_word(role));
    lines.push("'s direction ");
    lines.push(words);
    lines.push(", without a Close.\n");
}

/// Appends how an endpoint's stream ended; nothing of one that didn't.
fn push_end(lines: &mut Line<MEANING_MAX>, role: Role, side: &Side)
    requires { length lines.old + 90 ≤ MEANING_MAX }
    ensures text { lines.new ≡ lines.old ++ end_line role side.now }
    ensures len { length lines.new ≤ length lines.old + 90 }
{
    match side {
        Side::Ended => push_direction(lines, role, "ended between two messages"),
        Side::Cut => push_direction(lines, role, "ended inside a frame or a message"),
        Side::Closed(code) => push_close(lines, role, *code),
        Side::Refused(_) | Side::Running => {}
    }
}

/// Appends that an endpoint sent a Close.
fn push_close(lines: &mut Line<MEANING_MAX>, role: Role, code: Option<u16>)
    requires { length lines.old + 90 ≤ MEANING_MAX }
    ensures text { lines.new ≡ lines.old ++ end_line role (Side.Closed code) }
    ensures len { length lines.new ≤ length lines.old + 90 }
{
    push_close_words(lines, role, code);
    lines.push(".\n");
}

/// Whether a stream ended inside a frame or a message.
fn is_cut(side: &Side) -> bool
    ensures { result ≡ is_cut side.now }
{
    match side {
        Side::Cut => true,
        Side::Closed(_) | Side::Refused(_) | Side::Ended | Side::Running => false,
    }
}

/// The word to explain where a stream ended without a Close.
fn end_word(client: &Side, server: &Side) -> &'static str
    ensures text { result.now ≡ end_word client.now server.now }
    ensures short { length result.now ≤ 8 }
{
    if is_cut(client) || is_cut(server) {
        "cut"
    } else {
        "abnormal"
    }
}

/// Appends how both streams ended, and what to type next.
pub(super) fn push_abnormal(lines: &mut Line<MEANING_MAX>, client: &Side, server: &Side)
    requires { length lines.old + 220 ≤ MEANING_MAX }
    ensures { lines.new ≡ lines.old ++ abnormal_lines client.now server.now }
{
    push_end(lines, Role::Client, client);
    push_end(lines, Role::Server, server);
    push_explain(lines, end_word(client, server));
}
