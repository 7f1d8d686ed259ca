//! What a report means in which a stream is refused: which bytes must be refused, why, and what to type next.
ghost use Rattle.std.specs.Prelude.{◌≡◌, ◌+◌, ◌≤◌, ◌++◌, [], codes, length};
ghost use Rattle.wsn_print.specs.PeopleReport.{may_be_extended, refusal_opening, refused_byte, reason_text, refusal_line, refused_line, inflation, next_at, next_or, is_refused_as, are_exchanged, failed_lines};

use super::words::{MEANING_MAX, endpoint_word, other_endpoint};
use crate::line::Line;
use crate::sentences::reason_sentence;
use wsn_rules::{Refusal, Side};
use wsn_wire::{Reason, Role};

/// Whether an extension may allow what is refused.
fn may_be_extended(reason: Reason) -> bool
    ensures { result ≡ may_be_extended reason }
{
    reason.number() == Reason::ReservedBits.number()
}

/// How the sentence on a refusal begins.
fn refusal_opening(reason: Reason) -> &'static str
    ensures text { result.now ≡ refusal_opening reason }
    ensures short { length result.now ≤ 25 }
{
    if may_be_extended(reason) {
        "Without an extension the "
    } else {
        "The "
    }
}

/// Appends which byte of an endpoint's stream the other endpoint must refuse, and why.
fn push_refusal(lines: &mut Line<MEANING_MAX>, role: Role, refusal: &Refusal)
    requires { length lines.old + 216 ≤ MEANING_MAX }
    ensures text { lines.new ≡ lines.old ++ refusal_line role refusal.now }
    ensures len { length lines.new ≤ length lines.old + 216 }
{
    push_refused_byte(lines, role, refusal);
    push_reason(lines, refusal.reason);
}

/// Appends which byte of an endpoint's stream the other endpoint must refuse.
fn push_refused_byte(lines: &mut Line<MEANING_MAX>, role: Role, refusal: &Refusal)
    requires { length lines.old + 96 ≤ MEANING_MAX }
    ensures text { lines.new ≡ lines.old ++ refused_byte role refusal.now }
    ensures len { length lines.new ≤ length lines.old + 96 }
{
    lines.push(refusal_opening(refusal.reason));
    lines.push(endpoint_word(other_endpoint(role)));
    lines.push(" must refuse byte ");
    lines.push_number(refusal.offset);
    lines.push(" of what the ");
    lines.push(endpoint_word(role));
    lines.push(" sent: ");
}

/// Appends why a byte is refused.
#[tactic(auto, using(crate::proofs::ReportTexts::word_short))]
fn push_reason(lines: &mut Line<MEANING_MAX>, reason: Reason)
    requires { length lines.old + 120 ≤ MEANING_MAX }
    ensures text { lines.new ≡ lines.old ++ reason_text reason }
    ensures len { length lines.new ≤ length lines.old + 120 }
{
    lines.push(reason.word());
    lines.push("\n(");
    lines.push(reason_sentence(reason));
    lines.push(").\n");
}

/// The same of a stream that is refused; nothing of any other.
fn push_refused(lines: &mut Line<MEANING_MAX>, role: Role, side: &Side)
    requires { length lines.old + 216 ≤ MEANING_MAX }
    ensures text { lines.new ≡ lines.old ++ refused_line role side.now }
    ensures len { length lines.new ≤ length lines.old + 216 }
{
    match side {
        Side::Refused(refusal) => push_refusal(lines, role, refusal),
        Side::Closed(_) | Side::Ended | Side::Cut | Side::Running => {}
    }
}

/// Appends what to type at a refusal.
#[tactic(auto, using(crate::proofs::ReportTexts::word_short))]
fn push_next_at(lines: &mut Line<MEANING_MAX>, reason: Reason)
    requires { length lines.old + 90 ≤ MEANING_MAX }
    ensures { lines.new ≡ lines.old ++ next_at reason }
{
    lines.push("Next: ");
    lines.push(inflation(reason));
    lines.push("wsn explain ");
    lines.push(reason.word());
    lines.push("\n");
}

/// The command that undoes compression, where that may be why a stream is refused.
fn inflation(reason: Reason) -> &'static str
    ensures text { result.now ≡ inflation reason }
    ensures short { length result.now ≤ 48 }
{
    if may_be_extended(reason) {
        "recipes/inflate CAPTURE > inflated.capture, or "
    } else {
        ""
    }
}

/// Appends what to type at the first stream that is refused; nothing if none is.
fn push_next(lines: &mut Line<MEANING_MAX>, client: &Side, server: &Side)
    requires { length lines.old + 90 ≤ MEANING_MAX }
    ensures { lines.new ≡ lines.old ++ next_or client.now (next_or server.now []) }
{
    match (client, server) {
        (Side::Refused(refusal), _) => push_next_at(lines, refusal.reason),
        (_, Side::Refused(refusal)) => push_next_at(lines, refusal.reason),
        (_, _) => {}
    }
}

/// Whether a stream is refused at an offset for a reason.
fn is_refused_as(reason: Reason, offset: u64, side: &Side) -> bool
    ensures { result ≡ is_refused_as reason offset side.now }
{
    match side {
        Side::Refused(refusal) => {
            refusal.reason.number() == reason.number() && refusal.offset == offset
        }
        Side::Closed(_) | Side::Ended | Side::Cut | Side::Running => false,
    }
}

/// Whether each side is refused at its first frame for the masking of the other.
fn are_exchanged(client: &Side, server: &Side) -> bool
    ensures { result ≡ are_exchanged client.now server.now }
{
    is_refused_as(Reason::MaskMissing, 1, client) && is_refused_as(Reason::MaskPresent, 1, server)
}

/// Appends which bytes must be refused, and what to type next.
pub(super) fn push_failed(lines: &mut Line<MEANING_MAX>, client: &Side, server: &Side)
    requires { length lines.old + 530 ≤ MEANING_MAX }
    ensures { lines.new ≡ lines.old ++ failed_lines client.now server.now }
{
    if are_exchanged(client, server) {
        lines.push(
            "The client's first frame has no masking key and the server's has one, as if each were the other's.",
        );
        lines.push("\nNext: ");
        lines.push("sed 's/^C/X/; s/^S/C/; s/^X/S/' CAPTURE > right.capture");
        lines.push("\n");
    } else {
        push_refused(lines, Role::Client, client);
        push_refused(lines, Role::Server, server);
        push_next(lines, client, server);
    }
}
