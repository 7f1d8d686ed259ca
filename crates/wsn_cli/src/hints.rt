ghost use Rattle.std.specs.Prelude.{◌≡◌, ◌↔◌, ◌⊎◌, IsTrue, true, false, None, Some, IfSome, IsSome, List, ℕ, take, if◌then◌else◌};
ghost use Rattle.wsn_print.specs.declared.format.Format.TheVariants.{Json};
ghost use Rattle.wsn_rules.specs.Limits.{Limits};
ghost use Rattle.wsn_command.specs.declared.answered.Answer.TheVariants.{FaultyLine, Stopped};
ghost use Rattle.wsn_hint.specs.Hints.{HintFits};
ghost use Rattle.wsn_command.specs.Jobs.{job_role};
ghost use Rattle.wsn_cli.specs.Requests.{job_format, job_limits};
ghost use Rattle.wsn_cli.specs.RunHints.{IsCaptureHint, IsCloseHint, IsHandshakeHint, IsLinesHint, IsReportHint, refused_lines, refused_side, refused_sides};

use crate::compared_hint::ComparedHint;
use std::alloc::Allocator;
use wsn_command::{Answer, Comparison, Job};
use wsn_hint::{
    Hint, RefusedLines, RefusedSides, accusing_hint_of, after_close_hint_of, capture_hint_of,
    handshake_hint_of, hint_of, sides_hint_of,
};
use wsn_print::Format;
use wsn_rules::{Limits, Refusal, Side, Verdict};
use wsn_wire::Role;

/// The number of bytes by which a file's format is known.
const MARK: usize = 16;

/// The hint on a job's run over an input whose first bytes are `first`, its first 65,536 or all of them if there are
/// fewer. `answer` is the run's answer, and `side` the side of a capture that it read, if it read one.
///
/// A stream may have one if there is an answer; a capture if a line of it isn't accepted, if a side that is read is
/// refused, if it is empty, or if `closing` or `show` reads it and its handshake's answer is wrong or a Close accuses the
/// other endpoint, or `closing` does and bytes follow a Close. A job that prints JSON has none.
pub fn hint_on_run<A: Allocator>(
    job: &Job<A>,
    side: Option<Role>,
    first: &[u8],
    answer: Answer,
) -> Option<Hint>
    ensures json { job_format job.now ≡ Some Json → result ≡ None }
    ensures stopped { answer ≡ Stopped → result ≡ None }
    ensures stream { side ≡ None → IsSome (job_role job.now)
        → IfSome result (HintFits (job_limits job.now) (take 16 first.now)) }
    ensures capture { (IsSome side ⊎ (job_role job.now ≡ None)) → (job_format job.now ≡ Some Json → ⊥)
        → IsCaptureHint job.now side first.now answer result }
{
    if is_json(job) {
        return None;
    }
    match (side, job.role()) {
        (None, Some(role)) => hint_on_stream(job, role, first, answer),
        _ => hint_on_capture(job, side, first, answer),
    }
}

/// The hint on a job's run over the stream that `role` sent.
fn hint_on_stream<A: Allocator>(
    job: &Job<A>,
    role: Role,
    first: &[u8],
    answer: Answer,
) -> Option<Hint>
    ensures stopped { answer ≡ Stopped → result ≡ None }
    ensures fits { IfSome result (HintFits (job_limits job.now) (take 16 first.now)) }
{
    if let Answer::Stopped = answer {
        return None;
    }
    let hint = hint_of(mark_of(first), role, limits_of(job))?;
    Some(suited_to(job, hint))
}

/// The hint on a job's run over a capture. `side` is the side that was read, or `None` for both.
fn hint_on_capture<A: Allocator>(
    job: &Job<A>,
    side: Option<Role>,
    first: &[u8],
    answer: Answer,
) -> Option<Hint>
    ensures { IsCaptureHint job.now side first.now answer result }
{
    match answer {
        Answer::FaultyLine => capture_hint_of(mark_of(first)),
        Answer::Stopped => None,
        _ => hint_on_lines(job, side, first, answer),
    }
}

/// The hint on a job's run over a capture whose lines are accepted.
fn hint_on_lines<A: Allocator>(
    job: &Job<A>,
    side: Option<Role>,
    first: &[u8],
    answer: Answer,
) -> Option<Hint>
    ensures { IsLinesHint job.now side first.now answer result }
{
    let refused = refused_sides(side, answer);
    match sides_hint_of(first, refused, refused_lines(answer), limits_of(job)) {
        Some(hint) => Some(hint),
        None => report_hint(job, first, refused, answer),
    }
}

/// The hint on a report without one on its sides: for `show` and `closing` that the handshake's answer is wrong, if no
/// side is refused, or on a Close.
fn report_hint<A: Allocator>(
    job: &Job<A>,
    first: &[u8],
    refused: RefusedSides,
    answer: Answer,
) -> Option<Hint>
    ensures { IsReportHint job.now first.now refused answer result }
{
    let gives_tails = match job {
        Job::Show(_, _) => false,
        Job::Closing(_, _) => true,
        _ => return None,
    };
    match handshake_hint(first, refused) {
        Some(hint) => Some(hint),
        None => close_hint(answer, gives_tails),
    }
}

/// The hint on what a report says of a Close: at bytes after it, for `closing` alone, since `show` lists them; without
/// such bytes, on a Close that accuses the other endpoint.
fn close_hint(answer: Answer, gives_tails: bool) -> Option<Hint>
    ensures given { gives_tails ≡ true → IsCloseHint answer (λ tail. tail) result }
    ensures not { gives_tails ≡ false → IsCloseHint answer (λ tail. None) result }
{
    let Answer::Report(read) = answer else {
        return None;
    };
    match after_close_hint_of(read.tails) {
        None => accusing_hint_of(&read.report),
        Some(hint) => gives_tails.then_some(hint),
    }
}

/// The hint that the handshake's answer is wrong, if no side is refused.
fn handshake_hint(first: &[u8], refused: RefusedSides) -> Option<Hint>
    ensures { IsHandshakeHint first.now refused result }
{
    match (refused.client, refused.server) {
        (None, None) => handshake_hint_of(first),
        _ => None,
    }
}

/// Why the sides of a capture are refused, by the answer: of both sides, or of the one that was read.
fn refused_sides(side: Option<Role>, answer: Answer) -> RefusedSides
    ensures { result ≡ refused_sides side answer }
{
    match (side, answer) {
        (_, Answer::Report(read)) => RefusedSides {
            client: refused_side(read.report.client),
            server: refused_side(read.report.server),
        },
        (Some(Role::Client), Answer::Verdict(Verdict::Refused(refusal))) => RefusedSides {
            client: Some(refusal),
            server: None,
        },
        (Some(Role::Server), Answer::Verdict(Verdict::Refused(refusal))) => RefusedSides {
            client: None,
            server: Some(refusal),
        },
        _ => RefusedSides {
            client: None,
            server: None,
        },
    }
}

/// The lines of a capture with the offending bytes of its sides, by the answer: a report has them.
fn refused_lines(answer: Answer) -> RefusedLines
    ensures { result ≡ refused_lines answer }
{
    match answer {
        Answer::Report(read) => read.refused,
        _ => RefusedLines {
            client: None,
            server: None,
        },
    }
}

/// Why a side of a report is refused, if it is.
fn refused_side(side: Side) -> Option<Refusal>
    ensures { result ≡ refused_side side }
{
    match side {
        Side::Refused(refusal) => Some(refusal),
        _ => None,
    }
}

/// The bytes by which a file's format is known.
fn mark_of(first: &[u8]) -> &[u8]
    ensures { result.now ≡ take 16 first.now }
{
    &first[..first.len().min(MARK)]
}

/// The hint on a comparison of two streams whose first bytes are these: that of the first stream that has one. `answer`
/// is the run's answer.
pub fn hint_on_streams(
    comparison: Comparison,
    first: &[u8],
    second: &[u8],
    answer: Answer,
) -> Option<ComparedHint>
    ensures json { comparison.format ≡ Json → result ≡ None }
    ensures stopped { answer ≡ Stopped → result ≡ None }
    ensures fits { IfSome result (λ compared. IfSome compared.hint
        (HintFits comparison.limits (take 16 (if compared.is_second then second.now else first.now)))) }
{
    if answer == Answer::Stopped || comparison.format == Format::Json {
        return None;
    }
    let Comparison { role, limits, .. } = comparison;
    if let Some(hint) = hint_of(mark_of(first), role, limits) {
        return Some(ComparedHint::looks(false, hint));
    }
    let hint = hint_of(mark_of(second), role, limits)?;
    Some(ComparedHint::looks(true, hint))
}

/// The hint on a comparison of one side of two captures, if the run's answer is that a line isn't accepted: which capture
/// has the line, and what it looks like. `failed` has the first bytes of the capture whose reading failed, the second if
/// `is_second`.
pub fn hint_on_sides(
    comparison: Comparison,
    failed: &[u8],
    is_second: bool,
    answer: Answer,
) -> Option<ComparedHint>
    ensures json { comparison.format ≡ Json → result ≡ None }
    ensures line { IsSome result → answer ≡ FaultyLine }
    ensures input { IfSome result (λ compared. compared.is_second ≡ is_second) }
    ensures fits { IfSome result (λ compared. IfSome compared.hint (HintFits comparison.limits (take 16 failed.now))) }
{
    if comparison.format == Format::Json || answer != Answer::FaultyLine {
        return None;
    }
    match capture_hint_of(mark_of(failed)) {
        Some(hint) => Some(ComparedHint::looks(is_second, hint)),
        None => Some(ComparedHint::has_line(is_second)),
    }
}

/// The limits under which the job reads its input.
fn limits_of<A: Allocator>(job: &Job<A>) -> Limits
    ensures { result ≡ job_limits job.now }
{
    match job {
        Job::Judge(_, limits, _)
        | Job::Frames(_, limits, _)
        | Job::Normal(_, limits)
        | Job::Redact(_, limits)
        | Job::Plan(_, limits)
        | Job::Recut(_, limits, _)
        | Job::Payload(_, limits, _)
        | Job::ShowStream(_, limits, _)
        | Job::Closing(limits, _)
        | Job::Show(limits, _)
        | Job::RedactCapture(limits) => *limits,
    }
}

/// The hint in the words of the job's command: `show` and `redact` read a capture without `--role`.
fn suited_to<A: Allocator>(job: &Job<A>, hint: Hint) -> Hint
    ensures { (limits : Limits) (bytes : List ℕ) → HintFits limits bytes hint → HintFits limits bytes result }
{
    match (job, hint) {
        (Job::ShowStream(_, _, _) | Job::Redact(_, _), Hint::Capture) => Hint::CaptureToShow,
        _ => hint,
    }
}

/// Whether the job prints JSON.
fn is_json<A: Allocator>(job: &Job<A>) -> bool
    ensures { IsTrue result ↔ (job_format job.now ≡ Some Json) }
{
    let format = match job {
        Job::Judge(_, _, format) | Job::Frames(_, _, format) | Job::Closing(_, format) => *format,
        Job::ShowStream(_, _, style) | Job::Show(_, style) => style.format,
        Job::Normal(_, _)
        | Job::Redact(_, _)
        | Job::Plan(_, _)
        | Job::Recut(_, _, _)
        | Job::Payload(_, _, _)
        | Job::RedactCapture(_) => Format::Text,
    };
    format == Format::Json
}
