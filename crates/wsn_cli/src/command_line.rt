ghost use Rattle.std.specs.Prelude.{◌≡◌, ℕ, List, IfOk, codes};
ghost use Rattle.clap.specs.Words.{found_of};
ghost use Rattle.wsn_command.specs.Jobs.{MayRun, job_role};
ghost use Rattle.wsn_cli.specs.Colors.{IsReadColor, IsReadLayout};
ghost use Rattle.wsn_cli.specs.Options.{AreInDigits};
ghost use Rattle.wsn_cli.specs.Requests.{AreAskedLimits, CanBeDone, IsOwnSide, job_limits};
ghost use Rattle.wsn_cli.specs.ReadRequests.{AreReadLimits, IsRead, IsReadJob, IsReadSideOf, IsReadStyle};

use crate::closings::{closings_of, has_several};
use crate::error_words::shown_in_errors;
use crate::escaped::Escaped;
use crate::mistake::Mistake;
use crate::options::{
    at_of, check_digits, color_of, comparison_of, entries_of, file_of, format_of, limits_of,
    role_of, side_of, style_of,
};
use crate::recut_options::recut_of;
use crate::request::{Asked, EntryLayout, Request, Usage};
use clap::error::ErrorKind;
use clap::{ArgMatches, Error};
use std::alloc::{AllocError, Global};
use wsn_color::ColorChoice;
use wsn_command::Job;
use wsn_explain::{explanation, list_of_words, similar_words};
use wsn_options::{SHARED, program};
use wsn_print::Style;
use wsn_rules::Limits;
use wsn_wire::Role;

/// How clap's text begins if a command has no option `--capture`.
const NO_CAPTURE: &str = "error: unexpected argument '--capture'";

/// How clap's text begins if a command has no option `--color`.
const NO_COLOR: &str = "error: unexpected argument '--color'";

/// What clap returns instead of matches: a text that was asked for, or an error.
fn answered(alloc: Global, words: &[String], error: &Error) -> Result<Request, Usage>
    ensures { IfOk result CanBeDone }
{
    match error.kind() {
        ErrorKind::OutOfMemory => Err(Usage::Memory),
        ErrorKind::DisplayVersion => Ok(Request::Help(error.to_string(alloc)?)),
        ErrorKind::DisplayHelp => {
            let mut text = error.to_string(alloc)?;
            text.push_str(SHARED)?;
            Ok(Request::Help(text))
        }
        _ => {
            let words = shown_in_errors(alloc, words)?;
            Err(broken_rule(alloc, words.as_slice())?)
        }
    }
}

/// The rule that the words break: clap's text, or `Own` if clap finds none.
fn broken_rule(alloc: Global, words: &[String]) -> Result<Usage, AllocError> {
    let error = match program(alloc)?.try_get_matches_from(words) {
        Ok(matches) => return Ok(mistake_in(&matches)),
        Err(error) => error,
    };
    if error.kind() == ErrorKind::OutOfMemory {
        return Ok(Usage::Memory);
    }
    let text = error.to_string(alloc)?;
    if reads_captures(words) && text.as_str().starts_with(NO_CAPTURE) {
        return Ok(Usage::Own(Mistake::CaptureAsItIs));
    }
    if text.as_str().starts_with(NO_COLOR) {
        return Ok(Usage::Own(Mistake::ColorElsewhere));
    }
    Ok(Usage::Clap(text))
}

/// The rule that words break which clap accepts once they are as an error shows them: a number has a sign.
fn mistake_in(matches: &ArgMatches<'_>) -> Usage {
    match matches.subcommand() {
        Some((name, command)) => check_digits(name, command)
            .err()
            .unwrap_or(Usage::Own(Mistake::Other)),
        None => Usage::Own(Mistake::Other),
    }
}

/// Whether these words of a command line name a command that reads captures as they are.
fn reads_captures(words: &[String]) -> bool {
    words
        .get(1)
        .is_some_and(|word| matches!(word.as_str(), "show" | "closing"))
}

/// The job that a command's name and arguments ask for. The error is `OffsetTooLarge` for an offset of 2^64 or more, and
/// `BadView` for a view over 4,096 bytes.
fn job_of(name: &str, matches: &ArgMatches<'_>) -> Result<Job, Mistake>
    ensures may_run { IfOk result MayRun }
    ensures limits { IfOk result (λ job. AreAskedLimits (job_limits job)) }
    ensures read { IfOk result (IsReadJob name.now (found_of matches.now)) }
{
    let role = role_of(matches);
    let limits = limits_of(matches).ok_or(Mistake::Other)?;
    match name {
        "judge" => Ok(Job::Judge(role, limits, format_of(matches))),
        "frames" => Ok(Job::Frames(role, limits, format_of(matches))),
        "payload" => {
            let at = at_of(matches).ok_or(Mistake::OffsetTooLarge)?;
            Ok(Job::Payload(role, limits, at))
        }
        "normal" => Ok(Job::Normal(role, limits)),
        "redact" => redact_of(matches, limits),
        "plan" => Ok(Job::Plan(role, limits)),
        "closing" => Ok(Job::Closing(limits, format_of(matches))),
        "show" => {
            let style = style_of(matches, limits).ok_or(Mistake::BadView)?;
            Ok(show_of(matches, limits, style))
        }
        _ => Err(Mistake::Other),
    }
}

/// The job of `show`: over a capture, or over the stream of the endpoint that `--role` names.
fn show_of(matches: &ArgMatches<'_>, limits: Limits, style: Style) -> Job
    ensures may_run { MayRun result }
    ensures limits { job_limits result ≡ limits }
    ensures read { AreReadLimits (found_of matches.now) limits → IsReadStyle (found_of matches.now) limits style
        → IsReadJob (codes "show") (found_of matches.now) result }
{
    match matches.get_str("role") {
        Some(_) => Job::ShowStream(role_of(matches), limits, style),
        None => Job::Show(limits, style),
    }
}

/// The job of `redact`: over a capture, or over the stream of the endpoint that `--role` names. The error is
/// `CaptureAsItIs` for `--capture` without `--role`.
fn redact_of(matches: &ArgMatches<'_>, limits: Limits) -> Result<Job, Mistake>
    ensures may_run { IfOk result MayRun }
    ensures limits { IfOk result (λ job. job_limits job ≡ limits) }
    ensures read { AreReadLimits (found_of matches.now) limits
        → IfOk result (IsReadJob (codes "redact") (found_of matches.now)) }
{
    match matches.get_str("role") {
        Some(_) => Ok(Job::Redact(role_of(matches), limits)),
        None if matches.get_flag("capture") => Err(Mistake::CaptureAsItIs),
        None => Ok(Job::RedactCapture(limits)),
    }
}

/// The request of a command that does one job over one input.
fn run_of(alloc: Global, name: &str, matches: &ArgMatches<'_>) -> Result<Request, Usage>
    ensures done { IfOk result CanBeDone }
    ensures read { IfOk result (IsRead name.now (found_of matches.now)) }
{
    let job = match job_of(name, matches) {
        Ok(job) => job,
        Err(mistake) => return Err(Usage::Own(mistake)),
    };
    let side = side_of_job(matches, &job);
    let file = file_of(alloc, matches, "file")?;
    Ok(Request::Run { job, file, side })
}

/// The side of a capture that a job reads, if it reads one.
fn side_of_job(matches: &ArgMatches<'_>, job: &Job) -> Option<Role>
    ensures own { IsOwnSide job.now result }
    ensures read { IsReadSideOf (found_of matches.now) (job_role job.now) result }
{
    side_of(matches, job.role()?)
}

/// The request of `closing`: over one capture, or a line for each of several.
fn closing_of(alloc: Global, matches: &ArgMatches<'_>) -> Result<Request, Usage>
    ensures done { IfOk result CanBeDone }
    ensures read { IfOk result (IsRead (codes "closing") (found_of matches.now)) }
{
    if has_several(matches) || matches.get_flag("each") {
        closings_of(alloc, matches)
    } else {
        run_of(alloc, "closing", matches)
    }
}

/// The request of `same`: two inputs, and how they are compared. The error is `TwoStandardInputs` if both are
/// standard input.
fn same_of(alloc: Global, matches: &ArgMatches<'_>) -> Result<Request, Usage>
    ensures done { IfOk result CanBeDone }
    ensures read { (name : List ℕ) → name ≡ codes "same" → IfOk result (IsRead name (found_of matches.now)) }
{
    let first = file_of(alloc, matches, "first")?;
    let second = file_of(alloc, matches, "second")?;
    match comparison_of(matches) {
        Some(comparison) if first.is_some() || second.is_some() => Ok(Request::Same {
            comparison,
            first,
            second,
            side: side_of(matches, comparison.role),
        }),
        Some(_) => Err(Usage::Own(Mistake::TwoStandardInputs)),
        None => Err(Usage::Own(Mistake::Other)),
    }
}

/// The text of `explain`: the explanation of its words, or the list of all words that are explained.
fn explained(alloc: Global, matches: &ArgMatches<'_>) -> Result<Request, Usage>
    ensures done { IfOk result CanBeDone }
    ensures read { (name : List ℕ) → name ≡ codes "explain" → IfOk result (IsRead name (found_of matches.now)) }
{
    let Some(words) = matches.get_strs("words") else {
        return Ok(Request::Help(list_of_words(alloc)?));
    };
    let words = words.join(alloc, " ")?;
    match explanation(words.as_str()) {
        Some(text) => Ok(Request::Help(String::from_str(alloc, text)?)),
        None => Err(Usage::Clap(unexplained(alloc, words.as_str())?)),
    }
}

/// The text of the error for words that aren't explained, with the printed words that they resemble.
fn unexplained(alloc: Global, words: &str) -> Result<String, AllocError> {
    let shown = Escaped::short(words);
    match similar_words(words) {
        Some(printed) => format!(in alloc;
            "error: '{shown}' isn't a word that wsn prints\n\n  \
            tip: a similar word exists: '{printed}'\n\n\
            'wsn explain' lists the words that it explains.\n"
        ),
        None => format!(in alloc;
            "error: '{shown}' isn't a word that wsn prints\n\n\
            'wsn explain' lists the words that it explains.\n"
        ),
    }
}

/// The request of the command with this name.
fn request_of(alloc: Global, name: &str, matches: &ArgMatches<'_>) -> Result<Request, Usage>
    ensures done { IfOk result CanBeDone }
    ensures read { IfOk result (IsRead name.now (found_of matches.now)) }
    ensures digits { IfOk result (λ _. AreInDigits name.now (found_of matches.now)) }
{
    check_digits(name, matches)?;
    match name {
        "explain" => explained(alloc, matches),
        "same" => same_of(alloc, matches),
        "recut" => recut_of(alloc, matches),
        "closing" => closing_of(alloc, matches),
        _ => run_of(alloc, name, matches),
    }
}

/// What the command with this name asks for, when its answer is coloured, and how entries are laid out.
fn asked_of(alloc: Global, name: &str, matches: &ArgMatches<'_>) -> Result<Asked, Usage>
    ensures done { IfOk result (λ asked. CanBeDone asked.request) }
    ensures read { IfOk result (λ asked. IsRead name.now (found_of matches.now) asked.request) }
    ensures color { IfOk result (λ asked. IsReadColor (found_of matches.now) asked.color) }
    ensures entries { IfOk result (λ asked. IsReadLayout (found_of matches.now) asked.entries) }
{
    Ok(Asked {
        request: request_of(alloc, name, matches)?,
        color: color_of(matches),
        entries: entries_of(matches),
    })
}

/// Reads the words of a command line, the program's name first, and returns the request that they make: a command with
/// its options, as the help lists them; when its answer is coloured, and how entries are laid out. Help and versions are
/// never coloured.
///
/// The error says which rule the words break, or that an allocation failed. A job in a request may be run, and each
/// request has the greatest input limit.
pub fn asked(alloc: Global, words: &[String]) -> Result<Asked, Usage>
    ensures { IfOk result (λ asked. CanBeDone asked.request) }
{
    let matches = match program(alloc)?.try_get_matches_from(words) {
        Ok(matches) => matches,
        Err(error) => {
            return Ok(Asked {
                request: answered(alloc, words, &error)?,
                color: ColorChoice::Never,
                entries: EntryLayout::Lines,
            });
        }
    };
    match matches.subcommand() {
        Some((name, command)) => asked_of(alloc, name, command),
        None => Err(Usage::Own(Mistake::Other)),
    }
}
