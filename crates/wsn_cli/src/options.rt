ghost use Rattle.std.specs.Prelude.{◌≡◌, ◌≤◌, ◌↔◌, Some, IfOk, IfSome, codes};
ghost use Rattle.std.specs.Char.{is_ascii_digit};
ghost use Rattle.std.specs.List.{list_all};
ghost use Rattle.clap.specs.Words.{found_of, first_value, matched_of, one_text};
ghost use Rattle.wsn_wire.specs.declared.length_encoding.Lengths.TheVariants.{Any};
ghost use Rattle.wsn_cli.specs.Colors.{IsReadColor, IsReadLayout};
ghost use Rattle.wsn_cli.specs.Inputs.{IsInputNamed};
ghost use Rattle.wsn_cli.specs.Options.{AreInDigits, AreLeftOut, IsAsked, IsAskedMaximum, IsInDigits, IsViewText, words_of};
ghost use Rattle.wsn_cli.specs.Requests.{AreAskedLimits};
ghost use Rattle.wsn_cli.specs.ReadRequests.{AreReadLimits, IsReadComparison, IsReadFormat, IsReadRole, IsReadSide, IsReadStyle, IsReadView};

use crate::mistake::Mistake;
use crate::request::{EntryLayout, Usage};
use clap::ArgMatches;
use std::alloc::{AllocError, Global};
use wsn_color::ColorChoice;
use wsn_command::Comparison;
use wsn_print::{Format, Style, ViewLimit};
use wsn_rules::{Detail, INPUT_MAX, Limits, MESSAGE_MAX, Without};
use wsn_wire::{Lengths, Role};

/// The most bytes of a payload that are shown without `--view`: so that lines fit 80 columns.
const VIEW_DEFAULT: u16 = 48;

/// The name of the file to read, from the argument with this name; `None` is standard input: there is no such argument,
/// or it is `-`.
pub fn file_of(
    alloc: Global,
    matches: &ArgMatches<'_>,
    name: &str,
) -> Result<Option<String>, AllocError>
    ensures { IfOk result (IsInputNamed (first_value (found_of matches.now) name.now)) }
{
    match matches.get_str(name) {
        None | Some("-") => Ok(None),
        Some(file) => Ok(Some(String::from_str(alloc, file)?)),
    }
}

/// The side of a capture that is read, from `--capture`: that of the endpoint that sent the stream. `None` if the input
/// is no capture.
pub fn side_of(matches: &ArgMatches<'_>, role: Role) -> Option<Role>
    ensures own { IfSome result (λ side. side ≡ role) }
    ensures read { IsReadSide (found_of matches.now) role result }
{
    matches.get_flag("capture").then_some(role)
}

/// The endpoint that sent the stream, from `--role`.
pub fn role_of(matches: &ArgMatches<'_>) -> Role
    ensures { IsReadRole (found_of matches.now) result }
{
    match matches.get_str("role") {
        Some("server") => Role::Server,
        _ => Role::Client,
    }
}

fn lengths_of(matches: &ArgMatches<'_>) -> Lengths
    ensures { result ≡ Any ↔ (first_value (found_of matches.now) (codes "lengths") ≡ Some (codes "any")) }
{
    match matches.get_str("lengths") {
        Some("any") => Lengths::Any,
        _ => Lengths::Shortest,
    }
}

/// The limits for reading a stream, from `--limit`, `--frames` and `--lengths`; `None` if a number is out of range. The
/// input limit is its maximum.
pub fn limits_of(matches: &ArgMatches<'_>) -> Option<Limits>
    ensures asked { IfSome result AreAskedLimits }
    ensures read { IfSome result (AreReadLimits (found_of matches.now)) }
{
    let message = number_of(matches, "limit")?.unwrap_or(MESSAGE_MAX);
    let limits = Limits::new(message, INPUT_MAX)?.with_lengths(lengths_of(matches));
    match number_of(matches, "frames")? {
        Some(frames) => limits.with_frames(frames),
        None => Some(limits),
    }
}

/// The offset at which an event begins, from `--at`; `None` if its value is no number below 2^64.
pub fn at_of(matches: &ArgMatches<'_>) -> Option<u64>
    ensures { IfSome result (IsAsked (one_text (found_of matches.now) (codes "at")) 0) }
{
    Some(matches.try_get_one::<u64>("at").ok()?.unwrap_or(0))
}

/// The number that an option asks for, or `None` without the option; `None` of that if its value is no number below 2^32.
pub fn number_of(matches: &ArgMatches<'_>, name: &str) -> Option<Option<u32>>
    ensures { IfSome result (IsAskedMaximum (one_text (found_of matches.now) name.now)) }
{
    matches.try_get_one::<u32>(name).ok()
}

/// The controls that a comparison leaves out, from `--without`.
pub fn without_of(matches: &ArgMatches<'_>) -> Without
    ensures { AreLeftOut (words_of (matched_of (found_of matches.now) (codes "without"))) result }
{
    let Some(kinds) = matches.get_strs("without") else {
        return Without {
            ping: false,
            pong: false,
            close: false,
        };
    };
    Without {
        ping: kinds.contains(&"ping"),
        pong: kinds.contains(&"pong"),
        close: kinds.contains(&"close"),
    }
}

/// The format in which the answer is printed, from `--json`.
pub fn format_of(matches: &ArgMatches<'_>) -> Format
    ensures { IsReadFormat (found_of matches.now) result }
{
    if matches.get_flag("json") {
        Format::Json
    } else {
        Format::Text
    }
}

/// When the answer is coloured, from `--color`.
pub fn color_of(matches: &ArgMatches<'_>) -> ColorChoice
    ensures { IsReadColor (found_of matches.now) result }
{
    match matches.get_str("color") {
        Some("always") => ColorChoice::Always,
        Some("never") => ColorChoice::Never,
        _ => ColorChoice::Auto,
    }
}

/// How entries are laid out, from `--layout`.
pub fn entries_of(matches: &ArgMatches<'_>) -> EntryLayout
    ensures { IsReadLayout (found_of matches.now) result }
{
    match matches.get_str("layout") {
        Some("lines") => EntryLayout::Lines,
        Some("people") => EntryLayout::People,
        _ => EntryLayout::Auto,
    }
}

/// What is shown of a stream under these limits, how much of it and in which format, from `--view`, `--wire` and `--json`;
/// `None` if the number of bytes is out of range.
pub fn style_of(matches: &ArgMatches<'_>, limits: Limits) -> Option<Style>
    ensures { IfSome result (IsReadStyle (found_of matches.now) limits) }
{
    let view = shown_view_of(matches, limits)?;
    let detail = if matches.get_flag("wire") {
        Detail::Frames
    } else {
        Detail::Events
    };
    let format = format_of(matches);
    Some(Style {
        view,
        detail,
        format,
    })
}

/// How much is shown of a payload of a stream under these limits, from `--view`; `None` if the number of bytes is out of
/// range.
fn shown_view_of(matches: &ArgMatches<'_>, limits: Limits) -> Option<ViewLimit>
    ensures { IfSome result (IsReadView (found_of matches.now) limits) }
{
    match matches.get_str("view") {
        Some("all") => Some(ViewLimit::whole(limits)),
        _ => ViewLimit::new(view_of(matches)?.unwrap_or(VIEW_DEFAULT)),
    }
}

/// How much a comparison shows of the events that differ, from `--view`, or `None` without it; `None` of that if the number
/// of bytes is out of range.
fn events_view_of(matches: &ArgMatches<'_>) -> Option<Option<ViewLimit>>
    ensures in_range { IfSome result (λ view. IfSome view (λ n. n ≤ 4096)) }
    ensures read { IfSome result (IsAskedMaximum (one_text (found_of matches.now) (codes "view"))) }
{
    match view_of(matches)? {
        Some(bytes) => Some(Some(ViewLimit::new(bytes)?)),
        None => Some(None),
    }
}

/// The number of bytes that `--view` asks for, or `None` without it; `None` of that if its value is no number below 2^16.
fn view_of(matches: &ArgMatches<'_>) -> Option<Option<u16>>
    ensures { IfSome result (IsAskedMaximum (one_text (found_of matches.now) (codes "view"))) }
{
    matches.try_get_one::<u16>("view").ok()
}

/// How two streams are compared, from the options of `same`; `None` if a number is out of range. No events are shown
/// without `--view`.
pub fn comparison_of(matches: &ArgMatches<'_>) -> Option<Comparison>
    ensures limits { IfSome result (λ comparison. AreAskedLimits comparison.limits) }
    ensures read { IfSome result (IsReadComparison (found_of matches.now)) }
{
    let limits = limits_of(matches)?;
    let view = events_view_of(matches)?;
    Some(Comparison {
        role: role_of(matches),
        limits,
        without: without_of(matches),
        format: format_of(matches),
        view,
    })
}

/// Refuses a number of the command with this name that isn't digits alone, such as `+5`, which clap accepts.
pub fn check_digits(name: &str, matches: &ArgMatches<'_>) -> Result<(), Usage>
    ensures { IfOk result (λ _. AreInDigits name.now (found_of matches.now)) }
{
    check_number(matches, "limit")?;
    check_number(matches, "frames")?;
    check_number(matches, "size")?;
    check_view(name, matches)?;
    check_number(matches, "at")
}

/// Refuses a value of `--view` that isn't digits alone, unless it is the `all` of `show`.
fn check_view(name: &str, matches: &ArgMatches<'_>) -> Result<(), Usage>
    ensures { IfOk result (λ _. IsViewText name.now (first_value (found_of matches.now) (codes "view"))) }
{
    match (name, matches.get_str("view")) {
        ("show", Some("all")) => Ok(()),
        ("show", _) => check_number(matches, "view").or(Err(Usage::Own(Mistake::BadView))),
        _ => check_number(matches, "view"),
    }
}

/// Refuses a value of this option that isn't digits alone, at least one.
fn check_number(matches: &ArgMatches<'_>, option: &str) -> Result<(), Usage>
    ensures { IfOk result (λ _. IsInDigits (first_value (found_of matches.now) option.now)) }
{
    let Some(text) = matches.get_str(option) else {
        return Ok(());
    };
    if !text.is_empty() && are_digits(text.as_bytes()) {
        Ok(())
    } else {
        Err(Usage::Own(Mistake::NoNumber))
    }
}

/// Whether all bytes are digits.
pub fn are_digits(text: &[u8]) -> bool
    ensures { result ≡ list_all is_ascii_digit text.now }
{
    text.iter().all(|byte| byte.is_ascii_digit())
}
