ghost use Rattle.std.specs.Prelude.{◌≡◌, ℕ, List, Some, IfOk, IfSome, option_map, codes};
ghost use Rattle.clap.specs.Words.{found_of, one_text};
ghost use Rattle.wsn_cli.specs.Options.{IsAskedMaximum};
ghost use Rattle.wsn_cli.specs.Requests.{CanBeDone};
ghost use Rattle.wsn_cli.specs.ReadRequests.{IsRead, IsReadKey};

use crate::mistake::Mistake;
use crate::options::{file_of, limits_of, number_of, role_of, side_of};
use crate::request::{PlannedRecut, Request, Usage};
use clap::ArgMatches;
use hex::FromHex;
use std::alloc::Global;
use wsn_command::{How, Job};

/// The request of `recut`. It has exactly one of a plan and a size, and `--weave` and `--key` only with a size; a key is 8
/// hexadecimal digits, and a server has none. The error is the first of these rules that is broken.
pub fn recut_of(alloc: Global, matches: &ArgMatches<'_>) -> Result<Request, Usage>
    ensures done { IfOk result CanBeDone }
    ensures read { (name : List ℕ) → name ≡ codes "recut" → IfOk result (IsRead name (found_of matches.now)) }
{
    let Some(size) = size_of(matches) else {
        return recut_without_size(alloc, matches);
    };
    if matches.get_str("plan").is_some() {
        return Err(Usage::Own(Mistake::PlanAndSize));
    }
    recut_by_size(alloc, matches, size)
}

/// The request of `recut` without a size. The error is `NoPlanOrSize` without a plan, and `SizeOptionWithPlan` for
/// `--weave` or `--key`.
fn recut_without_size(alloc: Global, matches: &ArgMatches<'_>) -> Result<Request, Usage>
    ensures done { IfOk result CanBeDone }
    ensures read { (name : List ℕ) → name ≡ codes "recut" → IfOk result (IsRead name (found_of matches.now)) }
{
    if matches.get_str("plan").is_none() {
        return Err(Usage::Own(Mistake::NoPlanOrSize));
    }
    if matches.get_flag("weave") || matches.get_str("key").is_some() {
        return Err(Usage::Own(Mistake::SizeOptionWithPlan));
    }
    recut_by_plan(alloc, matches)
}

/// The request of `recut` by a plan. The error is `TwoStandardInputs` if the plan and the stream are both on standard
/// input.
fn recut_by_plan(alloc: Global, matches: &ArgMatches<'_>) -> Result<Request, Usage>
    ensures done { IfOk result CanBeDone }
    ensures read { (name : List ℕ) → name ≡ codes "recut" → IfOk result (IsRead name (found_of matches.now)) }
{
    let role = role_of(matches);
    let plan = file_of(alloc, matches, "plan")?;
    let file = file_of(alloc, matches, "file")?;
    match limits_of(matches) {
        Some(limits) if plan.is_some() || file.is_some() => Ok(Request::RecutBy(PlannedRecut {
            role,
            limits,
            plan,
            file,
            side: side_of(matches, role),
        })),
        Some(_) => Err(Usage::Own(Mistake::TwoStandardInputs)),
        None => Err(Usage::Own(Mistake::Other)),
    }
}

/// The size of the frames, from `--size`; `None` without it.
fn size_of(matches: &ArgMatches<'_>) -> Option<u32>
    ensures { IfSome result (λ size. IsAskedMaximum (one_text (found_of matches.now) (codes "size")) (Some size)) }
{
    number_of(matches, "size")?
}

/// The request of `recut` by the size of `--size`. The error is `BadKey` if `--key` isn't 8 hexadecimal digits, and
/// `KeyOfServer` for a key with a server.
fn recut_by_size(alloc: Global, matches: &ArgMatches<'_>, size: u32) -> Result<Request, Usage>
    ensures done { IfOk result CanBeDone }
    ensures read { (name : List ℕ) → name ≡ codes "recut" →
        IsAskedMaximum (one_text (found_of matches.now) (codes "size")) (Some size) →
        IfOk result (IsRead name (found_of matches.now)) }
{
    let role = role_of(matches);
    let weave = matches.get_flag("weave");
    let key = key_of(matches.get_str("key"))?;
    let Some(limits) = limits_of(matches) else {
        return Err(Usage::Own(Mistake::Other));
    };
    let Some(how) = How::by_size(role, size, weave, key) else {
        return Err(Usage::Own(Mistake::KeyOfServer));
    };
    Ok(Request::Run {
        job: Job::Recut(role, limits, how),
        file: file_of(alloc, matches, "file")?,
        side: side_of(matches, role),
    })
}

/// The key that these digits encode, if a key is asked for.
fn key_of(digits: Option<&str>) -> Result<Option<[u8; 4]>, Usage>
    ensures { IfOk result (IsReadKey (option_map (λ text. text.now) digits.entry)) }
{
    let Some(digits) = digits else {
        return Ok(None);
    };
    match <[u8; 4] as FromHex>::from_hex(digits.as_bytes()) {
        Ok(key) => Ok(Some(key)),
        Err(_) => Err(Usage::Own(Mistake::BadKey)),
    }
}
