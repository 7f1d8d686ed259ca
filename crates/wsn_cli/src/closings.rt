ghost use Rattle.std.specs.Prelude.{◌≡◌, ◌↔◌, ◌≤◌, false, IsTrue, IfOk, List, ℕ, codes, map, string_bytes};
ghost use Rattle.clap.specs.Words.{found_of, matched_of};
ghost use Rattle.wsn_cli.specs.Inputs.{AreInputsNamed, AreSeveral, dashes};
ghost use Rattle.wsn_cli.specs.Options.{words_of};
ghost use Rattle.wsn_cli.specs.ReadRequests.{IsRead};
ghost use Rattle.wsn_cli.specs.Requests.{CanBeDone};

use crate::mistake::Mistake;
use crate::options::{format_of, limits_of};
use crate::request::{Request, Usage};
use clap::ArgMatches;
use std::alloc::Global;

/// The request of `closing` for several captures. The error is `TwoStandardInputs` if more than one is standard input.
pub fn closings_of(alloc: Global, matches: &ArgMatches<'_>) -> Result<Request, Usage>
    ensures done { IfOk result CanBeDone }
    ensures read { IfOk result (IsRead (codes "closing") (found_of matches.now)) }
{
    let Some(limits) = limits_of(matches) else {
        return Err(Usage::Own(Mistake::Other));
    };
    let files = files_of(alloc, matches)?;
    if has_two_dashes(&files) {
        return Err(Usage::Own(Mistake::TwoStandardInputs));
    }
    Ok(Request::Closings {
        limits,
        format: format_of(matches),
        files,
    })
}

/// Whether more than one file is named.
pub fn has_several(matches: &ArgMatches<'_>) -> bool
    ensures { IsTrue result ↔ AreSeveral (words_of (matched_of (found_of matches.now) (codes "file"))) }
{
    match matches.get_strs("file") {
        Some(names) => names.len() > 1,
        None => false,
    }
}

/// The names of the files to read: `-` if none is named.
fn files_of(alloc: Global, matches: &ArgMatches<'_>) -> Result<Vec<String>, Usage>
    ensures { IfOk result (λ files. AreInputsNamed (words_of (matched_of (found_of matches.now) (codes "file")))
        (map string_bytes files.items)) }
{
    match matches.get_strs("file") {
        Some(names) => owned(alloc, names),
        None => owned(alloc, &["-"]),
    }
}

/// These words, each in room of its own.
fn owned(alloc: Global, words: &[&str]) -> Result<Vec<String>, Usage>
    ensures { IfOk result (λ owned. map string_bytes owned.items ≡ map (λ word. word.now) words.now) }
{
    let mut owned = Vec::new(alloc);
    for word in words {
        owned.push(String::from_str(alloc, word)?)?;
    }
    Ok(owned)
}

/// Whether more than one of these names is `-`.
fn has_two_dashes(files: &[String]) -> bool
    ensures { (result ≡ false) → dashes (map string_bytes files.now) ≤ 1 }
{
    let mut has_one = false;
    for file in files {
        if file.as_str() == "-" {
            if has_one {
                return true;
            }
            has_one = true;
        }
    }
    false
}
