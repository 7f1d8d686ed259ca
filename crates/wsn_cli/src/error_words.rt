ghost use Rattle.std.specs.Prelude.{◌≡◌, ◌++◌, IfOk, codes, map, string_bytes};
ghost use Rattle.wsn_cli.specs.ErrorWords.{escaped, is_negative, is_positive, number_options, shown_words};
ghost use Rattle.wsn_cli.specs.Options.{has_word};

use crate::escaped::Escaped;
use crate::options::are_digits;
use std::alloc::{AllocError, Global};

/// The options that take a number.
static NUMBER_OPTIONS: [&str; 5] = ["--limit", "--frames", "--size", "--view", "--at"];

/// The words of a command line as an error text shows them: printable, and of each at most 80 characters. A negative
/// number after an option that takes a number is joined to it by `=`, so that clap names the option's range.
pub fn shown_in_errors(alloc: Global, words: &[String]) -> Result<Vec<String>, AllocError>
    ensures { IfOk result (λ shown. map string_bytes shown.items ≡ shown_words (map string_bytes words.now)) }
{
    let mut shown = Vec::new(alloc);
    let mut rest = words;
    while let [word, later @ ..] = rest {
        match later {
            [next, after @ ..] if takes_number(word.as_str()) && is_negative(next.as_str()) => {
                shown.push(joined(alloc, word.as_str(), next.as_str())?)?;
                rest = after;
            }
            _ => {
                shown.push(short(alloc, word.as_str())?)?;
                rest = later;
            }
        }
    }
    Ok(shown)
}

/// A word, by at most 80 characters.
fn short(alloc: Global, word: &str) -> Result<String, AllocError>
    ensures { IfOk result (λ shown. string_bytes shown ≡ escaped 80 word.now) }
{
    let word = Escaped::short(word);
    format!(in alloc; "{word}")
}

/// An option and its number, each by at most 80 characters.
fn joined(alloc: Global, option: &str, number: &str) -> Result<String, AllocError>
    ensures { IfOk result (λ shown. string_bytes shown ≡ escaped 80 option.now ++ (codes "=" ++ escaped 80 number.now)) }
{
    let option = Escaped::short(option);
    let number = Escaped::short(number);
    format!(in alloc; "{option}={number}")
}

/// Whether this is an option that takes a number.
fn takes_number(word: &str) -> bool
    ensures { result ≡ has_word number_options word.now }
{
    NUMBER_OPTIONS.contains(&word)
}

/// Whether this is `-` and a number from 1.
fn is_negative(word: &str) -> bool
    ensures { result ≡ is_negative word.now }
{
    match word.strip_prefix('-') {
        Some(digits) => is_positive(digits),
        None => false,
    }
}

/// Whether these are digits alone, of a number from 1 that fits 128 bits.
fn is_positive(digits: &str) -> bool
    ensures { result ≡ is_positive digits.now }
{
    if !are_digits(digits.as_bytes()) {
        return false;
    }
    match digits.parse::<u128>() {
        Ok(number) => number > 0,
        Err(_) => false,
    }
}
