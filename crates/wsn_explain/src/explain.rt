//! What the printed words mean: the texts of `wsn explain`.
//!
//! Each entry is borrowed by itself, and no static has all of a file: proving what reads a static takes a time that grows
//! with the square of its bytes.

mod codes;
mod comments;
mod errors;
mod frames;
mod lines;
mod plans;
mod reasons;
mod reports;
mod shown;
mod verdicts;

use std::alloc::{AllocError, Global};

/// The widest line of a list of words, in columns.
const WIDTH: usize = 80;

/// Printed words, and the text that explains them: at most ten lines of at most 80 columns.
pub struct Entry {
    words: &'static [&'static str],
    text: &'static str,
}

/// What is done with the words, a group at a time.
trait Visitor {
    /// Does it with the words that are listed under this title.
    fn visit(&mut self, title: &'static str, entries: &[&'static Entry]);
}

/// Shows a visitor all words, in the order in which they are listed.
fn visit_groups(visitor: &mut impl Visitor) {
    visitor.visit("Verdicts", &verdicts::verdict_entries());
    visitor.visit("Reasons of a refusal", &reasons::reason_entries());
    visitor.visit("Lists of frames", &frames::frame_entries());
    visitor.visit("What both sides said", &shown::shown_entries());
    visitor.visit("Comparisons", &verdicts::comparison_entries());
    visitor.visit(
        "Reports on how a connection closed",
        &reports::report_entries(),
    );
    visitor.visit("Outcomes", &reports::outcome_entries());
    visitor.visit("Close codes", &codes::code_entries());
    visitor.visit("Comments in captures", &comments::comment_entries());
    visitor.visit("Plans, and why one doesn't fit", &plans::plan_entries());
    visitor.visit("Malformed captures and plans", &lines::line_entries());
    visitor.visit("Errors", &errors::error_entries());
}

/// The explanation of a printed word, such as `cut`, of words such as `read failed`, or of a close code; `None` if there
/// is none.
pub fn explanation(words: &str) -> Option<&'static str> {
    let mut search = TextSearch {
        words: listed_words(words),
        text: None,
    };
    visit_groups(&mut search);
    search.text
}

/// Looks for the text of words.
#[derive(Drop)]
struct TextSearch<'a> {
    words: &'a str,
    text: Option<&'static str>,
}

impl Visitor for TextSearch<'_> {
    fn visit(&mut self, _title: &'static str, entries: &[&'static Entry]) {
        for entry in entries {
            if self.text.is_none() && entry.words.contains(&self.words) {
                self.text = Some(entry.text);
            }
        }
    }
}

/// The printed words that differ from these in capitals alone, or in `_` or a space for `-`; `None` if there are none.
pub fn similar_words(words: &str) -> Option<&'static str> {
    let mut search = SimilarSearch {
        words,
        printed: None,
    };
    visit_groups(&mut search);
    search.printed
}

/// Looks for printed words that are similar to these.
#[derive(Drop)]
struct SimilarSearch<'a> {
    words: &'a str,
    printed: Option<&'static str>,
}

impl Visitor for SimilarSearch<'_> {
    fn visit(&mut self, _title: &'static str, entries: &[&'static Entry]) {
        for entry in entries {
            for printed in entry.words {
                if self.printed.is_none() && are_similar(printed, self.words) {
                    self.printed = Some(printed);
                }
            }
        }
    }
}

/// Whether the words are the same but for capitals, and for `-`, `_` and spaces.
fn are_similar(printed: &str, words: &str) -> bool {
    printed.len() == words.len()
        && printed
            .bytes()
            .zip(words.bytes())
            .all(|(printed, byte)| plain(printed) == plain(byte))
}

/// A byte of a word as a small letter, and a space as `-`.
fn plain(byte: u8) -> u8 {
    match byte {
        b'_' | b' ' => b'-',
        _ => byte.to_ascii_lowercase(),
    }
}

/// The words under which a printed word is explained. The codes from 3000 are explained by thousands.
fn listed_words(words: &str) -> &str {
    match words.parse::<u16>() {
        Ok(3000..=3999) => "3000",
        Ok(4000..=4999) => "4000",
        _ => words,
    }
}

/// The list of the words that are explained, in groups.
pub fn list_of_words(alloc: Global) -> Result<String, AllocError> {
    let text = String::from_str(alloc, "wsn explain WORD explains a word that wsn prints:\n")?;
    let mut list = List {
        text,
        outcome: Ok(()),
    };
    visit_groups(&mut list);
    let List { text, outcome } = list;
    outcome?;
    Ok(text)
}

/// The list so far, unless memory ran out.
struct List {
    text: String,
    outcome: Result<(), AllocError>,
}

impl Visitor for List {
    fn visit(&mut self, title: &'static str, entries: &[&'static Entry]) {
        if self.outcome.is_ok() {
            self.outcome = push_group(&mut self.text, title, entries);
        }
    }
}

/// Appends an empty line, the title, and the words in lines of at most 80 columns.
fn push_group(
    text: &mut String,
    title: &str,
    entries: &[&'static Entry],
) -> Result<(), AllocError> {
    text.push_str("\n")?;
    text.push_str(title)?;
    let mut column = WIDTH;
    for entry in entries {
        column = push_words(text, column, entry.words)?;
    }
    text.push_str("\n")?;
    Ok(())
}

/// Appends words to a line that has `column` columns so far, and returns the columns of the last line.
fn push_words(text: &mut String, column: usize, words: &[&str]) -> Result<usize, AllocError> {
    let mut column = column;
    for word in words {
        let width = word.len().saturating_add(2);
        column = column.saturating_add(width);
        if column > WIDTH {
            text.push_str("\n")?;
            column = width;
        }
        text.push_str("  ")?;
        text.push_str(word)?;
    }
    Ok(column)
}
