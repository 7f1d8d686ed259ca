//! The library part of the program: what the words of a command line ask for.
//!
//! [`asked`] reads the words, with clap, and returns a [`Request`], when its answer is coloured and how its entries
//! are laid out ([`Asked`], which [`on`](Asked::on) makes one for a terminal or a pipe), or a [`Usage`] that says why
//! there is none. A request to run holds a [`Job`], which `wsn_job` does over any reader and writers. [`Escaped`]
//! prints a word from outside so that a terminal isn't changed by it, and [`UnreadFile`] why a file can't be read.
//! [`hint_on_run`] says which everyday mistake an input looks like, [`hint_on_streams`] and [`hint_on_sides`] which of
//! two.
//!
//! And what the program does with the system, whatever was asked for: [`arguments`] are the words of its command line,
//! [`named_input`] the files that they name, [`stdio`] and [`printed_hints`] what it prints, on a [`pipe`] or in the
//! colours of a [`canvas`], and [`terminals`] which colours a terminal has.
//!
//! `specs/Inputs.antt` defines which input a word names, `specs/Requests.antt` which requests can be carried out,
//! `specs/Colors.antt` which answers are coloured or for people, `specs/ErrorWords.antt` how an error shows the words.
#![tactic(auto)]

pub mod arguments;
pub mod canvas;
mod closings;
mod command_line;
mod compared_hint;
mod error_words;
mod escaped;
mod hints;
mod mistake;
pub mod named_input;
mod options;
pub mod pipe;
pub mod printed_hints;
mod recut_options;
mod request;
pub mod stdio;
pub mod terminals;
mod unread;

pub use command_line::asked;
pub use compared_hint::ComparedHint;
pub use escaped::Escaped;
pub use hints::{hint_on_run, hint_on_sides, hint_on_streams};
pub use mistake::Mistake;
pub use request::{Asked, EntryLayout, PlannedRecut, Request, Usage};
pub use unread::{Unread, UnreadFile};
pub use wsn_color::{ColorChoice, Layout, Terminal};
pub use wsn_command::{Answer, Comparison, How, Job};
pub use wsn_hint::{Hint, plan_hint_of};
pub use wsn_print::Format;
pub use wsn_rules::Without;
