//! What a command is asked to do: a [`Job`] over one input, with [`How`] a stream is recut, or the [`Comparison`] of two;
//! and what its run came to ([`Ran`]). `wsn_job` does it, and `wsn_cli` makes it of the words of a command line.
//!
//! `specs/Jobs.antt` says which jobs may be done.
#![tactic(auto)]

mod answered;
mod comparison;
mod job;

pub use answered::{Answer, Ran};
pub use comparison::Comparison;
pub use job::{How, Job};
