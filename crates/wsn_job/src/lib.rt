//! What each command of the program does, over any reader and writers: what it prints on standard output, the line on
//! standard error, the exit status, and its answer ([`Ran`]).
//!
//! [`run`] does a [`Job`], the work of a command that reads one input; [`run_same`] compares two inputs.
//! [`run_on_side`] and [`run_same_on_sides`] do the same over one endpoint's side of a capture, and report a line that
//! isn't accepted; [`run_named_closing`] judges one of several captures. `specs/Work.antt` defines what a run does, from
//! the definitions of the single commands beside it, and `specs/Sides.antt` what a run over a side does.
//! [`status_examples`] has exit statuses that are computed from them.
#![tactic(auto)]

mod answers;
mod comparisons;
mod diagnostics;
mod done;
pub mod laws;
mod payloads;
mod plans;
mod printed_closings;
mod recuts;
mod redactions;
mod running;
mod shows;
mod sides;
pub mod status_examples;
mod streams;
mod verdicts;

pub use comparisons::run_same;
pub use printed_closings::{NamedClosing, run_named_closing};
pub use running::run;
pub use sides::{run_on_side, run_same_on_sides};
pub use streams::ComparedStreams;
pub use wsn_command::{Answer, Comparison, How, Job, Ran};
pub use wsn_print::Format;
pub use wsn_rules::Without;
