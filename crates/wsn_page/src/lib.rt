//! What a session is shown as, and its redaction, over memory that the caller lends: the engine of the page `wsn.html`,
//! which runs it as WebAssembly. Nothing here allocates.
//!
//! The calls do what `wsn show --json --view 4096` and `wsn redact` do. Each puts as much of the text as fits into the
//! caller's room, and answers with the exit status and with the size of the whole text. `specs/Calls.antt` defines this by
//! the run of the command (`wsn_job`), and `specs/Asking.antt` what settings ask for.
#![tactic(auto)]

mod answer;
mod calls;
mod giving;
mod room;
mod settings;
#[cfg(test)]
mod tests;

pub use answer::Answer;
pub use calls::{wsn_page_redact, wsn_page_redact_stream, wsn_page_show, wsn_page_show_stream};
pub use settings::Settings;
