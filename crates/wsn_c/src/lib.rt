//! The commands of `wsn` over memory, for programs in C and in languages that call C. `include/wsn.h` declares them.
//!
//! Each call reads bytes from memory, puts as much of what the command prints as fits into the caller's room, and answers
//! with the exit status and with the size of all that it prints: where the room is too small, a second call with a room
//! of that size gives everything. `specs/Calls.antt` defines this by the run of the command (`wsn_job`), and
//! `specs/Asking.antt` what options ask for.
#![tactic(auto)]

mod answer;
mod comparing;
mod defaults;
mod options;
mod over_captures;
mod over_streams;
mod recutting;
mod running;
mod sides;
mod text;

pub use answer::Answer;
pub use comparing::{wsn_same, wsn_same_view};
pub use defaults::wsn_defaults;
pub use options::{Asked, Options};
pub use over_captures::{wsn_closing, wsn_redact_capture, wsn_show};
pub use over_streams::{
    wsn_frames, wsn_judge, wsn_normal, wsn_payload, wsn_plan, wsn_redact, wsn_show_stream,
};
pub use recutting::{wsn_recut, wsn_recut_by_size};
pub use sides::wsn_sent;
