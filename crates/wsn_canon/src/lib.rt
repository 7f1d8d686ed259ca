//! The one crate that a user of the library depends on: verdicts, frames, events, normal forms, comparisons, plans,
//! recuts and captures (RFC 6455 sections 5 and 7).
//!
//! [`judge`] returns the verdict on a stream, and [`put_verdict`] writes its line. [`list`] writes a line for each frame,
//! and [`list_as`] in a [`Format`]; [`FrameReader`] takes an input apart into the [`Part`]s of its frames, and [`Scan`]
//! does so with bytes as they come.
//!
//! [`Source`] reads the [`Event`]s of a stream, [`put_event`] writes one event, [`normalise`] writes a stream's normal
//! form, and [`same`] compares two streams. [`plan_of`] returns the [`Plan`] of a stream's own frames, [`recut`] writes
//! a stream's events in the frames of a plan, and [`uniform`] plans frames of one size. [`read_plan`] and
//! [`write_plan`] read and write plans as text.
//!
//! [`judge_capture`] reports on both sides of a capture, and [`put_report`] writes the report; [`Capture`] does so with
//! bytes as they come, and a [`SideReader`] reads one side of a capture as a stream. [`laws`] has the main laws.
//!
//! Everything here is re-exported from `wsn_scan`, `wsn_parts`, `wsn_events`, `wsn_plan`, `wsn_capture` and the crates
//! below them.
#![tactic(auto)]

pub mod laws;

pub use wsn_capture::{
    Capture, CaptureStop, LineFault, Outcome, Report, Side, SideReader, judge_capture,
};
pub use wsn_events::{
    Compared, Event, Next, Small, Source, control_of, is_lawful, normalise, put_event, same,
};
pub use wsn_io::{Input, Output};
pub use wsn_parts::{Format, list, list_as, put_verdict};
pub use wsn_plan::{
    LineWhy, Plan, PlanAnswer, PlanFault, PlanFileFault, RecutAnswer, Step, UniformFrames, Why,
    plan_of, read_plan, read_plan_file, recut, recut_uniform, uniform, write_plan,
};
pub use wsn_print::put_report;
pub use wsn_scan::{
    FrameReader, HeadInfo, INPUT_MAX, Limits, MESSAGE_MAX, Part, Refusal, Scan, Stop, Summary,
    Taken, Verdict, judge,
};
pub use wsn_wire::{Form, Kind, Lengths, Op, Reason, Role};
