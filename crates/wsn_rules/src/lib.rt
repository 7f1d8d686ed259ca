//! The rules: what the bytes mean that one endpoint of a WebSocket connection sends after the opening handshake (RFC
//! 6455 sections 5, 7 and 8). This crate has the definitions in `specs/`, the laws that follow from them, and the types
//! of most answers; the engines are in other crates.
//!
//! `specs/Lib.antt` lists the definitions in reading order. [`laws`] has the main laws, [`lists`] how lists of frames
//! continue, [`recuts`] how recuts continue, [`faults`] the faults of plans, [`uniform_plans`] where those plans fit,
//! [`shown`] what is shown of a stream and of a capture, and [`bad_characters`] the character with which a text goes
//! wrong. Examples that are computed from the definitions are in the crate `wsn_laws`.
#![tactic(auto)]

pub mod bad_characters;
mod closing_handshake;
mod compared;
mod detail;
pub mod faults;
mod head_info;
pub mod laws;
mod limits;
pub mod lists;
pub mod recuts;
pub mod shown;
mod step;
pub mod uniform_plans;
mod verdict;
mod why;
mod without;

pub use closing_handshake::{Outcome, Report, Side};
pub use compared::Compared;
pub use detail::Detail;
pub use head_info::HeadInfo;
pub use limits::{INPUT_MAX, Limits, MESSAGE_MAX};
pub use step::Step;
pub use verdict::{Refusal, Summary, Verdict};
pub use why::Why;
pub use without::Without;
