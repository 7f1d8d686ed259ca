//! Plans and their text: how a stream's events are split into frames, one line for each frame (RFC 6455 sections 5.2 to
//! 5.4).
//!
//! A [`Plan`] has one [`Step`] for each frame. [`read_plan`] reads a plan from text, [`read_plan_file`] from a file,
//! and [`write_plan`] writes it as text. `wsn_plan` makes plans, refragments streams by them, and re-exports these
//! names.
//!
//! `specs/PlanText.antt` defines which text encodes which plan, and the fault of a text that encodes none.
//! `specs/PlanFiles.antt` defines what a file gives.
#![tactic(auto)]

pub mod laws;
mod line_fields;
mod plan;
mod plan_fault;
mod plan_files;
mod reading_plans;
mod step_lines;
mod writing_plans;

pub use plan::Plan;
pub use plan_fault::{LineWhy, PlanFault};
pub use plan_files::{PlanFileFault, read_plan_file};
pub use reading_plans::read_plan;
pub use writing_plans::write_plan;
pub use wsn_rules::Step;
