//! Plans of streams, and streams refragmented by plans (RFC 6455 sections 5.2 to 5.4).
//!
//! A [`Plan`] has one [`Step`] for each frame; `wsn_plan_text` reads and writes it as text. [`plan_of`] returns the
//! plan of a stream's own frames, and [`uniform`] plans frames of one size. [`recut`] writes what an accepted input
//! means in the frames of a plan, or returns the plan's fault. [`recut_uniform`] refragments a stream by a uniform
//! plan.
//!
//! Which plans fit, their faults and their recuts are defined in `wsn_rules`. `specs/Recutting.antt` defines what a
//! recut answers and writes, `specs/Gathering.antt` what is known when it stops, and `specs/Planning.antt` what
//! `plan_of` returns.
#![tactic(auto)]

mod checking;
mod framing;
mod gathering;
mod kept;
pub mod laws;
mod planning;
mod recutting;
mod uniform_plans;
mod walking;

pub use planning::{PlanAnswer, plan_of};
pub use recutting::{RecutAnswer, recut, recut_uniform};
pub use uniform_plans::{UniformFrames, uniform};
pub use wsn_plan_text::{
    LineWhy, Plan, PlanFault, PlanFileFault, read_plan, read_plan_file, write_plan,
};
pub use wsn_rules::{Step, Why};
