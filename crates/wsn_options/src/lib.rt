//! The commands and options of the program, described for clap, and the help texts.
//!
//! [`program`] describes all commands. [`SHARED`] follows the help of each. What words of a command line ask for is in
//! `wsn_cli`.
#![tactic(auto)]

mod argument;
mod commands;
mod help;
mod options;
mod recut_options;
mod taken;

pub use commands::program;
pub use help::SHARED;
