//! Colours: a [`Painter`] writes what is written to it, with codes that colour parts of the lines. [`Layout`] says which
//! lines they are, and [`ColorChoice`] when an answer is painted.
//!
//! `specs/Codes.antt` defines what a text is without codes and what they colour, `specs/Painting.antt` what a painter
//! was given.
#![tactic(auto)]

mod brush;
mod choice;
pub mod laws;
mod layout;
mod line;
mod opening;
mod painter;
mod queue;
mod tone;

pub use choice::{ColorChoice, Terminal, names_colors};
pub use layout::Layout;
pub use painter::Painter;
