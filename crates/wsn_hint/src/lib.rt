//! Hints: which everyday mistake an input looks like, by its first bytes.
//!
//! [`hint_of`] is for an input that is read as a stream, [`capture_hint_of`] for a capture of which a line isn't
//! accepted, [`sides_hint_of`] and [`handshake_hint_of`] for any other capture, [`after_close_hint_of`] and
//! [`accusing_hint_of`] by what was read of it, and [`plan_hint_of`] for an input that is read as a plan. A [`Hint`] has
//! a line that says what to do next. A hint changes no answer: it goes by the answer, and by bytes that were read in
//! passing (`wsn_io::FirstBytes`).
//!
//! `specs/Hints.antt` defines which hint a stream or a faulty capture has, `specs/SideHints.antt` which the sides of a
//! capture have, and `specs/Comments.antt` what a capture's comments say.
#![tactic(auto)]

mod accusations;
mod captures;
mod charge;
mod comments;
mod early_verdict;
mod formats;
mod hint;
mod plans;
mod refused_sides;
mod sent_text;
mod sides;
mod streams;

pub use accusations::accusing_hint_of;
pub use captures::capture_hint_of;
pub use charge::Charge;
pub use hint::Hint;
pub use plans::plan_hint_of;
pub use refused_sides::RefusedSides;
pub use sides::{after_close_hint_of, handshake_hint_of, sides_hint_of};
pub use streams::hint_of;
pub use wsn_capture::RefusedLines;
