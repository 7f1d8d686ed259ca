//! What a stream means, and its normal form (RFC 6455 sections 5.4 to 5.6).
//!
//! An [`Event`] is a message, a ping, a pong or the close. A [`Source`] reads a stream's events, each at the frame that
//! ends it, and then its verdict; [`Source::next_turn`] lends a message that is whole in the chunk that was read last, and
//! doesn't copy it. [`put_event`] writes an event's normal form, which is one frame. [`normalise`] writes the normal form
//! of a stream. [`same`] compares what two streams mean, and [`same_without`] leaves out controls of some kinds;
//! [`contrast`] also returns the first events that differ. [`is_lawful`] checks whether a stream can mean an event, and
//! [`control_of`] returns a control's opcode and body.
//!
//! `specs/EventsMeant.antt` defines what an [`Event`] means, `specs/Sources.antt` which events a source gives,
//! `specs/LentMessages.antt` which message it lends, `specs/Turns.antt` what comes next of it, lent or not,
//! `specs/Normalised.antt` what normalising writes, `specs/Comparing.antt` what a comparison answers, and
//! `specs/Excerpts.antt` what is kept of the events that differ, and `specs/PayloadExcerpts.antt` of their payloads where
//! they differ. Lawful events and the normal form are defined in
//! `wsn_rules` (`specs/LawfulEvents.antt`, `specs/NormalForm.antt`). [`laws`] has the laws about them.
#![tactic(auto)]

mod comparing;
mod equal_bytes;
mod event;
mod excerpt;
mod first_difference;
mod framing;
pub mod laws;
mod leaving_out;
mod normal_form;
mod normalisation;
mod payload;
mod payload_difference;
mod reassembly;
mod source;
mod turn;

pub use comparing::{contrast, same, same_without};
pub use event::{Event, Small, is_lawful};
pub use excerpt::Excerpt;
pub use first_difference::FirstDifference;
pub use framing::{WireFrame, put_frame};
pub use normal_form::{control_of, put_event};
pub use normalisation::normalise;
pub use payload_difference::PayloadDifference;
pub use source::{Next, Source};
pub use turn::Turn;
pub use wsn_rules::{Compared, Without};
