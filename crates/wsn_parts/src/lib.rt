//! What is read of one endpoint's stream part by part, with nothing held: the list of its frames, and the payload of one
//! event.
//!
//! [`list`] prints a line for each head, and then the verdict (RFC 6455 section 5.2); [`list_as`] prints in a [`Format`].
//! They read as [`judge`](wsn_scan::judge) does. `specs/Listing.antt` defines what is printed.
//!
//! [`payload`] writes the payload of the message, ping, pong or Close whose first frame begins at an offset (RFC 6455
//! sections 5.3 to 5.6), as its bytes come. `specs/EventsAt.antt` defines the event that begins at an offset, and what has
//! come of it; `specs/Payloads.antt` what is answered and written. [`laws`] has what follows: an input's bytes and an offset
//! have one answer, and one payload is written ([`laws::law_one_payload`]).
#![tactic(auto)]

mod answer;
mod event_at;
pub mod laws;
mod listing;
mod taking;

pub use answer::{EventStart, Payload};
pub use listing::{list, list_as};
pub use taking::payload;
pub use wsn_print::{Format, put_verdict};
