//! Redacts one endpoint's stream: what was said becomes stand-ins and zeros, each byte in its place, and all framing and
//! the verdict stay as they were (RFC 6455 sections 5 and 7).
//!
//! [`redact`] writes it as its bytes come and holds none of them. `specs/StandIns.antt` defines what takes the place of a
//! text, `specs/Redaction.antt` the redaction of a stream, and `specs/Redacting.antt` what is answered and written.
//!
//! [`redact_capture`] writes a capture with both streams redacted, cut into the same lines, and of its comments only times,
//! who reset the connection and the names of extensions. A [`CaptureRedactor`] does so line by line.
//! `specs/RedactedCaptures.antt` defines what becomes of the lines, and `specs/RedactingCaptures.antt` what is answered and
//! written.
//!
//! [`laws`] has what follows from the definition of a redaction. What a redaction leaves, the laws of captures, and computed
//! examples are in the crate `wsn_laws`.
#![tactic(auto)]

mod capture_redacting;
mod capture_redactor;
mod extension_names;
pub mod laws;
mod redacted_line;
mod redacted_payload;
mod redacting;
mod stand_ins;

pub use capture_redacting::{RedactStop, redact_capture};
pub use capture_redactor::CaptureRedactor;
pub use extension_names::Within;
pub use redacted_line::{LINE_ROOM, redact_line};
pub use redacting::redact;
