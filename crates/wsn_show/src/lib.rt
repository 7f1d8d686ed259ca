//! Shows what both sides of a WebSocket session said, in order (RFC 6455 sections 5 and 7): each event with its last
//! byte, or each frame with the last byte of its head; a refusal with the offending byte; and what is left over where a
//! stream ends.
//!
//! [`show`] reads a capture and prints what each of its lines completes, and then the report. A [`CaptureView`] does so
//! line by line. [`show_stream`] shows the stream of one endpoint, a [`StreamView`] its bytes as they come. A [`Style`]
//! says whether events or frames are shown, and how much of a payload. Nothing is allocated: at most one line is held,
//! and of each stream the first bytes of its open message, in memory that the caller lends, the last bytes of the frame
//! that has begun, and the end of the message's payload in complete frames, where a bad character may begin.
//!
//! `wsn_rules/specs/ShownStream.antt` defines what is shown of a stream and what is left over, `ShownCapture.antt` what
//! is shown of a capture, and `wsn_shown_text/specs/ShownText.antt` how it is printed. Here, `specs/Showing.antt` defines
//! what was printed at each answer, `specs/CaptureViews.antt` and `specs/ShownSoFar.antt` how a view's state is related
//! to the lines or bytes that came, `specs/StreamParts.antt` what is kept of the open message and of the frame that has
//! begun, and `specs/LastPayloads.antt` what is kept of the message's last bytes. `specs/EndedByTexts.antt` defines
//! how it is printed who ended a connection; [`laws`] says that a capture has one text.
#![tactic(auto)]

mod capture_view;
mod earlier_payload;
mod end_notes;
mod ended_by;
mod entry_context;
mod feeding;
mod first_bytes;
mod following;
mod last_bytes;
mod last_payload;
mod last_times;
pub mod laws;
mod message_so_far;
mod payload_bytes;
mod showing;
mod shown_item;
mod stream_items;
mod stream_parts;
mod stream_showing;
mod stream_view;
mod times;

pub use capture_view::CaptureView;
pub use showing::{ShowStop, show};
pub use stream_showing::show_stream;
pub use stream_view::StreamView;
pub use wsn_print::Style;
