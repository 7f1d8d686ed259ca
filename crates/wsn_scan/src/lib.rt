//! Reads one endpoint's stream, takes it apart into its frames and gives its verdict (RFC 6455 sections 5 and 7).
//!
//! [`judge`] reads an input to its verdict. [`FrameReader`] takes the parts of each frame as they come: its head, its
//! payload and its end. [`Scan`] does the work for both: it consumes a stream in chunks and keeps none of the bytes.
//!
//! `wsn_rules` defines what a stream means and which verdict it has. `specs/` defines how a scan's state relates to the
//! bytes that it has consumed. One frame's head, key and payload check are in `wsn_frame`.
#![tactic(auto)]

mod chunk_reader;
mod frame_reader;
mod judging;
pub mod laws;
mod part;
mod scan;
mod stage;

pub use chunk_reader::{CHUNK, ChunkReader};
pub use frame_reader::FrameReader;
pub use judging::judge;
pub use part::{Part, Taken};
pub use scan::Scan;
pub use wsn_io::Stop;
pub use wsn_rules::{HeadInfo, INPUT_MAX, Limits, MESSAGE_MAX, Refusal, Summary, Verdict};
