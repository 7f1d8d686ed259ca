//! Captures: what both endpoints of a WebSocket connection sent, in lines of hexadecimal digits, and how the connection
//! closed (RFC 6455 section 7.1).
//!
//! The client closes with code 1000, the server echoes it, and both directions end:
//!
//! ```text
//! C 88820000000003e8
//! S 880203e8
//! S.
//! C.
//! ```
//!
//! An endpoint's *stream* is the bytes of its lines, joined; its end mark ends the stream. Its [`Side`] says what
//! became of that stream.
//!
//! [`judge_capture`] reads a text and returns the [`Report`] of its lines, or the first line that isn't accepted;
//! [`read_capture`] also says how many bytes each endpoint sent after its Close ([`Tails`]), and what is kept of the
//! lines with the offending bytes of refused streams ([`RefusedLines`]). A [`Capture`] accepts lines one by one and
//! reports on those that it has accepted. It is [`CaptureLines`], which finds each line's first fault and keeps what
//! counts of those accepted, with a scan of each endpoint's stream; whoever reads the streams in another way has
//! `CaptureLines` alone. A [`SideReader`] is one endpoint's stream as a reader: an engine reads it as it reads any
//! stream. [`Lines`] splits the chunks of a text into lines, and [`time_of`] gives the time that a comment says.
//! `put_report` of `wsn_print` prints a report. None of them allocates memory, and at most one line is held.
//!
//! In `wsn_rules`, `specs/TextLines.antt` defines the lines of a text, `specs/Entries.antt` what a line gives,
//! `specs/Sides.antt` what became of each stream and `specs/ClosingHandshake.antt` the report; in `wsn_print`,
//! `specs/ReportText.antt` defines how a report is printed. Here, `specs/LineFaults.antt` defines which lines aren't
//! accepted, `specs/TailCounts.antt` how many bytes come after a Close, `specs/RefusedLines.antt` the lines with
//! offending bytes, `specs/EndedBy.antt` who ended the connection, `specs/CaptureAnswers.antt` the answer to a text,
//! `specs/SideTexts.antt` one endpoint's stream as a function of a text, `specs/LineSplitters.antt` how a chunk goes on
//! with a line or ends it, and `specs/CaptureLines.antt` and `specs/Captures.antt` what the state says of the lines that
//! were accepted. [`laws`] has what follows from these definitions; lines with their first faults are in the crate
//! `wsn_laws`, as are sides of texts.
#![tactic(auto)]

mod capture;
mod capture_lines;
mod capture_report;
mod capture_stop;
mod ended_by;
mod hex_blocks;
mod hex_pairs;
mod judging;
pub mod laws;
mod line_fault;
mod line_form;
mod line_splitter;
mod lines;
mod lines_before;
mod refused_line;
mod side_bytes;
mod side_lines;
mod side_reader;
mod side_source;
mod tail_counts;
mod times;

pub use capture::Capture;
pub use capture_lines::CaptureLines;
pub use capture_report::CaptureReport;
pub use capture_stop::CaptureStop;
pub use ended_by::EndedBy;
pub use judging::{judge_capture, read_capture};
pub use line_fault::LineFault;
pub use line_form::{BYTES_MAX, LineEntry, strip_cr};
pub use lines::{BEGUN_MAX, Lines};
pub use refused_line::{RefusedLine, RefusedLines};
pub use side_reader::SideReader;
pub use tail_counts::Tails;
pub use times::time_of;
pub use wsn_rules::{Outcome, Report, Side};
