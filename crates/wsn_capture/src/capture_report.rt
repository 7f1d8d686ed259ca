use crate::refused_line::RefusedLines;
use crate::tail_counts::Tails;
use wsn_rules::Report;

/// What is known of a capture whose lines are accepted.
#[derive(Clone, Copy, Debug, PartialEq, Eq)]
pub struct CaptureReport {
    /// The report of its lines (RFC 6455 section 7.1).
    pub report: Report,
    /// The number of bytes that each endpoint sent after its Close.
    pub tails: Tails,
    /// The lines with the offending bytes of refused streams.
    pub refused: RefusedLines,
}
