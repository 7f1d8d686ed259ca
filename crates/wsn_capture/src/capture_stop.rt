use crate::line_fault::LineFault;
use thiserror::Error;
use wsn_io::Stop;

/// Why a capture's text has no report.
#[derive(Clone, Copy, Debug, PartialEq, Eq, Error)]
pub enum CaptureStop {
    /// A read failed.
    #[error("{}", Stop::Read)]
    Read,
    /// The first line that isn't accepted: its number, counted from 1, and its first fault.
    #[error("line {number}: {fault}")]
    Line { number: u32, fault: LineFault },
}
