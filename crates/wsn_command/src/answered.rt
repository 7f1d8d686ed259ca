use wsn_capture::CaptureReport;
use wsn_rules::Verdict;

/// What the run of a command came to.
#[derive(Clone, Copy, Debug, PartialEq, Eq)]
pub struct Ran {
    /// The program's exit status: 0, 1 or 2.
    pub status: u8,
    /// The command's answer.
    pub answer: Answer,
}

/// What a command answers of its input.
#[derive(Clone, Copy, Debug, PartialEq, Eq)]
pub enum Answer {
    /// The verdict on the stream that was read; of two streams, on the one that isn't accepted.
    Verdict(Verdict),
    /// The report on both sides of a capture, and the number of bytes after each Close.
    Report(CaptureReport),
    /// Another answer: no byte that was read is refused.
    Other,
    /// No answer: a line of the capture isn't accepted.
    FaultyLine,
    /// No answer: the work stopped for another reason.
    Stopped,
}
