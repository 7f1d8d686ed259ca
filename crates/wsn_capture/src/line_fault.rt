ghost use Rattle.std.specs.Prelude.{◌≡◌, ◌≤◌, length};
ghost use Rattle.wsn_capture.specs.LineFaults.{fault_word};

use thiserror::Error;

/// Why a line of a capture isn't accepted (specs/LineFaults.antt). The variants are in order of precedence: a line's
/// first fault is reported.
#[derive(Clone, Copy, Debug, PartialEq, Eq, Error)]
#[error("{}", self.word())]
pub enum LineFault {
    /// 1,000,000 lines were accepted before.
    TooManyLines,
    /// The line has more than 8,194 bytes, without the CR at its end.
    TooLong,
    /// The line has none of the forms of a capture's line.
    BadForm,
    /// What follows the letter and the space isn't one or more pairs of hexadecimal digits.
    BadHex,
    /// The endpoint's end mark came before.
    AfterEnd,
    /// With this line the endpoint's stream has more bytes than the input limit.
    InputLimit,
}

impl LineFault {
    /// The word that is printed for the fault.
    #[tactic(none)]
    pub fn word(&self) -> &'static str
        ensures word { result.now ≡ fault_word self.now }
        ensures short { length result.now ≤ 14 }
    {
        match self {
            LineFault::TooManyLines => "too-many-lines",
            LineFault::TooLong => "too-long",
            LineFault::BadForm => "bad-form",
            LineFault::BadHex => "bad-hex",
            LineFault::AfterEnd => "after-end",
            LineFault::InputLimit => "input-limit",
        }
    }
}
