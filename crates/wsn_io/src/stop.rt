ghost use Rattle.std.specs.Prelude.{◌≡◌, ◌≤◌, length};
ghost use Rattle.wsn_io.specs.Stops.{stop_word};

use thiserror::Error;

/// Why work on an input ended before its answer was reported.
#[derive(Clone, Copy, Debug, PartialEq, Eq, Error)]
#[error("{}", self.word())]
pub enum Stop {
    /// The reader returned an error.
    Read,
    /// The input is longer than the input limit.
    InputLimit,
    /// An allocation failed.
    Memory,
    /// The writer returned an error, or accepted no byte.
    Write,
}

impl Stop {
    /// The words that are printed for the stop, such as `read failed`: at most 13 bytes.
    #[tactic(none)]
    pub fn word(&self) -> &'static str
        ensures word { result.now ≡ stop_word self.now }
        ensures short { length result.now ≤ 13 }
    {
        match self {
            Stop::Read => "read failed",
            Stop::InputLimit => "input limit",
            Stop::Memory => "out of memory",
            Stop::Write => "write failed",
        }
    }
}
