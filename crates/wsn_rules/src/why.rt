ghost use Rattle.std.specs.Prelude.{◌≡◌, ◌≤◌, length};
ghost use Rattle.wsn_rules.specs.Fault.{why_word};

/// Why a plan doesn't fit the events of a stream. If more than one reason holds for a step, the first in this order is
/// reported.
#[derive(Clone, Copy, Debug, PartialEq, Eq)]
pub enum Why {
    /// A key is given for a server's frame, or missing for a client's (RFC 6455 section 5.1).
    KeyMismatch,
    /// Every event already has its last step.
    StepsLeft,
    /// No message is left for a frame of a message.
    NoMessage,
    /// The piece is longer than the rest of the message.
    PieceTooLong,
    /// With this piece and its last frame, the message has more frames than the limit.
    TooManyPieces,
    /// The next event is a message.
    NotAControl,
    /// The next event is a control.
    NotAMessage,
    /// The length may not be encoded in this form (RFC 6455 section 5.2).
    WrongForm,
    /// The plan ends before the events do.
    EventsLeft,
}

impl Why {
    /// The word that is printed for the reason, such as `key-mismatch`: at most 15 bytes.
    #[tactic(none)]
    pub fn word(&self) -> &'static str
        ensures word { result.now ≡ why_word self.now }
        ensures short { length result.now ≤ 15 }
    {
        match self {
            Why::KeyMismatch => "key-mismatch",
            Why::StepsLeft => "steps-left",
            Why::NoMessage => "no-message",
            Why::PieceTooLong => "piece-too-long",
            Why::TooManyPieces => "too-many-pieces",
            Why::NotAControl => "not-a-control",
            Why::NotAMessage => "not-a-message",
            Why::WrongForm => "wrong-form",
            Why::EventsLeft => "events-left",
        }
    }
}
