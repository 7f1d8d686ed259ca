ghost use Rattle.std.specs.Prelude.{◌≡◌};
ghost use Rattle.wsn_wire.specs.Refusal.{number_of, code_of, word_of};

/// Why a stream is refused, in order of precedence at one offset (RFC 6455 sections 5 and 7.4).
#[derive(Clone, Copy, Debug, PartialEq, Eq)]
pub enum Reason {
    /// A reserved bit of the first byte is set.
    ReservedBits,
    /// The opcode is 3 to 7 or 11 to 15.
    ReservedOpcode,
    /// A Close, Ping or Pong without FIN.
    ControlNotFinal,
    /// A Continue where no message is open.
    NothingToContinue,
    /// A Text or Binary while a message is open.
    MessageOpen,
    /// A client's frame without MASK.
    MaskMissing,
    /// A server's frame with MASK.
    MaskPresent,
    /// A control frame's length field is 126 or 127.
    ControlTooLong,
    /// A Close's length field is 1.
    CloseOneByte,
    /// A length in eight bytes is 2^63 or more.
    LengthTopBit,
    /// A length is not in its shortest encoding, and only that is accepted.
    LengthNotMinimal,
    /// The message is longer than the limit on its bytes.
    MessageTooBig,
    /// A Close has a code that may not be sent.
    CloseCode,
    /// A Close's reason is not UTF-8.
    CloseReason,
    /// A text message has a byte that cannot occur there in UTF-8.
    TextBad,
    /// A text message ends inside a character.
    TextCut,
    /// The message has more frames than the limit.
    TooManyFrames,
}

impl Reason {
    /// The reason's number in the table of refusals, 1 to 17. If there is evidence for more than one reason at one
    /// offset, the one with the least number is reported.
    pub fn number(&self) -> u8
        ensures { result ≡ number_of self.now }
    {
        match self {
            Reason::ReservedBits => 1,
            Reason::ReservedOpcode => 2,
            Reason::ControlNotFinal => 3,
            Reason::NothingToContinue => 4,
            Reason::MessageOpen => 5,
            Reason::MaskMissing => 6,
            Reason::MaskPresent => 7,
            Reason::ControlTooLong => 8,
            Reason::CloseOneByte => 9,
            Reason::LengthTopBit => 10,
            Reason::LengthNotMinimal => 11,
            Reason::MessageTooBig => 12,
            Reason::CloseCode => 13,
            Reason::CloseReason => 14,
            Reason::TextBad => 15,
            Reason::TextCut => 16,
            Reason::TooManyFrames => 17,
        }
    }

    /// The close code for the refusal (RFC 6455 section 7.4.1): 1002, 1007, 1008 or 1009.
    #[tactic(none)]
    pub fn code(&self) -> u16
        ensures { result ≡ code_of self.now }
    {
        match self {
            Reason::CloseReason | Reason::TextBad | Reason::TextCut => 1007,
            Reason::TooManyFrames => 1008,
            Reason::MessageTooBig => 1009,
            _ => 1002,
        }
    }

    /// The word that is printed for the reason, such as `reserved-bits`: lower-case letters and hyphens.
    pub fn word(&self) -> &'static str
        ensures { result.now ≡ word_of self.now }
    {
        match self {
            Reason::ReservedBits => "reserved-bits",
            Reason::ReservedOpcode => "reserved-opcode",
            Reason::ControlNotFinal => "control-not-final",
            Reason::NothingToContinue => "nothing-to-continue",
            Reason::MessageOpen => "message-open",
            Reason::MaskMissing => "mask-missing",
            Reason::MaskPresent => "mask-present",
            Reason::ControlTooLong => "control-too-long",
            Reason::CloseOneByte => "close-one-byte",
            Reason::LengthTopBit => "length-top-bit",
            Reason::LengthNotMinimal => "length-not-minimal",
            Reason::MessageTooBig => "message-too-big",
            Reason::CloseCode => "close-code",
            Reason::CloseReason => "close-reason",
            Reason::TextBad => "text-bad",
            Reason::TextCut => "text-cut",
            Reason::TooManyFrames => "too-many-frames",
        }
    }
}
