ghost use Rattle.std.specs.Prelude.{◌≡◌, ℕ, ◌^◌, ◌<◌, ◌≤◌, ◌↔◌, None, Some, IsSome, IfSome, IfNone};
ghost use Rattle.wsn_wire.specs.declared.length_encoding.Lengths.TheVariants.{Shortest};

use std::marker::Model;
use wsn_wire::Lengths;

/// The greatest limit on the bytes of a message.
pub const MESSAGE_MAX: u32 = 16_777_216;

/// The greatest limit on the bytes of an input.
pub const INPUT_MAX: u64 = 1_099_511_627_776;

/// The limits under which a stream is read: the maximum number of bytes in a message and in an input, the maximum
/// number of frames in a message, and which encodings of a length are accepted.
#[derive(Clone, Copy, Debug)]
pub struct Limits {
    message: u32,
    input: u64,
    frames: Option<u32>,
    lengths: Lengths,
}

impl Model for Limits {
    ghost use Rattle.wsn_rules.specs.Limits.{Limits, InRange};

    ghost Value = { Limits };

    ghost view = { λ l. record { message = l.message; input = l.input; frames = l.frames; lengths = l.lengths } };

    ghost invariant = { λ l. InRange (record {
      message = l.message;
      input = l.input;
      frames = l.frames;
      lengths = l.lengths;
    }) };

    ghost inverse = { λ b. record { message = b.message; input = b.input; frames = b.frames; lengths = b.lengths } };
}

impl Limits {
    ghost use Rattle.wsn_rules.specs.Limits.{Limits, InRange};

    /// The greatest limits: 16,777,216 bytes for a message and 2^40 for an input, with any number of frames in a message
    /// and only the shortest encoding of a length.
    #[tactic(none)]
    pub fn greatest() -> Limits
        ensures { result ≡ record { message = 16777216; input = 2 ^ 40; frames = None; lengths = Shortest } }
    {
        Limits {
            message: MESSAGE_MAX,
            input: INPUT_MAX,
            frames: None,
            lengths: Lengths::Shortest,
        }
    }

    /// Limits of `message` bytes for a message and `input` bytes for an input, with any number of frames in a message
    /// and only the shortest encoding of a length. `None` exactly if `message` is over 16,777,216 or `input` over 2^40.
    #[tactic(none)]
    pub fn new(message: u32, input: u64) -> Option<Limits>
        ensures in_range { IsSome result ↔ ((message ≤ 16777216) × (input ≤ 2 ^ 40)) }
        ensures value { IfSome result (λ limits. limits
            ≡ record { message = message; input = input; frames = None; lengths = Shortest }) }
    {
        if message > MESSAGE_MAX || input > INPUT_MAX {
            return None;
        }
        Some(Limits {
            message,
            input,
            frames: None,
            lengths: Lengths::Shortest,
        })
    }

    /// The same limits with at most `frames` frames in a message. `None` exactly if `frames` is 0.
    #[tactic(none)]
    pub fn with_frames(self, frames: u32) -> Option<Limits>
        ensures in_range { IsSome result ↔ (0 < frames) }
        ensures value { IfSome result (λ limits. limits ≡ record self { frames = Some frames }) }
    {
        if frames == 0 {
            return None;
        }
        Some(Limits {
            frames: Some(frames),
            ..self
        })
    }

    /// The same limits with these accepted encodings of a length.
    #[tactic(none)]
    pub fn with_lengths(self, lengths: Lengths) -> Limits
        ensures { result ≡ record self { lengths = lengths } }
    {
        Limits { lengths, ..self }
    }

    /// The maximum number of bytes in a message.
    #[tactic(none)]
    pub fn message(&self) -> u32
        ensures value { result ≡ self.now.message }
        ensures in_range { InRange self.now }
    {
        self.message
    }

    /// The maximum number of bytes in an input.
    #[tactic(none)]
    pub fn input(&self) -> u64
        ensures value { result ≡ self.now.input }
        ensures in_range { InRange self.now }
    {
        self.input
    }

    /// The maximum number of frames in a message; `None` if any number is allowed.
    #[tactic(none)]
    pub fn frames(&self) -> Option<u32>
        ensures { result ≡ self.now.frames }
    {
        self.frames
    }

    /// Which encodings of a length are accepted.
    #[tactic(none)]
    pub fn lengths(&self) -> Lengths
        ensures { result ≡ self.now.lengths }
    {
        self.lengths
    }
}
