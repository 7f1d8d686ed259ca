//! The rules of messages for a head: which data frame may follow which, and how long a message may be.

use crate::kept_message::OpenMessage;
use wsn_rules::Limits;
use wsn_wire::{Op, Reason, Role};

/// The context in which a frame is read.
#[derive(Clone, Copy)]
pub struct FrameContext {
    /// The endpoint that sent the frame.
    pub role: Role,
    /// The limits.
    pub limits: Limits,
    /// The message that is open before the frame, if there is one.
    pub message: Option<OpenMessage>,
}

impl FrameContext {
    ghost use Rattle.std.specs.Prelude.{◌≡◌, ℕ, ◌+◌, ◌<◌, ◌↔◌, List, length, IsTrue};
    ghost use Rattle.wsn_wire.specs.Frame.{Frame, opcode};
    ghost use Rattle.wsn_wire.specs.ReceivedHead.{opcode_field};
    ghost use Rattle.wsn_wire.specs.Refusal.{IsFirstOrNone};
    ghost use Rattle.wsn_wire.specs.EvidenceInHeads.{EvidentInFirst};
    ghost use Rattle.wsn_rules.specs.Group.{payload_of};
    ghost use Rattle.wsn_rules.specs.Evidence.{IsDataOpcode, EvidentByFirst};
    ghost use Rattle.wsn_frame.specs.KeptMessages.{IsOpenMessage};

    /// The reason to refuse a frame for its opcode after the open message (RFC 6455 section 5.4), or because the
    /// message already has the maximum number of frames (section 10.4). `None` if there is no such reason.
    #[inline(always)]
    #[tactic(none)]
    pub fn misplaced(&self, op: Op) -> Option<Reason>
        ensures { (group : List Frame) (first : ℕ) → IsOpenMessage self.now.message group →
            opcode_field first ≡ opcode op → ((reason : Reason) → ¬ (EvidentInFirst reason first)) →
            IsFirstOrNone (λ reason. EvidentByFirst self.now.limits group reason first) result }
    {
        match self.message {
            None => match op {
                Op::Continue => Some(Reason::NothingToContinue),
                _ => None,
            },
            Some(message) => match op {
                Op::Text | Op::Binary => Some(Reason::MessageOpen),
                Op::Continue => {
                    if self.has_all_frames(message) {
                        Some(Reason::TooManyFrames)
                    } else {
                        None
                    }
                }
                Op::Close | Op::Ping | Op::Pong => None,
            },
        }
    }

    /// Whether the message has the maximum number of frames (RFC 6455 section 10.4).
    #[tactic(none)]
    fn has_all_frames(&self, message: OpenMessage) -> bool
        ensures { IsTrue result ↔ (self.now.limits.frames ≡ Some message.frames) }
    {
        match self.limits.frames() {
            Some(most) => message.frames == u64::from(most),
            None => false,
        }
    }

    /// Whether a data frame with `len` bytes of payload makes the message longer than its limit (RFC 6455 section
    /// 10.4). `false` for a control frame.
    #[inline(always)]
    #[tactic(none)]
    pub fn is_too_big(&self, op: Op, len: u64) -> bool
        ensures { (group : List Frame) → IsOpenMessage self.now.message group →
            IsTrue result ↔ (IsDataOpcode (opcode op) × (self.now.limits.message < length (payload_of group) + len)) }
    {
        let size = match self.message {
            Some(message) => u64::from(message.size),
            None => 0,
        };
        match op {
            Op::Continue | Op::Text | Op::Binary => {
                size.saturating_add(len) > u64::from(self.limits.message())
            }
            Op::Close | Op::Ping | Op::Pong => false,
        }
    }
}
