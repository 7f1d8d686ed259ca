ghost use Rattle.wsn_frame.specs.KeptMessages.{IsMessageAfter, IsOneFragmentMore};

use crate::heads::Head;
use crate::payload_check::PayloadCheck;
use wsn_text::Utf8;
use wsn_wire::Op;

/// The open message, up to its last complete frame.
#[derive(Clone, Copy)]
pub struct OpenMessage {
    /// The state of its text; `None` for a binary message.
    pub text: Option<Utf8>,
    /// The total length of its payloads in bytes.
    pub size: u32,
    /// The number of its frames so far.
    pub frames: u64,
}

/// The message that is open after one more frame; `check` is the result of checking the frame's payload. `None` if no
/// message is open.
#[tactic(none)]
pub fn message_after(
    message: Option<OpenMessage>,
    head: &Head,
    check: &PayloadCheck,
) -> Option<OpenMessage>
    ensures { IsMessageAfter message head.now check.now result }
{
    match head.first.op {
        Op::Close | Op::Ping | Op::Pong => message,
        Op::Continue | Op::Text | Op::Binary => {
            if head.first.fin {
                None
            } else {
                Some(longer(message, head.len, check))
            }
        }
    }
}

/// The message with one more fragment.
#[tactic(none)]
fn longer(message: Option<OpenMessage>, len: u64, check: &PayloadCheck) -> OpenMessage
    ensures { IsOneFragmentMore message len check.now result }
{
    let (size, frames) = match message {
        Some(message) => (message.size, message.frames),
        None => (0, 0),
    };
    let text = match check {
        PayloadCheck::Text(utf8) => Some(*utf8),
        PayloadCheck::Free | PayloadCheck::Close(_) => None,
    };
    OpenMessage {
        text,
        size: size.saturating_add(u32::try_from(len).unwrap_or(u32::MAX)),
        frames: frames.saturating_add(1),
    }
}
