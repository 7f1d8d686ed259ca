//! Reads one frame of a stream as its bytes arrive (RFC 6455 sections 5.2 to 5.6).
//!
//! [`FrameContext`] is the context of a frame: the endpoint that sent it, the limits, and the message that is open
//! before it. [`parse`] reads its head from the bytes that came. The payload is unmasked in place ([`unmask`]) and
//! checked chunk by chunk ([`PayloadCheck`]). [`message_after`] and [`Counts`] give the open message and the counts
//! after the frame. Nothing here keeps a payload or allocates.
//!
//! These types are plain data. The definitions in `specs/` relate their values to the bytes of a frame.
#![tactic(auto)]

mod counts;
mod heads;
mod kept_message;
mod message_law;
mod parsing;
mod payload_check;
mod unmasking;

pub use counts::Counts;
pub use heads::Head;
pub use kept_message::{OpenMessage, message_after};
pub use message_law::FrameContext;
pub use parsing::{HEAD_MAX, Parsed, parse, whole_head, whole_head_after};
pub use payload_check::{BadByte, CloseBody, PayloadCheck};
pub use unmasking::unmask;
