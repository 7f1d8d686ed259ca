//! One frame on the wire: its bytes as in RFC 6455 sections 5.2 and 5.3.
//!
//! [`read_first_byte`], [`read_second_byte`], [`read_two_byte_length`] and [`read_eight_byte_length`] read a head, one
//! byte or one length at a time; [`head`] and [`head_as`] write a head; [`mask`] masks and unmasks a payload, whole or in
//! parts. [`Reason`] is the table of refusals. [`laws`] states what follows from the definitions.
//!
//! `specs/Frame.antt` defines a frame's bytes, `specs/ReceivedHead.antt` which bytes have the layout of a frame,
//! `specs/EvidenceInHeads.antt` the refusals for which a frame's head alone is evidence, `specs/HeadLaw.antt` the rules for a
//! sender's head, and `specs/Refusal.antt` the table of refusals.
#![tactic(auto)]

mod endpoint;
mod head_law;
pub mod laws;
mod length_encoding;
mod mask_bytes;
mod opcode;
mod refusal;

pub use endpoint::Role;
pub use head_law::{FirstByte, head, head_as, read_first_byte, read_second_byte};
pub use length_encoding::{
    CONTROL_MAX, Form, LenForm, Lengths, SHORT_MAX, TWO_MAX, read_eight_byte_length,
    read_two_byte_length,
};
pub use mask_bytes::mask;
pub use opcode::{Kind, Op};
pub use refusal::Reason;
