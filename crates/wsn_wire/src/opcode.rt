ghost use Rattle.std.specs.Prelude.{◌≡◌, ◌<◌, IfNone, IfSome};
ghost use Rattle.wsn_wire.specs.Frame.{opcode, is_control};
ghost use Rattle.wsn_wire.specs.EvidenceInHeads.{IsReserved};

/// A frame's opcode (RFC 6455 section 5.2). The opcodes 3 to 7 and 11 to 15 are reserved.
#[derive(Clone, Copy, Debug, PartialEq, Eq)]
pub enum Op {
    Continue = 0,
    Text = 1,
    Binary = 2,
    Close = 8,
    Ping = 9,
    Pong = 10,
}

impl Op {
    // The opcode of a number below 16; `None` for a reserved one.
    pub(crate) fn from_opcode(n: u8) -> Option<Op>
        requires { n < 16 }
        ensures known { IfSome result (λ op. opcode op ≡ n) }
        ensures reserved { IfNone result (IsReserved n) }
    {
        match n {
            0 => Some(Op::Continue),
            1 => Some(Op::Text),
            2 => Some(Op::Binary),
            8 => Some(Op::Close),
            9 => Some(Op::Ping),
            10 => Some(Op::Pong),
            _ => None,
        }
    }

    /// Whether the opcode is that of a control frame: Close, Ping or Pong (RFC 6455 section 5.5).
    pub fn is_control(self) -> bool
        ensures { result ≡ is_control self }
    {
        match self {
            Op::Close | Op::Ping | Op::Pong => true,
            Op::Continue | Op::Text | Op::Binary => false,
        }
    }
}

/// Whether a message is text or binary (RFC 6455 section 5.6).
#[derive(Clone, Copy, Debug, PartialEq, Eq)]
pub enum Kind {
    Text,
    Binary,
}
