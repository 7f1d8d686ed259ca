use wsn_wire::Form;

/// One step of a plan: the next frame of a stream (RFC 6455 sections 5.2 to 5.4).
#[derive(Clone, Copy, Debug, PartialEq, Eq)]
pub enum Step {
    /// A frame of a message, but not its last: it contains the next `len` bytes of the message.
    Piece {
        len: u64,
        key: Option<[u8; 4]>,
        form: Form,
    },
    /// The last frame of a message: it contains the rest of the message.
    Last {
        key: Option<[u8; 4]>,
        form: Form,
    },
    /// A control frame.
    Control {
        key: Option<[u8; 4]>,
    },
}
