ghost use Rattle.std.specs.Prelude.{◌≡◌, ◌≤◌, IfSome, length};
ghost use Rattle.wsn_wire.specs.Frame.{IsKey, head_bytes};

use wsn_wire::{Form, LenForm, Op};

/// The head of a frame: the offset of its first byte, its fields, and the length of its payload (RFC 6455 section 5.2).
#[derive(Clone, Copy, Debug, PartialEq, Eq)]
pub struct HeadInfo {
    /// The offset of the frame's first byte, from 0.
    pub offset: u64,
    /// FIN: the frame is the last one of its message, or a control frame.
    pub fin: bool,
    /// The opcode.
    pub op: Op,
    /// The masking key, if the frame is masked (section 5.3).
    pub key: Option<[u8; 4]>,
    /// The form of the length: whether its encoding is longer than it needs to be.
    pub form: Form,
    /// The length of the payload in bytes.
    pub len: u64,
}

impl HeadInfo {
    /// The number of bytes of the head (RFC 6455 section 5.2).
    pub fn size(&self) -> u64
        ensures is { IfSome self.now.key IsKey → result ≡
            length (head_bytes self.now.fin self.now.op self.now.key self.now.form self.now.len) }
        ensures within { result ≤ 14 }
    {
        let key = if self.key.is_some() { 4 } else { 0 };
        2 + LenForm::of(self.form, self.len).count() as u64 + key
    }
}
