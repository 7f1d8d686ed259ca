ghost use Rattle.std.specs.Prelude.{◌≡◌};
ghost use Rattle.wsn_frame.specs.PartialHeads.{encoded_form, info_at};

use wsn_rules::HeadInfo;
use wsn_wire::{FirstByte, Form, LenForm};

/// A complete head.
#[derive(Clone, Copy)]
pub struct Head {
    /// FIN and the opcode.
    pub first: FirstByte,
    /// How many bytes hold the length.
    pub encoded: LenForm,
    /// The length of the payload in bytes.
    pub len: u64,
    /// The masking key, if the frame is masked.
    pub key: Option<[u8; 4]>,
}

impl Head {
    /// The head as it is reported, for a frame at `offset` in the stream.
    #[tactic(none)]
    pub fn info(&self, offset: u64) -> HeadInfo
        ensures { result ≡ info_at offset self.now }
    {
        HeadInfo {
            offset,
            fin: self.first.fin,
            op: self.first.op,
            key: self.key,
            form: self.form(),
            len: self.len,
        }
    }

    /// The form of the length: longer than the shortest only if fewer bytes could hold it.
    #[tactic(none)]
    fn form(&self) -> Form
        ensures { result ≡ encoded_form self.now.encoded self.now.len }
    {
        match self.encoded {
            LenForm::Two if Form::Two.fits(self.len) => Form::Two,
            LenForm::Eight if Form::Eight.fits(self.len) => Form::Eight,
            _ => Form::Shortest,
        }
    }
}
