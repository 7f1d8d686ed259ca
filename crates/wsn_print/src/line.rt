ghost use Rattle.std.specs.Prelude.{◌≡◌, ◌+◌, ◌*◌, ◌≤◌, [], ◌∷◌, ◌++◌, length, codes, decimal};
ghost use Rattle.hex.specs.Hex.{encode_lower};
ghost use Rattle.wsn_print.specs.Fields.{number_text, refusal_text};
ghost use Rattle.wsn_print.specs.HeadText.{head_fields};
ghost use Rattle.wsn_print.specs.Objects.{head_members};

use crate::frame_members::put_members;
use crate::heads::put_fields;
use crate::kept_bytes::KeptBytes;
use crate::parts::{put, put_number, put_slice};
use wsn_rules::{HeadInfo, Refusal};

/// A line that is being built: its bytes so far, at most `MAX`.
pub type Line<const MAX: usize> = KeptBytes<MAX>;

impl<const MAX: usize> KeptBytes<MAX> {
    /// The bytes so far.
    #[inline(always)]
    pub fn bytes(&self) -> &[u8]
        ensures { result.now ≡ self.now }
    {
        &self.bytes[..self.len]
    }

    /// Appends a text.
    #[inline(always)]
    pub fn push(&mut self, text: &str)
        requires { length self.old + length text.now ≤ MAX }
        ensures text { self.new ≡ self.old ++ text.now }
        ensures len { length self.new ≡ length self.old + length text.now }
    {
        self.len = put_slice(text.as_bytes(), &mut self.bytes, self.len);
    }

    /// Appends bytes as they are.
    #[inline(always)]
    pub fn push_bytes(&mut self, bytes: &[u8])
        requires { length self.old + length bytes.now ≤ MAX }
        ensures text { self.new ≡ self.old ++ bytes.now }
        ensures len { length self.new ≡ length self.old + length bytes.now }
    {
        self.len = put_slice(bytes, &mut self.bytes, self.len);
    }

    /// Appends another line.
    pub fn push_line<const OTHER: usize>(&mut self, other: &KeptBytes<OTHER>)
        requires { length self.old + OTHER ≤ MAX }
        ensures text { self.new ≡ self.old ++ other.now }
        ensures len { length self.new ≤ length self.old + OTHER }
    {
        self.len = put_slice(&other.bytes[..other.len], &mut self.bytes, self.len);
    }

    /// Appends a number in decimal digits, at most 20.
    pub fn push_number(&mut self, n: u64)
        requires { length self.old + 20 ≤ MAX }
        ensures text { self.new ≡ self.old ++ decimal n }
        ensures len { length self.new ≤ length self.old + 20 }
    {
        self.len = put_number(n, &mut self.bytes, self.len);
    }

    /// Appends a number in decimal digits, or a dash for `None`.
    #[tactic(none)]
    pub fn push_number_or_dash(&mut self, n: Option<u64>)
        requires { length self.old + 20 ≤ MAX }
        ensures text { self.new ≡ self.old ++ number_text n }
        ensures len { length self.new ≤ length self.old + 20 }
    {
        match n {
            Some(n) => self.push_number(n),
            None => self.push("-"),
        }
    }

    /// Appends a byte as it is.
    pub fn push_byte(&mut self, b: u8)
        requires { length self.old + 1 ≤ MAX }
        ensures text { self.new ≡ self.old ++ b ∷ [] }
        ensures len { length self.new ≡ length self.old + 1 }
    {
        self.len = put([b], &mut self.bytes, self.len);
    }

    /// Appends bytes, at most 32, as two lower-case hexadecimal digits each.
    pub fn push_hex(&mut self, bytes: &[u8])
        requires few { length bytes.now ≤ 32 }
        requires room { length self.old + 2 * length bytes.now ≤ MAX }
        ensures text { self.new ≡ self.old ++ encode_lower bytes.now }
        ensures len { length self.new ≡ length self.old + 2 * length bytes.now }
    {
        let mut digits = [0; 64];
        let digits = &mut digits[..2 * bytes.len()];
        let _fits = hex::encode_to_slice(bytes, digits);
        self.len = put_slice(digits, &mut self.bytes, self.len);
    }

    /// Appends a space, the fields of a head and the LF, at most 49 bytes.
    pub fn push_fields(&mut self, head: &HeadInfo)
        requires { length self.old + 49 ≤ MAX }
        ensures text { self.new ≡ self.old ++ (codes " " ++ head_fields head.now ++ codes "\n") }
        ensures len { length self.new ≤ length self.old + 49 }
    {
        self.len = put_fields(head, &mut self.bytes, self.len);
    }

    /// Appends the members of a head after its offset, the end of the object and the LF, at most 97 bytes.
    pub fn push_members(&mut self, head: &HeadInfo)
        requires { length self.old + 97 ≤ MAX }
        ensures text { self.new ≡ self.old ++ (head_members head.now ++ codes "}\n") }
        ensures len { length self.new ≤ length self.old + 97 }
    {
        self.len = put_members(head, &mut self.bytes, self.len);
    }

    /// Appends a refusal: `refused`, the offset of the offending byte, the reason's word and the close code.
    #[tactic(auto, using(crate::proofs::ReportTexts::word_short))]
    pub fn push_refusal(&mut self, refusal: &Refusal)
        requires { length self.old + 69 ≤ MAX }
        ensures text { self.new ≡ self.old ++ refusal_text refusal.now }
        ensures len { length self.new ≤ length self.old + 69 }
    {
        let reason = refusal.reason;
        self.push("refused ");
        self.push_number(refusal.offset);
        self.push(" ");
        self.push(reason.word());
        self.push(" ");
        self.push_number(u64::from(reason.code()));
    }
}
