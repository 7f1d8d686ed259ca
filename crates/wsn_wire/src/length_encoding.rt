ghost use Rattle.std.specs.Prelude.{◌≡◌, ◌↔◌, IsTrue, IfOk, IfErr};
ghost use Rattle.wsn_wire.specs.declared.refusal.Reason.{Reason};
ghost use Rattle.wsn_wire.specs.Frame.{FormFits, len_form_of, length_field, length_bytes};
ghost use Rattle.wsn_wire.specs.ReceivedHead.{len_form_at, length_count, encoded_length};
ghost use Rattle.wsn_wire.specs.Refusal.{IsFirstEvident};
ghost use Rattle.wsn_wire.specs.EvidenceInHeads.{EvidentInLength};

use crate::refusal::Reason;

/// The greatest length of a payload that a frame's second byte contains (RFC 6455 section 5.2).
pub const SHORT_MAX: u64 = 125;

/// The greatest length of a payload that two bytes hold (RFC 6455 section 5.2).
pub const TWO_MAX: u64 = 65_535;

/// The length field of a second byte after which two bytes hold the length (RFC 6455 section 5.2).
const TWO_FIELD: u8 = 126;

/// The length field of a second byte after which eight bytes hold the length (RFC 6455 section 5.2).
const EIGHT_FIELD: u8 = 127;

/// The greatest length of a control frame's payload (RFC 6455 section 5.5).
pub const CONTROL_MAX: usize = 125;

/// How a frame encodes its payload's length (RFC 6455 section 5.2): in the shortest way, or in two or eight bytes
/// although fewer would do. A length of 200 in two bytes is `Shortest`, since that is its shortest encoding.
#[derive(Clone, Copy, Debug, PartialEq, Eq)]
pub enum Form {
    /// The shortest encoding.
    Shortest,
    /// Two bytes, for a length of at most 125.
    Two,
    /// Eight bytes, for a length of at most 65,535.
    Eight,
}

impl Form {
    /// Whether this is a form of the length: a longer one is, if fewer bytes could hold the length.
    #[inline(always)]
    pub fn fits(self, len: u64) -> bool
        ensures { IsTrue result ↔ FormFits self len }
    {
        match self {
            Form::Shortest => true,
            Form::Two => len <= SHORT_MAX,
            Form::Eight => len <= TWO_MAX,
        }
    }
}

/// Which encodings of a length are accepted.
#[derive(Clone, Copy, Debug, PartialEq, Eq)]
pub enum Lengths {
    /// Only the shortest.
    Shortest,
    /// Also longer ones, in data frames.
    Any,
}

/// How many bytes hold a length, as the second byte of a frame gives it (RFC 6455 section 5.2).
#[derive(Clone, Copy, Debug, PartialEq, Eq)]
pub enum LenForm {
    /// None after the second byte: it contains the length, 0 to 125.
    Short(u8),
    /// The two bytes after it.
    Two,
    /// The eight bytes after it.
    Eight,
}

impl LenForm {
    /// The form that the low seven bits of a frame's second byte give.
    #[inline(always)]
    pub fn at(second: u8) -> LenForm
        ensures { result ≡ len_form_at second }
    {
        match second & 0x7f {
            TWO_FIELD => LenForm::Two,
            EIGHT_FIELD => LenForm::Eight,
            len => LenForm::Short(len),
        }
    }

    /// How many bytes hold a length in this form.
    #[inline(always)]
    pub fn of(form: Form, len: u64) -> LenForm
        ensures { result ≡ len_form_of form len }
    {
        match form {
            Form::Shortest if len <= SHORT_MAX => LenForm::Short(len as u8),
            Form::Shortest if len <= TWO_MAX => LenForm::Two,
            Form::Shortest => LenForm::Eight,
            Form::Two => LenForm::Two,
            Form::Eight => LenForm::Eight,
        }
    }

    /// The number of length bytes after the second byte.
    #[inline(always)]
    pub fn count(self) -> usize
        ensures { result ≡ length_count self }
    {
        match self {
            LenForm::Short(_) => 0,
            LenForm::Two => 2,
            LenForm::Eight => 8,
        }
    }

    /// The low seven bits of a frame's second byte.
    #[inline(always)]
    pub fn field(self) -> u8
        ensures { result ≡ length_field self }
    {
        match self {
            LenForm::Short(len) => len,
            LenForm::Two => TWO_FIELD,
            LenForm::Eight => EIGHT_FIELD,
        }
    }
}

/// Reads a length in two bytes (RFC 6455 section 5.2). `LengthNotMinimal` for a length below 126, if only the shortest
/// encoding is accepted.
#[tactic(none)]
pub fn read_two_byte_length(b: [u8; 2], lengths: Lengths) -> Result<u64, Reason>
    ensures read { IfOk result (λ len. b ≡ length_bytes LenForm.Two len) }
    ensures decoded { IfOk result (λ len. len ≡ encoded_length LenForm.Two b) }
    ensures nothing_evident { IfOk result (λ _. (reason : Reason) → ¬ (EvidentInLength lengths reason LenForm.Two b)) }
    ensures refused { IfErr result (IsFirstEvident (λ reason. EvidentInLength lengths reason LenForm.Two b)) }
{
    let len = u64::from(u16::from_be_bytes(b));
    if lengths == Lengths::Shortest && len <= SHORT_MAX {
        return Err(Reason::LengthNotMinimal);
    }
    Ok(len)
}

/// Reads a length in eight bytes (RFC 6455 section 5.2). `LengthTopBit` for a length of 2^63 or more; otherwise
/// `LengthNotMinimal` for one below 65,536, if only the shortest encoding is accepted.
#[tactic(none)]
pub fn read_eight_byte_length(b: [u8; 8], lengths: Lengths) -> Result<u64, Reason>
    ensures read { IfOk result (λ len. b ≡ length_bytes LenForm.Eight len) }
    ensures decoded { IfOk result (λ len. len ≡ encoded_length LenForm.Eight b) }
    ensures nothing_evident { IfOk result (λ _. (reason : Reason) → ¬ (EvidentInLength lengths reason LenForm.Eight b)) }
    ensures refused { IfErr result (IsFirstEvident (λ reason. EvidentInLength lengths reason LenForm.Eight b)) }
{
    let len = u64::from_be_bytes(b);
    if len >= 1 << 63 {
        return Err(Reason::LengthTopBit);
    }
    if lengths == Lengths::Shortest && len <= TWO_MAX {
        return Err(Reason::LengthNotMinimal);
    }
    Ok(len)
}
