ghost use Rattle.std.specs.Prelude.{◌≡◌, ℕ, ◌<◌, ◌≤◌, ◌^◌, true, List, Option, IfOk, IfErr, is_some};
ghost use Rattle.wsn_wire.specs.declared.refusal.Reason.{Reason};
ghost use Rattle.wsn_wire.specs.Frame.{is_control, first_byte, second_byte, IsSecondByteFor, head_bytes, FormFits};
ghost use Rattle.wsn_wire.specs.ReceivedHead.{len_form_at};
ghost use Rattle.wsn_wire.specs.Refusal.{IsFirstEvident};
ghost use Rattle.wsn_wire.specs.EvidenceInHeads.{EvidentInFirst, EvidentInSecond};

use crate::endpoint::Role;
use crate::length_encoding::{Form, LenForm};
use crate::opcode::Op;
use crate::refusal::Reason;
use arrayvec::ArrayVec;

/// The fields of a frame's first byte (RFC 6455 section 5.2). A control frame always has FIN (section 5.5).
#[derive(Clone, Copy, Debug, PartialEq, Eq)]
pub struct FirstByte {
    /// FIN: the frame is the last one of its message.
    pub fin: bool,
    /// The opcode.
    pub op: Op,
    pub ghost control_is_final: { is_control op ≡ true → fin ≡ true },
}

/// Reads a frame's first byte (RFC 6455 sections 5.2 and 5.5). An error is the first of `ReservedBits`,
/// `ReservedOpcode` and `ControlNotFinal` for which the byte is evidence.
#[inline(always)]
#[tactic(none)]
pub fn read_first_byte(b: u8) -> Result<FirstByte, Reason>
    ensures read { IfOk result (λ f. b ≡ first_byte f.fin f.op) }
    ensures nothing_evident { IfOk result (λ _. (reason : Reason) → ¬ (EvidentInFirst reason b)) }
    ensures refused { IfErr result (IsFirstEvident (λ reason. EvidentInFirst reason b)) }
{
    if b & 0x70 != 0 {
        return Err(Reason::ReservedBits);
    }
    let Some(op) = Op::from_opcode(b & 0x0f) else {
        return Err(Reason::ReservedOpcode);
    };
    let fin = b & 0x80 != 0;
    if op.is_control() && !fin {
        return Err(Reason::ControlNotFinal);
    }
    Ok(FirstByte { fin, op })
}

/// Reads a frame's second byte; `f` is the first one (RFC 6455 sections 5.1, 5.2 and 5.5). An error is the first of
/// `MaskMissing`, `MaskPresent`, `ControlTooLong` and `CloseOneByte` for which the byte is evidence.
#[tactic(none)]
pub fn read_second_byte(f: FirstByte, role: Role, b: u8) -> Result<LenForm, Reason>
    ensures read { IfOk result (IsSecondByteFor role b) }
    ensures field { IfOk result (λ form. form ≡ len_form_at b) }
    ensures short { (len : ℕ) → result ≡ Ok (LenForm.Short len) → len ≤ 125 }
    ensures nothing_evident { IfOk result (λ _. (reason : Reason) →
        ¬ (EvidentInSecond role reason (first_byte f.fin f.op) b)) }
    ensures refused { IfErr result (IsFirstEvident (λ reason.
        EvidentInSecond role reason (first_byte f.fin f.op) b)) }
{
    let masked = b & 0x80 != 0;
    match role {
        Role::Client if !masked => return Err(Reason::MaskMissing),
        Role::Server if masked => return Err(Reason::MaskPresent),
        _ => {}
    }
    let form = LenForm::at(b);
    match form {
        LenForm::Two | LenForm::Eight if f.op.is_control() => Err(Reason::ControlTooLong),
        LenForm::Short(1) if f.op == Op::Close => Err(Reason::CloseOneByte),
        _ => Ok(form),
    }
}

/// Writes the head of a frame whose payload has `len` bytes, with the shortest encoding of the length (RFC 6455 section
/// 5.2).
pub fn head(fin: bool, op: Op, key: Option<[u8; 4]>, len: u64) -> ArrayVec<u8, 14>
    requires size { len < 2 ^ 63 }
    requires control { is_control op ≡ true → (fin ≡ true) × (len ≤ 125) }
    ensures { result.items ≡ head_bytes fin op key Form.Shortest len }
{
    head_as(fin, op, key, len, Form::Shortest)
}

/// Writes the head of a frame whose payload has `len` bytes, with the length encoded in the given form (RFC 6455
/// section 5.2).
#[tactic(none)]
pub fn head_as(fin: bool, op: Op, key: Option<[u8; 4]>, len: u64, form: Form) -> ArrayVec<u8, 14>
    requires size { len < 2 ^ 63 }
    requires control { is_control op ≡ true → (fin ≡ true) × (len ≤ 125) × (form ≡ Form.Shortest) }
    requires fits { FormFits form len }
    ensures { result.items ≡ head_bytes fin op key form len }
{
    let len_form = LenForm::of(form, len);
    let mut head = ArrayVec::new();
    head.push(first_byte_of(fin, op));
    head.push(second_byte_of(key.is_some(), len_form));
    let _fits = match len_form {
        LenForm::Short(_) => Ok(()),
        LenForm::Two => head.try_extend_from_slice(&(len as u16).to_be_bytes()),
        LenForm::Eight => head.try_extend_from_slice(&len.to_be_bytes()),
    };
    if let Some(key) = key {
        let _fits = head.try_extend_from_slice(&key);
    }
    head
}

fn first_byte_of(fin: bool, op: Op) -> u8
    ensures { result ≡ first_byte fin op }
{
    (if fin { 0x80 } else { 0 }) | op as u8
}

fn second_byte_of(masked: bool, form: LenForm) -> u8
    requires { (len : ℕ) → form ≡ LenForm.Short len → len ≤ 125 }
    ensures { (key : Option (List ℕ)) → is_some key ≡ masked → result ≡ second_byte key form }
{
    (if masked { 0x80 } else { 0 }) | form.field()
}
