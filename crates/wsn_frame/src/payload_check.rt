ghost use Rattle.std.specs.Prelude.{◌≡◌, ◌≢◌, ℕ, ◌+◌, ◌<◌, ◌≤◌, ◌^◌, ◌⊎◌, ◌↔◌, true, false, Ok, Err, None, List, [], ◌++◌, length, IsTrue, IfErr};
ghost use Rattle.wsn_rules.specs.Summary.{close_code};
ghost use Rattle.wsn_wire.specs.declared.opcode.Op.TheVariants.{Continue, Text, Binary};
ghost use Rattle.wsn_wire.specs.declared.refusal.Reason.{Reason};
ghost use Rattle.wsn_wire.specs.declared.refusal.Reason.TheVariants.{CloseReason, TextCut};
ghost use Rattle.wsn_wire.specs.Frame.{Frame, first_byte};
ghost use Rattle.wsn_wire.specs.ReceivedHead.{fin_bit};
ghost use Rattle.wsn_text.specs.Utf8.{BeginsText};
ghost use Rattle.wsn_text.specs.Validated.{HasValidated};
ghost use Rattle.wsn_rules.specs.Evidence.{EvidentByPayload};
ghost use Rattle.wsn_frame.specs.KeptMessages.{IsOpenMessage};
ghost use Rattle.wsn_frame.specs.PayloadChecks.{HasChecked, IsChecked, IsBody, IsBodyChecked, IsTextConsumed};

use crate::kept_message::OpenMessage;
use wsn_text::{Utf8, code_allowed};
use wsn_wire::{FirstByte, Op, Reason};

/// The check of a frame's payload, and its state after the bytes so far (RFC 6455 sections 5.5.1, 5.6 and 8.1).
#[derive(Clone, Copy)]
pub enum PayloadCheck {
    /// No check: a binary message, a ping or a pong.
    Free,
    /// The text of a message, over all its frames.
    Text(Utf8),
    /// The body of a Close.
    Close(CloseBody),
}

/// A Close's body so far.
#[derive(Clone, Copy)]
pub enum CloseBody {
    /// No byte.
    Empty,
    /// The first byte of the code.
    HalfCode(u8),
    /// The code, and the state of the reason.
    Code(u16, Utf8),
}

/// The first byte of a chunk that is evidence for a reason, and the reason.
#[derive(Clone, Copy)]
pub struct BadByte {
    /// The offset of the byte in the chunk, from 0.
    pub at: usize,
    /// The reason to refuse the stream.
    pub reason: Reason,
}

impl PayloadCheck {
    /// The check of the payload of a frame with this first byte, after the open message. The frame must continue an
    /// open message, begin one while none is open, or be a control frame (RFC 6455 section 5.4).
    #[tactic(none)]
    pub fn new(first: FirstByte, message: Option<OpenMessage>) -> PayloadCheck
        ensures { (group : List Frame) → IsOpenMessage message group → (first.op ≡ Continue → group ≢ [])
            → ((first.op ≡ Text) ⊎ (first.op ≡ Binary) → group ≡ [])
            → HasChecked group (first_byte first.fin first.op) result [] }
    {
        match first.op {
            Op::Text => PayloadCheck::Text(Utf8::new()),
            Op::Continue => match message.and_then(|open| open.text) {
                Some(utf8) => PayloadCheck::Text(utf8),
                None => PayloadCheck::Free,
            },
            Op::Close => PayloadCheck::Close(CloseBody::Empty),
            Op::Binary | Op::Ping | Op::Pong => PayloadCheck::Free,
        }
    }

    /// Checks the next bytes of the payload, which are unmasked. `fin` is the frame's FIN; `last` says whether the
    /// bytes end its payload.
    ///
    /// # Errors
    ///
    /// The first byte that is evidence for `CloseCode`, `CloseReason`, `TextBad` or `TextCut`, with that reason.
    #[inline(always)]
    pub fn feed(self, chunk: &[u8], fin: bool, last: bool) -> Result<PayloadCheck, BadByte>
        requires { 0 < length chunk.now }
        ensures within { IfErr result (λ bad. bad.at ≤ length chunk.now) }
        ensures checked { (group : List Frame) (first total : ℕ) (before : List ℕ) → HasChecked group first self before
            → fin_bit first ≡ fin → (last ≡ true ↔ (length before + length chunk.now ≡ total))
            → length before + length chunk.now ≤ total → IsChecked group first total before chunk.now result }
    {
        match self {
            PayloadCheck::Free => Ok(PayloadCheck::Free),
            PayloadCheck::Text(utf8) => {
                let utf8 = feed_text(utf8, chunk, fin && last, Reason::TextBad, Reason::TextCut)?;
                Ok(PayloadCheck::Text(utf8))
            }
            PayloadCheck::Close(body) => body.feed(chunk, last),
        }
    }

    /// Checks the next bytes of the payload in place, as [`PayloadCheck::feed`] does, and returns whether none of them is
    /// evidence. Otherwise nothing changes.
    #[inline(always)]
    pub fn take(&mut self, chunk: &[u8], fin: bool, last: bool) -> bool
        requires { 0 < length chunk.now }
        ensures taken { result ≡ true → (group : List Frame) (first total : ℕ) (before : List ℕ) →
            HasChecked group first self.old before → fin_bit first ≡ fin
            → (last ≡ true ↔ (length before + length chunk.now ≡ total)) → length before + length chunk.now ≤ total
            → IsChecked group first total before chunk.now (Ok self.new) }
        ensures evident { result ≡ false → (group : List Frame) (first total : ℕ) (before : List ℕ) →
            HasChecked group first self.old before → fin_bit first ≡ fin
            → (last ≡ true ↔ (length before + length chunk.now ≡ total)) → length before + length chunk.now ≤ total
            → (bad : BadByte) × IsChecked group first total before chunk.now (Err bad) }
        ensures unchanged { result ≡ false → self.new ≡ self.old }
    {
        match self {
            PayloadCheck::Free => true,
            PayloadCheck::Text(utf8) => {
                let (bad, cut) = (Reason::TextBad, Reason::TextCut);
                match feed_text(*utf8, chunk, fin && last, bad, cut) {
                    Ok(fed) => {
                        *utf8 = fed;
                        true
                    }
                    Err(_) => false,
                }
            }
            PayloadCheck::Close(body) => match body.feed(chunk, last) {
                Ok(check) => {
                    *self = check;
                    true
                }
                Err(_) => false,
            },
        }
    }

    /// Whether a frame with an empty payload ends the message inside a character; `fin` is the frame's FIN.
    #[tactic(none)]
    pub fn is_cut(&self, fin: bool) -> bool
        ensures { (group : List Frame) (first : ℕ) → HasChecked group first self.now [] → fin_bit first ≡ fin
            → (IsTrue result ↔ EvidentByPayload group TextCut first 0 [])
            × ((reason : Reason) → reason ≢ TextCut → EvidentByPayload group reason first 0 [] → ⊥) }
    {
        match self {
            PayloadCheck::Text(utf8) => fin && !utf8.is_whole(),
            PayloadCheck::Free | PayloadCheck::Close(_) => false,
        }
    }
}

impl CloseBody {
    /// The code in a complete body; `None` if the body is empty.
    #[tactic(none)]
    pub fn code(self) -> Option<u16>
        ensures { (payload : List ℕ) → IsBody self payload → length payload ≢ 1 → result ≡ close_code payload }
    {
        match self {
            CloseBody::Empty | CloseBody::HalfCode(_) => None,
            CloseBody::Code(code, _) => Some(code),
        }
    }

    /// Checks the next bytes of the body, as [`PayloadCheck::feed`] does.
    #[tactic(none)]
    fn feed(self, chunk: &[u8], last: bool) -> Result<PayloadCheck, BadByte>
        requires { 0 < length chunk.now }
        ensures within { IfErr result (λ bad. bad.at ≤ length chunk.now) }
        ensures checked { (before : List ℕ) → IsBody self before → IsBodyChecked before chunk.now last result }
    {
        match self {
            CloseBody::Empty if chunk.len() == 1 => {
                let high = chunk[0];
                Ok(PayloadCheck::Close(CloseBody::HalfCode(high)))
            }
            CloseBody::Empty => feed_code([chunk[0], chunk[1]], 1, &chunk[2..], last),
            CloseBody::HalfCode(high) => feed_code([high, chunk[0]], 0, &chunk[1..], last),
            CloseBody::Code(code, reason) => {
                let reason = feed_reason(reason, chunk, last)?;
                Ok(PayloadCheck::Close(CloseBody::Code(code, reason)))
            }
        }
    }
}

/// Checks a Close's code (RFC 6455 section 7.4), whose second byte is at offset `at` of a chunk, and the `rest` of that
/// chunk.
fn feed_code(code: [u8; 2], at: usize, rest: &[u8], last: bool) -> Result<PayloadCheck, BadByte>
    requires { at + length rest.now < 2 ^ 63 }
    ensures within { IfErr result (λ bad. bad.at ≤ at + 1 + length rest.now) }
    ensures checked { (before begun : List ℕ) → before ++ begun ≡ code → length begun ≡ at + 1
        → IsBodyChecked before (begun ++ rest.now) last result }
{
    let code = u16::from_be_bytes(code);
    if !code_allowed(code) {
        return Err(BadByte {
            at,
            reason: Reason::CloseCode,
        });
    }
    if rest.is_empty() {
        return Ok(PayloadCheck::Close(CloseBody::Code(code, Utf8::new())));
    }
    match feed_reason(Utf8::new(), rest, last) {
        Ok(reason) => Ok(PayloadCheck::Close(CloseBody::Code(code, reason))),
        Err(bad) => Err(BadByte {
            at: at + 1 + bad.at,
            ..bad
        }),
    }
}

/// Checks more of a Close's reason (RFC 6455 section 5.5.1).
fn feed_reason(reason: Utf8, chunk: &[u8], last: bool) -> Result<Utf8, BadByte>
    requires { 0 < length chunk.now }
    ensures within { IfErr result (λ bad. bad.at ≤ length chunk.now) }
    ensures taken { (taken : List ℕ) → HasValidated reason taken → BeginsText taken
        → IsTextConsumed taken chunk.now last CloseReason CloseReason result }
{
    let is_evident = Reason::CloseReason;
    feed_text(reason, chunk, last, is_evident, is_evident)
}

/// Checks more of a text, which ends with this chunk if `ends` is true. The reason of an error is `bad` at a byte that
/// cannot follow, and `cut` if the text ends inside a character (RFC 6455 section 8.1).
#[inline(always)]
#[tactic(none)]
fn feed_text(
    mut utf8: Utf8,
    chunk: &[u8],
    ends: bool,
    bad: Reason,
    cut: Reason,
) -> Result<Utf8, BadByte>
    requires { 0 < length chunk.now }
    ensures within { IfErr result (λ bad. bad.at ≤ length chunk.now) }
    ensures taken { (taken : List ℕ) → HasValidated utf8 taken → BeginsText taken
        → IsTextConsumed taken chunk.now ends bad cut result }
{
    utf8.feed(chunk).map_err(|at| BadByte { at, reason: bad })?;
    if ends && !utf8.is_whole() {
        return Err(BadByte {
            at: chunk.len() - 1,
            reason: cut,
        });
    }
    Ok(utf8)
}
