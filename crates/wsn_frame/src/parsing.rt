//! Reads a frame's head from the bytes that came of it, or says what is missing or wrong.
ghost use Rattle.std.specs.Prelude.{◌≡◌, ℕ, ◌+◌, ◌<◌, ◌≤◌, List, [], ◌∷◌, length, take, IfOk, IfErr, IfSome, IfNone};
ghost use Rattle.wsn_wire.specs.declared.refusal.Reason.{Reason};
ghost use Rattle.wsn_wire.specs.Frame.{Frame, first_byte};
ghost use Rattle.wsn_wire.specs.ReceivedHead.{length_count};
ghost use Rattle.wsn_wire.specs.Refusal.{IsFirstEvident};
ghost use Rattle.wsn_rules.specs.Evidence.{EvidentByFirst};
ghost use Rattle.wsn_frame.specs.KeptMessages.{IsOpenMessage};
ghost use Rattle.wsn_frame.specs.PartialHeads.{HasTwoBytes, IsHeadPrefix, IsLengthRead, IsParsed, IsWithin};

use crate::heads::Head;
use crate::message_law::FrameContext;
use wsn_wire::{FirstByte, LenForm, Lengths, Reason, Role};

/// The maximum length of a head in bytes (RFC 6455 section 5.2).
pub const HEAD_MAX: usize = 14;

/// What the bytes from a frame's first byte on are of its head.
#[derive(Clone, Copy)]
pub enum Parsed {
    /// Fewer bytes than the head has; none is evidence for a refusal.
    Incomplete,
    /// The head's length in bytes, and the head. At most its end, if its payload is empty, is evidence for a refusal.
    Whole(usize, Head),
    /// The number of bytes up to the offending one, and the first reason for which it is evidence.
    Refused(usize, Reason),
}

/// Reads the head of a frame that comes after the open message (RFC 6455 sections 5.2 and 5.4). `bytes` are the frame's
/// first bytes, of which all may belong to the head, or more follow.
#[inline(always)]
pub fn parse(bytes: &[u8], context: &FrameContext) -> Parsed
    ensures within { IsWithin (length bytes.now) result }
    ensures parsed { (group : List Frame) → IsOpenMessage context.now.message group →
        IsParsed context.now.role context.now.limits group bytes.now result }
{
    match bytes.split_first() {
        Some((byte, following)) => parse_after(*byte, following, context),
        None => Parsed::Incomplete,
    }
}

// Reads a head as `parse` does; `byte` is the frame's first, and `following` are those after it.
#[inline(always)]
#[tactic(none)]
fn parse_after(byte: u8, following: &[u8], context: &FrameContext) -> Parsed
    ensures within { IsWithin (1 + length following.now) result }
    ensures parsed { (group : List Frame) → IsOpenMessage context.now.message group →
        IsParsed context.now.role context.now.limits group (byte ∷ following.now) result }
{
    let first = match first_byte(byte, context) {
        Ok(first) => first,
        Err(reason) => return Parsed::Refused(1, reason),
    };
    let Some((second, following)) = following.split_first() else {
        return Parsed::Incomplete;
    };
    match wsn_wire::read_second_byte(first, context.role, *second) {
        Ok(encoded) => parse_after_two(first, encoded, following, context),
        Err(reason) => Parsed::Refused(2, reason),
    }
}

/// Reads a complete head at the start of `chunk`, with its length in bytes, if its bytes are evidence for no refusal, at
/// most two length bytes follow the second byte, and `chunk` has at least 14 bytes. The compiler then leaves out each
/// test whether a byte is there. `None` says nothing of `chunk`.
#[inline(always)]
pub fn whole_head(chunk: &[u8], context: &FrameContext) -> Option<(usize, Head)>
    ensures { IfSome result
        (λ found. IsHeadPrefix context.now.role context.now.limits context.now.message chunk.now found.0 found.1) }
{
    if chunk.len() < HEAD_MAX {
        return None;
    }
    whole_head_after(chunk[0], chunk, context)
}

/// Reads a complete head as [`whole_head`] does; `byte` is the chunk's first. Where it is known, the compiler leaves out
/// what is for other bytes.
#[inline(always)]
#[tactic(none)]
pub fn whole_head_after(byte: u8, chunk: &[u8], context: &FrameContext) -> Option<(usize, Head)>
    requires { take 1 chunk.now ≡ byte ∷ [] }
    ensures { IfSome result
        (λ found. IsHeadPrefix context.now.role context.now.limits context.now.message chunk.now found.0 found.1) }
{
    if chunk.len() < HEAD_MAX {
        return None;
    }
    let Ok(first) = first_byte(byte, context) else {
        return None;
    };
    let Ok(encoded) = wsn_wire::read_second_byte(first, context.role, chunk[1]) else {
        return None;
    };
    // (with eight length bytes it is left out, so that the compiler leaves out all that is for them)
    if matches!(encoded, LenForm::Eight) {
        return None;
    }
    match parse_after_two(first, encoded, &chunk[2..], context) {
        Parsed::Whole(size, head) => Some((size, head)),
        Parsed::Incomplete | Parsed::Refused(_, _) => None,
    }
}

// Reads a first byte (RFC 6455 section 5.2), after the open message (section 5.4).
#[inline(always)]
#[tactic(none)]
fn first_byte(byte: u8, context: &FrameContext) -> Result<FirstByte, Reason>
    ensures read { IfOk result (λ first. byte ≡ first_byte first.fin first.op) }
    ensures nothing_evident { IfOk result (λ _. (group : List Frame) → IsOpenMessage context.now.message group →
        (reason : Reason) → ¬ (EvidentByFirst context.now.limits group reason byte)) }
    ensures refused { IfErr result (λ reason. (group : List Frame) → IsOpenMessage context.now.message group →
        IsFirstEvident (λ r. EvidentByFirst context.now.limits group r byte) reason) }
{
    let first = match wsn_wire::read_first_byte(byte) {
        Ok(first) => first,
        Err(reason) => return Err(reason),
    };
    match context.misplaced(first.op) {
        Some(reason) => Err(reason),
        None => Ok(first),
    }
}

// Reads on after the first two bytes: the length (RFC 6455 section 5.2), which may make the message too big (section
// 10.4), and a client's key (section 5.3).
#[inline(always)]
#[tactic(none)]
fn parse_after_two(
    first: FirstByte,
    encoded: LenForm,
    following: &[u8],
    context: &FrameContext,
) -> Parsed
    ensures within { IsWithin (2 + length following.now) result }
    ensures parsed { (group : List Frame) (second : ℕ) → IsOpenMessage context.now.message group →
        HasTwoBytes context.now.role context.now.limits group first encoded second →
        IsParsed context.now.role context.now.limits group
        (first_byte first.fin first.op ∷ second ∷ following.now) result }
{
    let count = encoded.count();
    let Some(read) = length_in(encoded, following, context.limits.lengths()) else {
        return Parsed::Incomplete;
    };
    let len = match read {
        Ok(len) => len,
        Err(reason) => return Parsed::Refused(2 + count, reason),
    };
    if context.is_too_big(first.op, len) {
        return Parsed::Refused(2 + count, Reason::MessageTooBig);
    }
    let (size, key) = match context.role {
        Role::Client => match following[count..].first_chunk::<4>() {
            Some(key) => (6 + count, Some(*key)),
            None => return Parsed::Incomplete,
        },
        Role::Server => (2 + count, None),
    };
    Parsed::Whole(
        size,
        Head {
            first,
            encoded,
            len,
            key,
        },
    )
}

// Reads the length at the start of the bytes after the second one, if all of its bytes are there.
#[inline(always)]
#[tactic(none)]
fn length_in(encoded: LenForm, following: &[u8], lengths: Lengths) -> Option<Result<u64, Reason>>
    ensures missing { IfNone result (length following.now < length_count encoded) }
    ensures read { IfSome result (λ read. (length_count encoded ≤ length following.now)
        × IsLengthRead lengths encoded (take (length_count encoded) following.now) read) }
{
    match encoded {
        LenForm::Short(len) => Some(Ok(u64::from(len))),
        LenForm::Two => match following.first_chunk::<2>() {
            Some(bytes) => Some(wsn_wire::read_two_byte_length(*bytes, lengths)),
            None => None,
        },
        LenForm::Eight => match following.first_chunk::<8>() {
            Some(bytes) => Some(wsn_wire::read_eight_byte_length(*bytes, lengths)),
            None => None,
        },
    }
}
