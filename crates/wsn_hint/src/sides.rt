ghost use Rattle.std.specs.Prelude.{◌≡◌, ◌↔◌, ◌≢◌, [], ◌∷◌, IsTrue, true, false, None, Some, IfSome};
ghost use Rattle.wsn_wire.specs.declared.refusal.Reason.TheVariants.{ReservedBits};
ghost use Rattle.wsn_hint.specs.declared.hint.Hint.TheVariants.{WrongHandshake};
ghost use Rattle.wsn_hint.specs.Hints.{IsFirstFit};
ghost use Rattle.wsn_hint.specs.SideHints.{AreExchanged, AreRefusedForMasks, FitsHandshake, FitsSide, FitsTail, HasOthersMask, IsCompressedHead, IsCompressedHint, IsForMask, IsLikelier, IsOffendingByte, IsOthersMask, IsSentAt, IsSideHint, IsSidesHint, IsTextAsSent, IsWeak, side_hints, tail_hints};

use crate::comments::{Said, is_said};
use crate::hint::Hint;
use crate::refused_sides::RefusedSides;
use crate::sent_text::{CHUNK, is_line_as_text, is_sent_as_text};
use crate::streams::without_compression;
use wsn_capture::{RefusedLine, RefusedLines, SideReader, Tails};
use wsn_io::Input;
use wsn_rules::{Limits, Refusal};
use wsn_wire::{Reason, Role};

/// The hint for a capture that begins with these bytes, its first 65,536 or all of them if there are fewer, whose lines
/// are accepted, and of which these sides are refused.
///
/// `None` unless the capture is empty or one of the sides is refused: then the first hint of `side_hints`
/// (specs/SideHints.antt) that fits a refused side, or that the sides are exchanged. The offending byte is looked at, with
/// the payload of its frame if that is a text, if the line with it is given in `lines` or it is within these bytes, and
/// comments are.
pub fn sides_hint_of(
    first: &[u8],
    refused: RefusedSides,
    lines: RefusedLines,
    limits: Limits,
) -> Option<Hint>
    ensures { IsSidesHint limits first.now refused lines result }
{
    if first.is_empty() {
        return Some(Hint::Empty);
    }
    if are_exchanged(first, refused) {
        return Some(Hint::Exchanged);
    }
    let client = side_hint(first, Role::Client, limits, lines.client, refused.client);
    let server = side_hint(first, Role::Server, limits, lines.server, refused.server);
    likelier(client, server)
}

/// The hint for such a capture of which no side is refused: that a comment says what is wrong with the answer to the
/// handshake, so that the client must fail the connection (RFC 6455 section 4.1).
pub fn handshake_hint_of(first: &[u8]) -> Option<Hint>
    ensures { IsFirstFit (FitsHandshake first.now) (WrongHandshake ∷ []) result }
{
    is_said(first, Said::WrongAnswer).then_some(Hint::WrongHandshake)
}

/// The hint for a capture of which only the report is printed, by the number of bytes after each Close: that an endpoint
/// sent some (RFC 6455 section 5.5.1), the client if both did.
pub fn after_close_hint_of(tails: Tails) -> Option<Hint>
    ensures { IsFirstFit (FitsTail tails) tail_hints result }
{
    if tails.client > 0 {
        return Some(Hint::AfterClose(Role::Client));
    }
    (tails.server > 0).then_some(Hint::AfterClose(Role::Server))
}

/// The likelier of two sides' hints: another encoding comes last.
fn likelier(client: Option<Hint>, server: Option<Hint>) -> Option<Hint>
    ensures { IsLikelier client server result }
{
    if is_weak(client) && server.is_some() {
        server
    } else {
        client
    }
}

/// Whether there is no hint, or only that a text isn't UTF-8.
fn is_weak(hint: Option<Hint>) -> bool
    ensures { IsTrue result ↔ IsWeak hint }
{
    match hint {
        None | Some(Hint::NotUtf8) => true,
        Some(_) => false,
    }
}

/// Whether the first frame of each side has the masking of the other endpoint's frames. The second byte of a side that
/// isn't known to be refused is looked at.
fn are_exchanged(first: &[u8], refused: RefusedSides) -> bool
    ensures exchanged { result ≡ true → AreExchanged first.now refused }
    ensures not { result ≡ false → AreRefusedForMasks refused.client refused.server → ⊥ }
{
    match (refused.client, refused.server) {
        (Some(client), Some(server)) => {
            is_for_mask(client, Role::Client) && is_for_mask(server, Role::Server)
        }
        (Some(client), None) => {
            is_for_mask(client, Role::Client) && has_others_mask(first, Role::Server)
        }
        (None, Some(server)) => {
            is_for_mask(server, Role::Server) && has_others_mask(first, Role::Client)
        }
        (None, None) => false,
    }
}

/// Whether this endpoint's first frame is refused for its masking.
fn is_for_mask(refusal: Refusal, role: Role) -> bool
    ensures { IsTrue result ↔ IsForMask role refusal }
{
    match role {
        Role::Client => refusal.offset == 1 && refusal.reason == Reason::MaskMissing,
        Role::Server => refusal.offset == 1 && refusal.reason == Reason::MaskPresent,
    }
}

/// Whether this endpoint's first frame has the masking of the other's, by the lines of these bytes.
fn has_others_mask(first: &[u8], role: Role) -> bool
    ensures { result ≡ true → HasOthersMask role first.now None }
{
    match byte_at(first, role, 1) {
        Some(byte) => is_others_mask(byte, role),
        None => false,
    }
}

fn is_others_mask(byte: u8, role: Role) -> bool
    ensures { IsTrue result ↔ IsOthersMask role byte }
{
    match role {
        Role::Client => byte < 0x80,
        Role::Server => byte >= 0x80,
    }
}

/// The hint for the side of one endpoint, if it is refused.
fn side_hint(
    first: &[u8],
    role: Role,
    limits: Limits,
    line: Option<RefusedLine>,
    refusal: Option<Refusal>,
) -> Option<Hint>
    ensures { IsSideHint role limits first.now line refusal result }
{
    let Some(refusal) = refusal else {
        return None;
    };
    match refusal.reason {
        Reason::ReservedBits => {
            bits_hint(first, offending_byte(first, role, line, refusal.offset))
        }
        Reason::TextBad if is_text_as_sent(first, role, limits, line, refusal.offset) => {
            Some(Hint::NeverMasked)
        }
        Reason::TextBad => Some(Hint::NotUtf8),
        _ => None,
    }
}

/// The offending byte of a side, which has this offset: in its line if that is given, otherwise by the lines of the first
/// bytes.
fn offending_byte(first: &[u8], role: Role, line: Option<RefusedLine>, offset: u64) -> Option<u8>
    ensures { IsOffendingByte role first.now line offset result }
{
    match line {
        Some(line) => Some(line.byte),
        None => byte_at(first, role, offset),
    }
}

/// Whether the frame with the offending byte, which has this offset, was perhaps never masked, by its line or by the lines
/// of the first bytes.
fn is_text_as_sent(
    first: &[u8],
    role: Role,
    limits: Limits,
    line: Option<RefusedLine>,
    offset: u64,
) -> bool
    ensures { result ≡ true → IsTextAsSent role limits first.now line offset }
{
    match line {
        Some(line) if is_line_as_text(&line, role, limits, offset) => true,
        _ => is_sent_as_text(first, role, limits, offset),
    }
}

/// The hint for a side that is refused for the reserved bits of this byte, if it is known: compressed, as agreed or not.
fn bits_hint(first: &[u8], byte: Option<u8>) -> Option<Hint>
    ensures { IsFirstFit (FitsSide first.now ReservedBits byte false) side_hints result }
{
    match byte {
        Some(byte) if is_compressed_head(byte) => Some(compressed_hint(first)),
        Some(_) => None,
        None if is_said(first, Said::Compression) => Some(Hint::Compressed),
        None => None,
    }
}

/// What the comments say of a compressed frame: agreed on or not, or nothing.
fn compressed_hint(first: &[u8]) -> Hint
    ensures { IsCompressedHint first.now result }
{
    if is_said(first, Said::Compression) {
        return Hint::Compressed;
    }
    if is_said(first, Said::Answer) {
        Hint::NotAgreed
    } else {
        Hint::MaybeCompressed
    }
}

fn is_compressed_head(byte: u8) -> bool
    ensures { IsTrue result ↔ IsCompressedHead byte }
{
    without_compression(byte).is_some()
}

/// The byte at this offset of what the endpoint sent, by the lines of these bytes.
fn byte_at(first: &[u8], role: Role, offset: u64) -> Option<u8>
    ensures { IfSome result (IsSentAt role first.now offset) }
{
    let mut side = Input::new(SideReader::new(first, role));
    let mut chunk = [0; CHUNK];
    let mut before = offset;
    loop {
        let count = side.read(&mut chunk)?;
        if before < count as u64 {
            return Some(chunk[before as usize]);
        }
        if count == 0 {
            return None;
        }
        before -= count as u64;
    }
}
