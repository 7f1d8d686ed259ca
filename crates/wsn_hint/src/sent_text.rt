ghost use Rattle.std.specs.Prelude.{◌≡◌, ℕ, List, true, false, Some, IfSome, length, drop};
ghost use Rattle.std.specs.Io.KnownBytes.{Consumes};
ghost use Rattle.wsn_wire.specs.Frame.{IsKey};
ghost use Rattle.wsn_rules.specs.BadCharacter.{payload_offset};
ghost use Rattle.wsn_capture.specs.SideTexts.{sent_in};
ghost use Rattle.wsn_hint.specs.SideHints.{BeginsInAscii, HasHead, IsLineAsText, IsSentAsText};

use crate::streams::is_text;
use std::io::Read;
use wsn_capture::{RefusedLine, SideReader};
use wsn_io::Input;
use wsn_rules::{HeadInfo, Limits};
use wsn_scan::{FrameReader, Part};
use wsn_wire::Role;

/// The number of bytes of a side that are read at once.
pub(crate) const CHUNK: usize = 512;

/// Whether the frame with this offset in its payload has a key that isn't zero, and its payload is a text in ASCII as it
/// was sent, as far as it is within the lines of these bytes (RFC 6455 section 5.3).
pub fn is_sent_as_text(first: &[u8], role: Role, limits: Limits, offset: u64) -> bool
    ensures { result ≡ true → IsSentAsText role limits (sent_in role first.now) offset }
{
    reads_as_text(
        &mut Input::new(SideReader::new(first, role)),
        &mut Input::new(SideReader::new(first, role)),
        role,
        limits,
        offset,
    )
}

/// The same of a line with this offset, as far as its bytes are kept, if its first byte is the first of a message.
pub fn is_line_as_text(line: &RefusedLine, role: Role, limits: Limits, offset: u64) -> bool
    ensures { result ≡ true → IsLineAsText role limits (Some line.now) offset }
{
    offset >= line.start
        && reads_as_text(
            &mut Input::lent(line.bytes()),
            &mut Input::lent(line.bytes()),
            role,
            limits,
            offset - line.start,
        )
}

/// Whether this is so of the stream that both inputs have left.
fn reads_as_text<R: Read>(
    heads: &mut Input<R>,
    text: &mut Input<R>,
    role: Role,
    limits: Limits,
    offset: u64,
) -> bool
    requires { heads.old.failed ≡ false }
    ensures { result ≡ true → (sent : List ℕ) → heads.old.remaining ≡ Some sent → text.old.remaining ≡ Some sent →
        IsSentAsText role limits sent offset }
{
    let Some((head, start)) = head_before(heads, role, limits, offset) else {
        return false;
    };
    match head.key {
        Some(key) if key != [0; 4] => {
            let len = text_len(text, start, head.len);
            start <= offset && offset - start < len
        }
        _ => false,
    }
}

/// The head of the frame that isn't whole and has this offset in its payload, and the offset at which its payload begins.
fn head_before<R: Read>(
    side: &mut Input<R>,
    role: Role,
    limits: Limits,
    offset: u64,
) -> Option<(HeadInfo, u64)>
    requires { side.old.failed ≡ false }
    ensures head { IfSome result (λ found. (sent : List ℕ) → side.old.remaining ≡ Some sent →
        HasHead role limits sent found.0) }
    ensures start { IfSome result (λ found. IfSome found.0.key IsKey → found.1 ≡ payload_offset found.0) }
{
    let mut reader = FrameReader::new(role, limits);
    let mut part = Part::new();
    loop {
        match reader.next(side, &mut part) {
            Ok(None) => {
                if let Some(start) = start_before(&part, offset) {
                    return Some((part.head, start));
                }
            }
            Ok(Some(_)) | Err(_) => return None,
        }
    }
}

/// The offset at which the payload begins of the frame that this is a part of, if the frame isn't whole and its payload
/// has the byte at this offset.
fn start_before(part: &Part, offset: u64) -> Option<u64>
    ensures unfinished { IfSome result (λ _. part.now.ends ≡ false) }
    ensures start { IfSome part.now.head.key IsKey → IfSome result (λ start. start ≡ payload_offset part.now.head) }
{
    let start = part.head.offset.checked_add(part.head.size())?;
    if part.ends || offset < start || offset - start >= part.head.len {
        return None;
    }
    Some(start)
}

/// The number of bytes, at most this many, that the input has left from this offset on, if all of them are of a text in
/// ASCII; otherwise 0.
fn text_len<R: Read>(side: &mut Input<R>, start: u64, most: u64) -> u64
    ensures { (sent : List ℕ) → side.old.remaining ≡ Some sent → BeginsInAscii most result (drop start sent) }
{
    if !skip(side, start) {
        return 0;
    }
    match read_text(side, most) {
        Some(len) => len,
        None => 0,
    }
}

/// Reads this number of bytes. `false` if there are fewer.
fn skip<R: Read>(input: &mut Input<R>, count: u64) -> bool
    ensures { result ≡ true → (passed : List ℕ) × (length passed ≡ count)
        × Consumes input.old.remaining input.new.remaining passed }
{
    let mut buffer = [0; CHUNK];
    let mut left = count;
    while left > 0 {
        let chunk = &mut buffer[..left.min(CHUNK as u64) as usize];
        match input.read(chunk) {
            Some(read) if read > 0 => left -= read as u64,
            _ => return false,
        }
    }
    true
}

/// Reads bytes, at most this many, and returns how many came. `None` if one isn't of a text in ASCII.
fn read_text<R: Read>(input: &mut Input<R>, most: u64) -> Option<u64>
    ensures { IfSome result (λ count. (bytes : List ℕ) → input.old.remaining ≡ Some bytes →
        BeginsInAscii most count bytes) }
{
    let mut buffer = [0; CHUNK];
    let mut left = most;
    while left > 0 {
        let chunk = &mut buffer[..left.min(CHUNK as u64) as usize];
        let read = match input.read(chunk) {
            Some(read) if read > 0 => read,
            _ => return Some(most - left),
        };
        if !is_text(&chunk[..read]) {
            return None;
        }
        left -= read as u64;
    }
    Some(most)
}
