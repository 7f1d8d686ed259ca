ghost use Rattle.std.specs.Prelude.{◌≡◌, ◌≤◌, ◌-◌, ℕ, List, ◌++◌, Ok, length, take, replicate};
ghost use Rattle.wsn_capture.specs.LineFaults.{line_most};
ghost use Rattle.wsn_capture.specs.RefusedLines.{IsKeptOf};
ghost use Rattle.wsn_capture.specs.SideTexts.{text_entry};
ghost use Rattle.wsn_rules.specs.Entries.Entry.{Bytes};
ghost use Rattle.wsn_wire.specs.declared.endpoint.Role.{Role};
ghost use Rattle.wsn_rules.specs.Entries.{without_cr};

use crate::line_form::{BYTES_MAX, LINE_MAX, LineEntry, entry_of, strip_cr};

/// The maximum number of bytes that are kept of a line.
const KEPT: usize = 256;

/// The line in which the offending byte of a refused stream came.
#[derive(Clone, Copy, Debug, PartialEq, Eq)]
pub struct RefusedLine {
    /// The offset in the stream at which the line's bytes begin.
    pub start: u64,
    /// The offending byte, as it was sent.
    pub byte: u8,
    /// The number of bytes that are kept.
    count: usize,
    /// The first bytes of the line, and zeros after them.
    first: [u8; KEPT],
}

/// The lines in which the offending bytes of a capture's streams came: `None` for a stream that isn't refused.
#[derive(Clone, Copy, Debug, PartialEq, Eq)]
pub struct RefusedLines {
    /// The client's.
    pub client: Option<RefusedLine>,
    /// The server's.
    pub server: Option<RefusedLine>,
}

impl RefusedLine {
    ghost use Rattle.std.specs.Prelude.{◌≡◌, ◌≤◌, length};
    ghost use Rattle.wsn_capture.specs.RefusedLines.{IsKeptOf, kept_bytes};

    /// The first 256 bytes of the line, as they were sent, or all of them if there are fewer.
    pub fn bytes(&self) -> &[u8]
        ensures { result.now ≡ kept_bytes self.now }
    {
        &self.first[..self.count.min(KEPT)]
    }

    /// What is kept of a line with these bytes, the first of which has the offset `start`. `None` if the byte at `offset`
    /// isn't one of them.
    fn of(start: u64, bytes: &[u8], offset: u64) -> Option<RefusedLine>
        ensures { IsKeptOf start bytes.now offset result }
    {
        if offset < start || offset - start >= bytes.len() as u64 {
            return None;
        }
        Some(RefusedLine {
            start,
            byte: bytes[(offset - start) as usize],
            count: bytes.len().min(KEPT),
            first: first_of(bytes),
        })
    }
}

/// The first 256 of these bytes, or all of them and zeros.
fn first_of(bytes: &[u8]) -> [u8; KEPT]
    ensures { result ≡ take 256 (bytes.now ++ replicate 256 0) }
{
    let mut first = [0; KEPT];
    let count = bytes.len().min(KEPT);
    first[..count].copy_from_slice(&bytes[..count]);
    first
}

/// What is kept of a line with bytes, the last of which ends the first `end` bytes of its stream. `None` if the byte at
/// `offset` isn't one of them.
#[inline(never)]
pub(crate) fn kept_line(line: &[u8], end: u64, offset: u64) -> Option<RefusedLine>
    ensures { (role : Role) (bytes : List ℕ) → length (without_cr line.now) ≤ line_most →
        text_entry (without_cr line.now) ≡ Ok (Bytes role bytes) → length bytes ≤ end →
        IsKeptOf (end - length bytes) bytes offset result }
{
    let text = strip_cr(line);
    if text.len() > LINE_MAX {
        return None;
    }
    let mut bytes = [0; BYTES_MAX];
    match entry_of(text, &mut bytes) {
        Ok(LineEntry::Bytes(_, count)) => {
            RefusedLine::of(end.saturating_sub(count as u64), &bytes[..count], offset)
        }
        _ => None,
    }
}
