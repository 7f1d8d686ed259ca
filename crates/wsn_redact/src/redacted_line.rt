ghost use Rattle.std.specs.Prelude.{◌≡◌, ◌≤◌, ◌+◌, ◌*◌, ◌↔◌, ◌++◌, ℕ, List, length, take, IsTrue};
ghost use Rattle.hex.specs.Hex.{encode_lower};
ghost use Rattle.wsn_rules.specs.Entries.{without_cr, bytes_prefix};
ghost use Rattle.wsn_capture.specs.LineEntries.{FitsInLine, held_entry};
ghost use Rattle.wsn_capture.specs.EndedBy.{reset_comment};
ghost use Rattle.wsn_redact.specs.declared.extension_names.Within.TheVariants.{Name};
ghost use Rattle.wsn_redact.specs.ExtensionNames.{names_in};
ghost use Rattle.wsn_redact.specs.RedactedCaptures.{extensions_prefix, IsReset, Stays, IsRedactedNothing, IsRedactedLineText, IsRedactedLine};

use crate::extension_names::put_names;
use wsn_capture::{LineEntry, strip_cr, time_of};
use wsn_wire::Role;

/// The maximum length of a line in bytes, with its CR and its LF.
pub const LINE_ROOM: usize = 8196;

/// How the comment begins that has the extensions of a handshake's answer.
const EXTENSIONS: [u8; 14] = *b"# extensions: ";

/// Puts a line's redaction at the start of `into` and returns its length. The line is given without its LF, with its
/// entry; `bytes` begins with the redacted bytes, if the entry has bytes.
pub fn redact_line(line: &[u8], entry: LineEntry, bytes: &[u8], into: &mut [u8; LINE_ROOM]) -> usize
    requires short { length (without_cr line.now) ≤ 8194 }
    requires fits { FitsInLine entry }
    requires room { length bytes.now ≡ 4096 }
    ensures within { result ≤ 8195 }
    ensures redacted { (held : List ℕ) → length held ≡ 4096 →
        IsRedactedLine line.now (held_entry entry held) (held_entry entry bytes.now) (take result into.new) }
{
    let text = strip_cr(line);
    let count = redact_text(text, entry, bytes, into);
    if text.len() == line.len() {
        return count;
    }
    into[count] = b'\r';
    count + 1
}

/// The same of a line's text, which is the line without its CR.
fn redact_text(text: &[u8], entry: LineEntry, bytes: &[u8], into: &mut [u8; LINE_ROOM]) -> usize
    requires short { length text.now ≤ 8194 }
    requires fits { FitsInLine entry }
    requires room { length bytes.now ≡ 4096 }
    ensures within { result ≤ 8194 }
    ensures redacted { (held : List ℕ) → length held ≡ 4096 →
        IsRedactedLineText text.now (held_entry entry held) (held_entry entry bytes.now) (take result into.new) }
{
    match entry {
        LineEntry::Nothing => redact_nothing(text, into),
        LineEntry::Bytes(role, count) => put_bytes(role, &bytes[..count], into),
        LineEntry::Mark(_) => put(text, into),
    }
}

/// Puts the text of a line with these bytes of an endpoint, and returns its length.
fn put_bytes(role: Role, bytes: &[u8], into: &mut [u8; LINE_ROOM]) -> usize
    requires { length bytes.now ≤ 4096 }
    ensures within { result ≤ 8194 }
    ensures text { take result into.new ≡ bytes_prefix role ++ encode_lower bytes.now }
{
    let front = match role {
        Role::Client => *b"C ",
        Role::Server => *b"S ",
    };
    let end = 2 + 2 * bytes.len();
    into[..2].copy_from_slice(&front);
    let _fits = hex::encode_to_slice(bytes, &mut into[2..end]);
    end
}

/// Puts what becomes of an empty text or of a comment, and returns its length.
fn redact_nothing(text: &[u8], into: &mut [u8; LINE_ROOM]) -> usize
    requires { length text.now ≤ 8194 }
    ensures within { result ≤ 8194 }
    ensures redacted { IsRedactedNothing text.now (take result into.new) }
{
    if text.is_empty() || stays(text) {
        return put(text, into);
    }
    let Some(list) = text.strip_prefix(&EXTENSIONS) else {
        return put(b"#", into);
    };
    put_extensions(list, into)
}

/// Whether a comment stays as it is.
fn stays(text: &[u8]) -> bool
    ensures { IsTrue result ↔ Stays text.now }
{
    match time_of(text) {
        Some(_) => true,
        None => is_reset(text),
    }
}

/// Whether a comment says that an endpoint reset the connection.
fn is_reset(text: &[u8]) -> bool
    ensures { IsTrue result ↔ IsReset text.now }
{
    text == reset_comment(Role::Client) || text == reset_comment(Role::Server)
}

/// The comment that an endpoint reset the connection.
fn reset_comment(role: Role) -> &'static [u8]
    ensures { result.now ≡ reset_comment role }
{
    match role {
        Role::Client => b"# reset by the client",
        Role::Server => b"# reset by the server",
    }
}

/// Puts the comment with what is left of a list of extensions, and returns its length.
fn put_extensions(list: &[u8], into: &mut [u8; LINE_ROOM]) -> usize
    requires { length list.now + 14 ≤ 8194 }
    ensures within { result ≤ 8194 }
    ensures text { take result into.new ≡ extensions_prefix ++ names_in Name list.now }
{
    let front = put(&EXTENSIONS, into);
    put_names(list, into, front)
}

/// Puts a text as it is, and returns its length.
fn put(text: &[u8], into: &mut [u8; LINE_ROOM]) -> usize
    requires { length text.now ≤ 8194 }
    ensures within { result ≡ length text.now }
    ensures text { take result into.new ≡ text.now }
{
    into[..text.len()].copy_from_slice(text);
    text.len()
}
