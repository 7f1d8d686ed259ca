ghost use Rattle.std.specs.Prelude.{◌≡◌, ◌+◌, ◌++◌, [], ◌∷◌, ◌<◌, ◌≤◌, false, length, flat_map, codes, IfOk};
ghost use Rattle.hex.specs.Hex.{encode_lower};
ghost use Rattle.std.specs.Str.{chars, IsUtf8};
ghost use Rattle.std.specs.Str.Lossy.{utf8_valid_len};
ghost use Rattle.wsn_io.specs.Stops.{IsWrittenOrStops};
ghost use Rattle.wsn_print.specs.EscapedText.{is_hidden, unicode_escape, comment_character, quoted_character, quoted, comment_byte, comment_text, comment_line};
ghost use Rattle.wsn_print.specs.Runs.{escaped};
ghost use Rattle.wsn_print.specs.HeldTexts.{IsHeldOrStops};

use crate::escapes::Escapes;
use crate::held_text::{HeldText, TURN_MAX};
use crate::line::Line;
use std::io::Write;
use std::str;
use wsn_io::{Output, Stop, put_line};

/// The most bytes of a byte that is shown: `\x` and two digits.
const BYTE_MAX: usize = 4;

/// Writes a comment of a capture in one line, with its hidden characters escaped as `\u` and four digits, beyond
/// U+FFFF as two surrogates. Of a comment that isn't UTF-8, each byte that isn't printable ASCII is escaped as `\x` and two
/// digits. A backslash of the comment is doubled, so no two comments have the same line. `Stop::Write` if the writer fails: a prefix of the line was written.
#[tactic(none)]
pub fn put_comment<W: Write>(to: &mut Output<W>, text: &[u8]) -> Result<(), Stop>
    requires { to.old.failed ≡ false }
    ensures { IsWrittenOrStops to.old to.new (comment_line text.now) result }
{
    put_comment_text(to, text)?;
    put_line(to, b"\n")
}

/// Writes the text of a comment without a line feed, as [`put_comment`] does. `Stop::Write` if the writer fails: a prefix of
/// the text was written.
pub fn put_comment_text<W: Write>(to: &mut Output<W>, text: &[u8]) -> Result<(), Stop>
    requires { to.old.failed ≡ false }
    ensures { IsWrittenOrStops to.old to.new (comment_text text.now) result }
{
    match str::from_utf8(text) {
        Ok(characters) => put_comment_characters(to, characters),
        Err(_) => put_comment_bytes(to, text),
    }
}

/// Writes a text in UTF-8 between quotation marks. It isn't validated.
#[inline(never)]
pub fn put_quoted<W: Write>(to: &mut Output<W>, text: &[u8]) -> Result<(), Stop>
    requires { to.old.failed ≡ false }
    ensures text { IsUtf8 text.now → IsWrittenOrStops to.old to.new (quoted text.now) result }
    ensures unfailed { IfOk result (λ done. to.new.failed ≡ false) }
{
    let mut held = HeldText::new();
    hold_quoted(to, &mut held, text)?;
    put_line(to, held.as_slice())
}

/// Adds a text in UTF-8 between quotation marks to what is held, and writes what is held where there is no room for more;
/// then 40 bytes more have room. The text isn't validated. `Stop::Write` if the writer fails: a prefix of what was held and
/// of the text was written.
#[inline(never)]
pub fn hold_quoted<W: Write>(
    to: &mut Output<W>,
    held: &mut HeldText,
    text: &[u8],
) -> Result<(), Stop>
    requires unfailed { to.old.failed ≡ false }
    requires room { length held.old + 1 ≤ 256 }
    ensures text { IsUtf8 text.now → IsHeldOrStops to.old to.new held.old held.new (quoted text.now) result }
    ensures unfailed { IfOk result (λ done. to.new.failed ≡ false) }
    ensures room { IfOk result (λ done. length held.new + 40 ≤ 256) }
{
    held.add_mark();
    hold_escaped(to, held, Escapes::Quoted, text)?;
    held.make_room(to, TURN_MAX)?;
    held.add_mark();
    Ok(())
}

/// Writes the characters of a text that is quoted.
#[inline(never)]
pub fn put_quoted_characters<W: Write>(to: &mut Output<W>, text: &str) -> Result<(), Stop>
    requires { to.old.failed ≡ false }
    ensures { IsWrittenOrStops to.old to.new (flat_map quoted_character (chars text.now)) result }
{
    put_escaped(to, Escapes::Quoted, text.as_bytes())
}

/// Writes the characters of a comment.
#[inline(never)]
fn put_comment_characters<W: Write>(to: &mut Output<W>, text: &str) -> Result<(), Stop>
    requires { to.old.failed ≡ false }
    ensures { IsWrittenOrStops to.old to.new (flat_map comment_character (chars text.now)) result }
{
    put_escaped(to, Escapes::Comment, text.as_bytes())
}

/// Writes a text in UTF-8 with some characters escaped.
#[inline(always)]
fn put_escaped<W: Write>(to: &mut Output<W>, escapes: Escapes, text: &[u8]) -> Result<(), Stop>
    requires { to.old.failed ≡ false }
    ensures { IsWrittenOrStops to.old to.new (escaped escapes text.now) result }
{
    let mut held = HeldText::new();
    hold_escaped(to, &mut held, escapes, text)?;
    put_line(to, held.as_slice())
}

/// Adds a text in UTF-8 to what is held, by blocks, with some characters escaped, and writes what is held where there is
/// no room for more.
#[inline(always)]
fn hold_escaped<W: Write>(
    to: &mut Output<W>,
    held: &mut HeldText,
    escapes: Escapes,
    text: &[u8],
) -> Result<(), Stop>
    requires { to.old.failed ≡ false }
    ensures { IsHeldOrStops to.old to.new held.old held.new (escaped escapes text.now) result }
{
    let mut at = 0;
    while at < text.len() {
        held.make_room(to, TURN_MAX)?;
        at += held.add_start(escapes, &text[at..]);
    }
    Ok(())
}

#[inline(never)]
#[tactic(none)]
fn put_comment_bytes<W: Write>(to: &mut Output<W>, bytes: &[u8]) -> Result<(), Stop>
    requires { to.old.failed ≡ false }
    ensures { IsWrittenOrStops to.old to.new (flat_map comment_byte bytes.now) result }
{
    for b in bytes {
        put_line(to, comment_byte(*b).bytes())?;
    }
    Ok(())
}

#[tactic(none)]
fn comment_byte(b: u8) -> Line<BYTE_MAX>
    ensures { result ≡ comment_byte b }
{
    let mut line = Line::new();
    match b {
        b'\\' => line.push("\\\\"),
        b' '..=b'~' => line.push_byte(b),
        _ => {
            line.push("\\x");
            line.push_hex(&[b]);
        }
    }
    line
}
