ghost use Rattle.std.specs.Prelude.{◌≡◌, [], ◌∷◌, ◌<◌, ◌≤◌, false, length, flat_map, IfOk};
ghost use Rattle.std.specs.Str.{chars};
ghost use Rattle.wsn_io.specs.Stops.{IsWrittenOrStops};
ghost use Rattle.wsn_print.specs.EscapedText.{unicode_escape, ascii_escape};
ghost use Rattle.wsn_shown_text.specs.AsciiText.{ascii_character, ascii_quoted};

use std::io::Write;
use wsn_io::{Output, Stop, put_line};
use wsn_print::Line;

/// The most bytes of a character: two surrogates, each `\u` and four digits.
const CHARACTER_MAX: usize = 12;

/// The most bytes of a number below U+10000: `\u` and four digits.
const UNIT_MAX: usize = 6;

/// Writes a text in printable ASCII characters between quotation marks.
pub(crate) fn put_ascii_quoted<W: Write>(to: &mut Output<W>, text: &str) -> Result<(), Stop>
    requires { to.old.failed ≡ false }
    ensures { IsWrittenOrStops to.old to.new (ascii_quoted text.now) result }
{
    put_line(to, b"\"")?;
    put_ascii_characters(to, text)?;
    put_line(to, b"\"")
}

fn put_ascii_characters<W: Write>(to: &mut Output<W>, text: &str) -> Result<(), Stop>
    requires { to.old.failed ≡ false }
    ensures { IsWrittenOrStops to.old to.new (flat_map ascii_character (chars text.now)) result }
{
    for c in text.chars() {
        put_line(to, ascii_character(c).bytes())?;
    }
    Ok(())
}

/// A character: as it is if it is printable, with a backslash before `"` and `\`, and otherwise by its number.
#[tactic(none)]
fn ascii_character(c: char) -> Line<CHARACTER_MAX>
    ensures { result ≡ ascii_character c }
{
    match c {
        '"' => line_of("\\\""),
        '\\' => line_of("\\\\"),
        ' '..='~' => line_of_ascii(c),
        _ => ascii_escape(u32::from(c)),
    }
}

fn line_of(text: &str) -> Line<CHARACTER_MAX>
    requires { length text.now ≤ 12 }
    ensures { result ≡ text.now }
{
    let mut line = Line::new();
    line.push(text);
    line
}

fn line_of_ascii(c: char) -> Line<CHARACTER_MAX>
    requires { c < 0x80 }
    ensures { result ≡ c ∷ [] }
{
    let mut line = Line::new();
    line.push_byte(c as u8);
    line
}

/// A character by its number: below U+10000 in four digits, otherwise as two surrogates (RFC 8259 section 7).
#[tactic(none)]
fn ascii_escape(c: u32) -> Line<CHARACTER_MAX>
    requires { c < 0x110000 }
    ensures { result ≡ ascii_escape c }
{
    let mut line = Line::new();
    if c < 0x10000 {
        line.push_line(&unit_escape(c as u16));
    } else {
        let over = c - 0x10000;
        line.push_line(&unit_escape(0xd800 + (over / 0x400) as u16));
        line.push_line(&unit_escape(0xdc00 + (over % 0x400) as u16));
    }
    line
}

/// `\u` and four digits.
#[tactic(none)]
fn unit_escape(unit: u16) -> Line<UNIT_MAX>
    ensures { result ≡ unicode_escape unit }
{
    let mut line = Line::new();
    line.push("\\u");
    line.push_hex(&[(unit / 256) as u8, (unit % 256) as u8]);
    line
}
