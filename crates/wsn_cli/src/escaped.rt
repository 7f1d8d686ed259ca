ghost use Rattle.std.specs.Prelude.{◌≡◌, ◌-◌, ◌<◌, ◌^◌, Some};
ghost use Rattle.std.specs.Fmt.{WritesOnOk};
ghost use Rattle.wsn_print.specs.EscapedText.{ascii_escape, unicode_escape};
ghost use Rattle.wsn_cli.specs.ErrorWords.{escaped, escaped_character};

use std::fmt::{self, Display, Formatter};
use wsn_print::is_hidden;

/// A word from outside, to be printed: a control character is printed as `\x` and its number in hexadecimal, and another
/// character that is hidden, such as U+202E, as `\u` and its number, beyond U+FFFF as two surrogates.
#[derive(Clone, Copy)]
pub struct Escaped<'a> {
    word: &'a str,
    most: usize,
}

impl<'a> Escaped<'a> {
    /// A word, to be printed whole with these characters escaped.
    pub fn new(word: &'a str) -> Self
        ensures { result ≡ record { word = word.entry; most = 2 ^ 64 - 1 } }
    {
        Escaped {
            word,
            most: usize::MAX,
        }
    }

    /// The same, but of a word of more than 80 characters only these are printed, and `..`.
    pub fn short(word: &'a str) -> Self
        ensures { result ≡ record { word = word.entry; most = 80 } }
    {
        Escaped { word, most: 80 }
    }
}

impl Display for Escaped<'_> {
    ghost output = { λ shown. Some (escaped shown.most shown.word.now) };

    fn fmt<W: fmt::Write>(&self, f: &mut Formatter<W>) -> fmt::Result {
        let mut left = self.most;
        for c in self.word.chars() {
            if left == 0 {
                return f.write_str("..");
            }
            left -= 1;
            write_character(f, c)?;
        }
        Ok(())
    }
}

/// Writes a character, escaped if it is hidden.
fn write_character<W: fmt::Write>(f: &mut Formatter<W>, c: char) -> fmt::Result
    ensures { WritesOnOk W.write_str_gives f.old result (escaped_character c) f.new }
{
    let number = c as u32;
    if c.is_control() {
        write!(f, "\\x{number:02x}")
    } else if is_hidden(number) {
        write_escape(f, number)
    } else {
        f.write_char(c)
    }
}

/// Writes a character by its number: below U+10000 in four digits, otherwise as two surrogates (RFC 8259 section 7).
fn write_escape<W: fmt::Write>(f: &mut Formatter<W>, number: u32) -> fmt::Result
    requires { number < 0x110000 }
    ensures { WritesOnOk W.write_str_gives f.old result (ascii_escape number) f.new }
{
    if number < 0x1_0000 {
        return write_unit(f, number);
    }
    let over = number - 0x1_0000;
    write_unit(f, 0xd800 + over / 0x400)?;
    write_unit(f, 0xdc00 + over % 0x400)
}

/// Writes a unit of UTF-16 as `\u` and four digits.
fn write_unit<W: fmt::Write>(f: &mut Formatter<W>, unit: u32) -> fmt::Result
    requires { unit < 0x10000 }
    ensures { WritesOnOk W.write_str_gives f.old result (unicode_escape unit) f.new }
{
    let (high, low) = (unit / 0x100, unit % 0x100);
    write!(f, "\\u{high:02x}{low:02x}")
}
