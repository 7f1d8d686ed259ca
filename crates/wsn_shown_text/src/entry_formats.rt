ghost use Rattle.std.specs.Prelude.{◌≡◌, ◌++◌, false, codes, drop};
ghost use Rattle.wsn_io.specs.Stops.{IsWrittenOrStops};
ghost use Rattle.wsn_print.specs.Json.{number_field};
ghost use Rattle.wsn_print.specs.ShownParts.{position_of};
ghost use Rattle.wsn_shown_text.specs.EntryFormats.{end_entry, end_mark_in, comment_entry};
ghost use Rattle.wsn_shown_text.specs.ShownObjects.{comment_field, comment_object};

use crate::fields::{ENTRY_MAX, Shape, push_end_mark};
use crate::fronts::put_front;
use crate::object_views::{put_hex_field, put_text_field};
use crate::people::put_people_end_mark;
use std::io::Write;
use std::str;
use wsn_io::{Output, Stop, put_line};
use wsn_print::{EntryFront, Format, Line, push_number_field, put_comment};

/// The space for a comment's type and the number of its line in bytes.
const COMMENT_MAX: usize = 60;

/// Writes an endpoint's end mark in a format, such as `C - 378 end`; the offset is the number of bytes that the endpoint
/// sent. `Stop::Write` if the writer fails: a prefix of the line was written.
pub fn put_end_as<W: Write>(
    to: &mut Output<W>,
    format: Format,
    front: &EntryFront<'_>,
) -> Result<(), Stop>
    requires { to.old.failed ≡ false }
    ensures { IsWrittenOrStops to.old to.new
        (end_entry format front.now.role (position_of front.now.origin) front.now.offset) result }
{
    match format {
        Format::Text => put_end_in(to, Shape::Line, front),
        Format::People => put_people_end_mark(to, front),
        Format::Json => put_end_in(to, Shape::Object, front),
    }
}

/// Writes an end mark as a line of words or as an object.
fn put_end_in<W: Write>(
    to: &mut Output<W>,
    shape: Shape,
    front: &EntryFront<'_>,
) -> Result<(), Stop>
    requires { to.old.failed ≡ false }
    ensures { IsWrittenOrStops to.old to.new
        (end_mark_in shape front.now.role (position_of front.now.origin) front.now.offset) result }
{
    let mut line = Line::<ENTRY_MAX>::new();
    push_end_mark(&mut line, shape, front.offset);
    put_front(to, shape, "end", front)?;
    put_line(to, line.bytes())
}

/// Writes a comment of a capture in a format, given with the number of its line, from 1. `Stop::Write` if the writer
/// fails: a prefix of the line was written.
pub fn put_comment_as<W: Write>(
    to: &mut Output<W>,
    format: Format,
    number: u32,
    text: &[u8],
) -> Result<(), Stop>
    requires { to.old.failed ≡ false }
    ensures { IsWrittenOrStops to.old to.new (comment_entry format number text.now) result }
{
    match format {
        Format::Text | Format::People => put_comment(to, text),
        Format::Json => put_comment_object(to, number, text),
    }
}

/// Writes a comment of a capture as a JSON object in one line: the number of its line, from 1, and what follows the `#`
/// that it begins with, as a text, or in hexadecimal if it isn't UTF-8. `Stop::Write` if the writer fails: a prefix of the
/// line was written.
fn put_comment_object<W: Write>(to: &mut Output<W>, number: u32, text: &[u8]) -> Result<(), Stop>
    requires { to.old.failed ≡ false }
    ensures { IsWrittenOrStops to.old to.new (comment_object number text.now) result }
{
    put_line(to, line_of_comment(number).bytes())?;
    put_comment_field(to, after_first(text))?;
    put_line(to, b"}\n")
}

/// Writes a comment's text; of one that isn't UTF-8, its bytes in hexadecimal.
#[tactic(none)]
fn put_comment_field<W: Write>(to: &mut Output<W>, text: &[u8]) -> Result<(), Stop>
    requires { to.old.failed ≡ false }
    ensures { IsWrittenOrStops to.old to.new (comment_field text.now) result }
{
    match str::from_utf8(text) {
        Ok(_) => put_text_field(to, text),
        Err(_) => put_hex_field(to, text),
    }
}

fn line_of_comment(number: u32) -> Line<COMMENT_MAX>
    ensures { result ≡ codes "{\"type\":\"comment\"" ++ number_field (codes "line") number }
{
    let mut line = Line::new();
    line.push("{\"type\":\"comment\"");
    push_number_field(&mut line, "line", u64::from(number));
    line
}

/// All bytes but the first.
fn after_first(text: &[u8]) -> &[u8]
    ensures { result.now ≡ drop 1 text.now }
{
    if text.is_empty() { text } else { &text[1..] }
}
