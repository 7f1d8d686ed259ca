//! What is in front of an entry's offset: the endpoint and the time, and in an object the type and the line.
ghost use Rattle.std.specs.Prelude.{◌≡◌, ◌+◌, ◌≤◌, ◌++◌, [], None, false, codes, length};
ghost use Rattle.wsn_io.specs.Stops.{IsWrittenOrStops};
ghost use Rattle.wsn_print.specs.Json.{string_field};
ghost use Rattle.wsn_print.specs.ShownParts.{time_of, time_at, position_of};
ghost use Rattle.wsn_shown_text.specs.ShownText.{role_letter, time_text};
ghost use Rattle.wsn_shown_text.specs.ShownObjects.{object_front, line_field, side_word, time_key, time_value};
ghost use Rattle.wsn_shown_text.specs.EntryFormats.{front_in, if_timed, if_untimed};

use crate::fields::{ENTRY_MAX, Shape};
use std::io::Write;
use wsn_io::{Output, Stop, put_line};
use wsn_print::{EntryFront, Front, Line, Origin, push_number_field, push_string_field};
use wsn_wire::Role;

/// The space for what is in front of an offset in bytes, without a time, and with a number of twenty digits.
pub(crate) const FRONT_MAX: usize = 80;

/// Appends what is in front of an entry's offset to an empty line, unless it has a time.
#[inline(always)]
pub(crate) fn push_front(
    line: &mut Line<ENTRY_MAX>,
    shape: Shape,
    kind: &str,
    front: &EntryFront<'_>,
)
    requires empty { line.old ≡ [] }
    requires short { length kind.now ≤ 10 }
    ensures text { line.new ≡ if_untimed (time_at (position_of front.now.origin))
        (front_in shape kind.now front.now.role (position_of front.now.origin)) }
    ensures len { length line.new ≤ FRONT_MAX }
{
    match front.of_line().time {
        Some(_) => {}
        None => push_untimed(line, shape, kind, front),
    }
}

#[inline(always)]
fn push_untimed(line: &mut Line<ENTRY_MAX>, shape: Shape, kind: &str, front: &EntryFront<'_>)
    requires empty { line.old ≡ [] }
    requires short { length kind.now ≤ 10 }
    requires untimed { time_at (position_of front.now.origin) ≡ None }
    ensures text { line.new ≡ front_in shape kind.now front.now.role (position_of front.now.origin) }
    ensures len { length line.new ≤ FRONT_MAX }
{
    match shape {
        Shape::Line => line.push(untimed(front.role)),
        Shape::Object => push_untimed_object(line, kind, front.role, &front.origin),
    }
}

/// Writes what is in front of an entry's offset, if it has a time.
#[inline(always)]
pub(crate) fn put_timed_front<W: Write>(
    to: &mut Output<W>,
    shape: Shape,
    kind: &str,
    front: &EntryFront<'_>,
) -> Result<(), Stop>
    requires writable { to.old.failed ≡ false }
    requires short { length kind.now ≤ 10 }
    ensures { IsWrittenOrStops to.old to.new (if_timed (time_at (position_of front.now.origin))
        (front_in shape kind.now front.now.role (position_of front.now.origin))) result }
{
    match front.of_line().time {
        Some(_) => put_front(to, shape, kind, front),
        None => Ok(()),
    }
}

/// Writes what is in front of an entry's offset.
pub(crate) fn put_front<W: Write>(
    to: &mut Output<W>,
    shape: Shape,
    kind: &str,
    front: &EntryFront<'_>,
) -> Result<(), Stop>
    requires writable { to.old.failed ≡ false }
    requires short { length kind.now ≤ 10 }
    ensures { IsWrittenOrStops to.old to.new
        (front_in shape kind.now front.now.role (position_of front.now.origin)) result }
{
    match shape {
        Shape::Line => put_side(to, front),
        Shape::Object => put_object_front(to, kind, front),
    }
}

/// Writes which endpoint an entry is about, and when.
pub(crate) fn put_side<W: Write>(to: &mut Output<W>, front: &EntryFront<'_>) -> Result<(), Stop>
    requires { to.old.failed ≡ false }
    ensures { IsWrittenOrStops to.old to.new
        (role_letter front.now.role ++ codes " " ++ time_text (time_at (position_of front.now.origin))) result }
{
    put_endpoint(to, &front.of_line())
}

fn put_endpoint<W: Write>(to: &mut Output<W>, front: &Front<'_>) -> Result<(), Stop>
    requires { to.old.failed ≡ false }
    ensures { IsWrittenOrStops to.old to.new
        (role_letter front.now.role ++ codes " " ++ time_text (time_of front.now)) result }
{
    let Some(seconds) = front.time else {
        return put_line(to, untimed(front.role).as_bytes());
    };
    put_line(to, letter_of(front.role))?;
    put_line(to, seconds)
}

fn letter_of(role: Role) -> &'static [u8]
    ensures { result.now ≡ role_letter role ++ codes " " }
{
    match role {
        Role::Client => b"C ",
        Role::Server => b"S ",
    }
}

fn untimed(role: Role) -> &'static str
    ensures text { result.now ≡ role_letter role ++ codes " -" }
    ensures short { length result.now ≤ 3 }
{
    match role {
        Role::Client => "C -",
        Role::Server => "S -",
    }
}

fn put_object_front<W: Write>(
    to: &mut Output<W>,
    kind: &str,
    front: &EntryFront<'_>,
) -> Result<(), Stop>
    requires writable { to.old.failed ≡ false }
    requires short { length kind.now ≤ 10 }
    ensures { IsWrittenOrStops to.old to.new
        (object_front kind.now front.now.role (position_of front.now.origin)) result }
{
    let mut line = Line::new();
    push_object_front(&mut line, kind, front.role, &front.origin);
    put_line(to, line.bytes())?;
    put_line(to, seconds_of(&front.origin))
}

fn push_untimed_object(line: &mut Line<ENTRY_MAX>, kind: &str, role: Role, origin: &Origin<'_>)
    requires empty { line.old ≡ [] }
    requires short { length kind.now ≤ 10 }
    requires untimed { time_at (position_of origin.now) ≡ None }
    ensures text { line.new ≡ object_front kind.now role (position_of origin.now) }
    ensures len { length line.new ≤ FRONT_MAX }
{
    push_object_front(line, kind, role, origin);
    line.push(no_seconds(origin));
}

/// Appends what is in front of an entry's time to an empty line.
fn push_object_front(line: &mut Line<ENTRY_MAX>, kind: &str, role: Role, origin: &Origin<'_>)
    requires empty { line.old ≡ [] }
    requires short { length kind.now ≤ 10 }
    ensures text { line.new ≡ codes "{\"type\":\"" ++ kind.now ++ codes "\"" ++ line_field (position_of origin.now)
        ++ string_field (codes "side") (side_word role) ++ time_key (position_of origin.now) }
    ensures len { length line.new ≤ 72 }
{
    line.push("{\"type\":\"");
    line.push(kind);
    line.push("\"");
    push_line_number(line, origin);
    push_string_field(line, "side", side_word(role));
    line.push(time_key(origin));
}

fn push_line_number(line: &mut Line<ENTRY_MAX>, origin: &Origin<'_>)
    requires { length line.old + 28 ≤ ENTRY_MAX }
    ensures text { line.new ≡ line.old ++ line_field (position_of origin.now) }
    ensures len { length line.new ≤ length line.old + 28 }
{
    match origin {
        Origin::Line { number, .. } => push_number_field(line, "line", u64::from(*number)),
        Origin::End { .. } | Origin::Stream => {}
    }
}

fn side_word(role: Role) -> &'static str
    ensures word { result.now ≡ side_word role }
    ensures short { length result.now ≤ 6 }
{
    match role {
        Role::Client => "client",
        Role::Server => "server",
    }
}

fn time_key(origin: &Origin<'_>) -> &'static str
    ensures word { result.now ≡ time_key (position_of origin.now) }
    ensures short { length result.now ≤ 8 }
{
    match origin {
        Origin::Line { .. } | Origin::End { .. } => ",\"time\":",
        Origin::Stream => "",
    }
}

fn seconds_of<'a>(origin: &Origin<'a>) -> &'a [u8]
    ensures { result.now ≡ time_value (position_of origin.now) }
{
    match origin {
        Origin::Line { time, .. } | Origin::End { time } => time.unwrap_or(b"null"),
        Origin::Stream => b"",
    }
}

/// The value of a time that isn't given.
fn no_seconds(origin: &Origin<'_>) -> &'static str
    requires { time_at (position_of origin.now) ≡ None }
    ensures value { result.now ≡ time_value (position_of origin.now) }
    ensures short { length result.now ≤ 4 }
{
    match origin {
        Origin::Line { .. } | Origin::End { .. } => "null",
        Origin::Stream => "",
    }
}
