//! A view at the end of an entry.
ghost use Rattle.std.specs.Prelude.{◌≡◌, ℕ, ◌==◌, ◌+◌, ◌≤◌, ◌++◌, true, false, IfOk, length};
ghost use Rattle.std.specs.Str.{IsUtf8};
ghost use Rattle.wsn_io.specs.Stops.{IsWrittenOrStops};
ghost use Rattle.wsn_shown_text.specs.ShownText.{hex_text};
ghost use Rattle.wsn_shown_text.specs.Views.{view_in, shown_in, IsReadable};
ghost use Rattle.wsn_shown_text.specs.Views.Shown.{Text, Hex};
ghost use Rattle.wsn_shown_text.specs.ShownObjects.{hex_field};
ghost use Rattle.wsn_shown_text.specs.EntryFormats.{seen_in, text_key_in, more_in, end_in};

use crate::fields::{ENTRY_MAX, Shape, end_of};
use crate::line_views::put_view;
use crate::object_views::put_view_fields;
use crate::views::{Shown, View};
use std::io::Write;
use wsn_io::{Output, Stop, put_line};
use wsn_print::{Line, ViewLimit, hold_quoted};

/// The most bytes that are shown in hexadecimal by one write with what is before them.
const SHORT: usize = 32;

/// The room for their digits, what is around them, and the end of the entry in bytes.
const SHORT_ROOM: usize = 96;

/// Writes what a line holds, a view, and the end of the entry, by one write if the view is a short text or few bytes.
#[inline(always)]
pub(crate) fn put_seen_after<W: Write>(
    to: &mut Output<W>,
    line: &mut Line<ENTRY_MAX>,
    shape: Shape,
    limit: ViewLimit,
    view: &View<'_>,
) -> Result<(), Stop>
    requires { to.old.failed ≡ false }
    ensures { IsReadable (shown_in view.now.shown) → IsWrittenOrStops to.old to.new
        (line.old ++ (seen_in shape limit (view_in view.now) ++ end_in shape)) result }
{
    if limit.bytes() == 0 || !line.has_room(SHORT_ROOM) {
        return put_apart(to, line, shape, limit, view);
    }
    match view.shown {
        Shown::Text(text) => put_text_after(to, line, shape, text, view.more),
        Shown::Hex(bytes) if bytes.len() <= SHORT => put_hex_after(
            to, line, shape, bytes, view.more,
        ),
        _ => put_apart(to, line, shape, limit, view),
    }
}

/// Writes what a line holds, and then a view and the end of the entry.
fn put_apart<W: Write>(
    to: &mut Output<W>,
    line: &Line<ENTRY_MAX>,
    shape: Shape,
    limit: ViewLimit,
    view: &View<'_>,
) -> Result<(), Stop>
    requires { to.old.failed ≡ false }
    ensures { IsReadable (shown_in view.now.shown) → IsWrittenOrStops to.old to.new
        (line.now ++ (seen_in shape limit (view_in view.now) ++ end_in shape)) result }
{
    put_line(to, line.bytes())?;
    put_view_and_end(to, shape, limit, view)
}

/// Writes what a line holds, a text that is shown, and the end of the entry.
#[inline(always)]
fn put_text_after<W: Write>(
    to: &mut Output<W>,
    line: &mut Line<ENTRY_MAX>,
    shape: Shape,
    text: &[u8],
    more: bool,
) -> Result<(), Stop>
    requires unfailed { to.old.failed ≡ false }
    requires room { length line.old + SHORT_ROOM ≤ ENTRY_MAX }
    ensures { (n : ℕ) → (n == 0) ≡ false → IsUtf8 text.now → IsWrittenOrStops to.old to.new
        (line.old ++ (seen_in shape n (record { shown = Text text.now; more = more }) ++ end_in shape)) result }
{
    push_text_key(line, shape);
    hold_quoted(to, line, text)?;
    push_more(line, shape, more);
    line.push(end_of(shape));
    put_line(to, line.bytes())
}

/// Writes what a line holds, a few bytes in hexadecimal, and the end of the entry.
#[inline(always)]
fn put_hex_after<W: Write>(
    to: &mut Output<W>,
    line: &mut Line<ENTRY_MAX>,
    shape: Shape,
    bytes: &[u8],
    more: bool,
) -> Result<(), Stop>
    requires unfailed { to.old.failed ≡ false }
    requires room { length line.old + SHORT_ROOM ≤ ENTRY_MAX }
    requires short { length bytes.now ≤ SHORT }
    ensures { (n : ℕ) → (n == 0) ≡ false → IsWrittenOrStops to.old to.new
        (line.old ++ (seen_in shape n (record { shown = Hex bytes.now; more = more }) ++ end_in shape)) result }
{
    match shape {
        Shape::Line => push_hex_text(line, bytes),
        Shape::Object => push_hex_field(line, bytes),
    }
    push_more(line, shape, more);
    line.push(end_of(shape));
    put_line(to, line.bytes())
}

/// Appends what is in front of a text that is shown.
#[inline(always)]
fn push_text_key(line: &mut Line<ENTRY_MAX>, shape: Shape)
    requires { length line.old + 8 ≤ ENTRY_MAX }
    ensures text { line.new ≡ line.old ++ text_key_in shape }
    ensures len { length line.new ≤ length line.old + 8 }
{
    match shape {
        Shape::Line => {}
        Shape::Object => line.push(",\"text\":"),
    }
}

/// Appends a few bytes in hexadecimal; a dash for none.
fn push_hex_text(line: &mut Line<ENTRY_MAX>, bytes: &[u8])
    requires room { length line.old + 64 ≤ ENTRY_MAX }
    requires short { length bytes.now ≤ SHORT }
    ensures text { line.new ≡ line.old ++ hex_text bytes.now }
    ensures len { length line.new ≤ length line.old + 64 }
{
    if bytes.is_empty() {
        line.push("-");
    } else {
        line.push_hex(bytes);
    }
}

/// Appends the member of a few bytes in hexadecimal.
fn push_hex_field(line: &mut Line<ENTRY_MAX>, bytes: &[u8])
    requires room { length line.old + 73 ≤ ENTRY_MAX }
    requires short { length bytes.now ≤ SHORT }
    ensures text { line.new ≡ line.old ++ hex_field bytes.now }
    ensures len { length line.new ≤ length line.old + 73 }
{
    line.push(",\"hex\":\"");
    line.push_hex(bytes);
    line.push("\"");
}

/// Appends whether there is more than is shown.
#[inline(always)]
fn push_more(line: &mut Line<ENTRY_MAX>, shape: Shape, more: bool)
    requires { length line.old + 17 ≤ ENTRY_MAX }
    ensures text { line.new ≡ line.old ++ more_in shape more }
    ensures len { length line.new ≤ length line.old + 17 }
{
    if more {
        line.push(more_of(shape));
    }
}

fn more_of(shape: Shape) -> &'static str
    ensures text { result.now ≡ more_in shape true }
    ensures short { length result.now ≤ 17 }
{
    match shape {
        Shape::Line => " ..",
        Shape::Object => ",\"truncated\":true",
    }
}

/// Writes a view, and the end of the entry.
#[inline(always)]
pub(crate) fn put_view_and_end<W: Write>(
    to: &mut Output<W>,
    shape: Shape,
    view: ViewLimit,
    shown: &View<'_>,
) -> Result<(), Stop>
    requires { to.old.failed ≡ false }
    ensures { IsReadable (shown_in shown.now.shown) →
        IsWrittenOrStops to.old to.new (seen_in shape view (view_in shown.now) ++ end_in shape) result }
{
    put_shown(to, shape, view, shown)?;
    put_line(to, end_of(shape).as_bytes())
}

/// Writes a view.
#[inline(always)]
pub(crate) fn put_shown<W: Write>(
    to: &mut Output<W>,
    shape: Shape,
    view: ViewLimit,
    shown: &View<'_>,
) -> Result<(), Stop>
    requires { to.old.failed ≡ false }
    ensures text { IsReadable (shown_in shown.now.shown) →
        IsWrittenOrStops to.old to.new (seen_in shape view (view_in shown.now)) result }
    ensures unfailed { IfOk result (λ done. to.new.failed ≡ false) }
{
    match shape {
        Shape::Line => put_view(to, view, shown),
        Shape::Object => put_view_fields(to, shown),
    }
}
