ghost use Rattle.std.specs.Prelude.{◌≡◌, ◌≤◌, ◌==◌, ◌&&◌, [], if◌then◌else◌, false, IfOk, decimal, length};
ghost use Rattle.std.specs.Str.{IsUtf8};
ghost use Rattle.hex.specs.Hex.{encode_lower};
ghost use Rattle.wsn_io.specs.Stops.{IsWrittenOrStops};
ghost use Rattle.wsn_shown_text.specs.ShownText.{hex_text, reason_text, shown_text, seen_text, view_text, end_text};
ghost use Rattle.wsn_shown_text.specs.Views.{PayloadView, EndView, view_in, end_in, shown_in, IsReadable};
ghost use Rattle.wsn_shown_text.specs.Views.Shown.{Code};

use crate::ascii_text::put_ascii_quoted;
use crate::views::{Ending, Shown, View, front_of};
use std::io::Write;
use wsn_io::{Output, Stop, put_line};
use wsn_print::{Line, ViewLimit, put_quoted};

/// The most bytes that are encoded at once.
const CHUNK: usize = 32;

/// The number of their digits.
const CHUNK_DIGITS: usize = 64;

/// The space for a close code in bytes.
const CODE_MAX: usize = 20;

/// Writes a view in a line; a dash if it has 0 bytes, and there is more.
#[inline(always)]
pub(crate) fn put_view<W: Write>(
    to: &mut Output<W>,
    limit: ViewLimit,
    view: &View<'_>,
) -> Result<(), Stop>
    requires { to.old.failed ≡ false }
    ensures text { (v : PayloadView) → view_in view.now ≡ v → IsReadable v.shown →
        IsWrittenOrStops to.old to.new (view_text limit v) result }
    ensures unfailed { IfOk result (λ done. to.new.failed ≡ false) }
{
    if is_hidden(limit, view.more) {
        put_line(to, b"-")
    } else {
        put_seen(to, view)
    }
}

/// Whether nothing is shown of what isn't empty.
pub(crate) fn is_hidden(limit: ViewLimit, more: bool) -> bool
    ensures { result ≡ (limit == 0 && more) }
{
    limit.bytes() == 0 && more
}

/// Writes what is shown in a line, and ` ..` if there is more.
pub(crate) fn put_seen<W: Write>(to: &mut Output<W>, view: &View<'_>) -> Result<(), Stop>
    requires { to.old.failed ≡ false }
    ensures text { (v : PayloadView) → view_in view.now ≡ v → IsReadable v.shown →
        IsWrittenOrStops to.old to.new (seen_text v) result }
    ensures unfailed { IfOk result (λ done. to.new.failed ≡ false) }
{
    put_shown(to, &view.shown)?;
    put_if(to, view.more, b" ..")
}

/// Writes the last bytes in hexadecimal, with `..` in front if there are more; a dash if the view has 0 bytes.
pub(crate) fn put_end_text<W: Write>(
    to: &mut Output<W>,
    limit: ViewLimit,
    end: &Ending<'_>,
) -> Result<(), Stop>
    requires { to.old.failed ≡ false }
    ensures text { (e : EndView) → end_in end.now ≡ e →
        IsWrittenOrStops to.old to.new (end_text limit e) result }
    ensures unfailed { IfOk result (λ done. to.new.failed ≡ false) }
{
    if limit.bytes() == 0 {
        return put_line(to, b"-");
    }
    put_if(to, end.more, b"..")?;
    put_hex(to, end.bytes)
}

/// Writes a mark if there is more.
pub(crate) fn put_if<W: Write>(to: &mut Output<W>, more: bool, mark: &[u8]) -> Result<(), Stop>
    requires { to.old.failed ≡ false }
    ensures { IsWrittenOrStops to.old to.new (if more then mark.now else []) result }
{
    if more { put_line(to, mark) } else { Ok(()) }
}

/// Writes a text quoted, and bytes in hexadecimal.
fn put_shown<W: Write>(to: &mut Output<W>, shown: &Shown<'_>) -> Result<(), Stop>
    requires { to.old.failed ≡ false }
    ensures text { IsReadable (shown_in shown.now) →
        IsWrittenOrStops to.old to.new (shown_text (shown_in shown.now)) result }
    ensures unfailed { IfOk result (λ done. to.new.failed ≡ false) }
{
    match *shown {
        Shown::Text(text) => put_quoted(to, text),
        Shown::Ascii(text) => put_ascii_quoted(to, text),
        Shown::Hex(bytes) => put_hex_text(to, bytes),
        Shown::Code(code, reason) => put_code(to, code, reason),
        Shown::NoCode => put_line(to, b"-"),
    }
}

/// Writes a Close's code, and its reason after a space.
fn put_code<W: Write>(to: &mut Output<W>, code: u16, reason: &[u8]) -> Result<(), Stop>
    requires { to.old.failed ≡ false }
    ensures text { IsUtf8 reason.now → IsWrittenOrStops to.old to.new (shown_text (Code code reason.now)) result }
    ensures unfailed { IfOk result (λ done. to.new.failed ≡ false) }
{
    put_line(to, line_of_code(code).bytes())?;
    put_reason(to, reason)
}

pub(crate) fn line_of_code(code: u16) -> Line<CODE_MAX>
    ensures { result ≡ decimal code }
{
    let mut line = Line::new();
    line.push_number(u64::from(code));
    line
}

/// Writes a Close's reason after a space; nothing without one.
fn put_reason<W: Write>(to: &mut Output<W>, reason: &[u8]) -> Result<(), Stop>
    requires { to.old.failed ≡ false }
    ensures text { IsUtf8 reason.now → IsWrittenOrStops to.old to.new (reason_text reason.now) result }
    ensures unfailed { IfOk result (λ done. to.new.failed ≡ false) }
{
    if reason.is_empty() {
        return Ok(());
    }
    put_line(to, b" ")?;
    put_quoted(to, reason)
}

/// Writes bytes in hexadecimal; a dash for none.
pub(crate) fn put_hex_text<W: Write>(to: &mut Output<W>, bytes: &[u8]) -> Result<(), Stop>
    requires { to.old.failed ≡ false }
    ensures { IsWrittenOrStops to.old to.new (hex_text bytes.now) result }
{
    if bytes.is_empty() {
        put_line(to, b"-")
    } else {
        put_hex(to, bytes)
    }
}

/// Writes bytes in hexadecimal.
#[inline(never)]
pub(crate) fn put_hex<W: Write>(to: &mut Output<W>, bytes: &[u8]) -> Result<(), Stop>
    requires { to.old.failed ≡ false }
    ensures { IsWrittenOrStops to.old to.new (encode_lower bytes.now) result }
{
    let mut done = 0;
    while done < bytes.len() {
        let next = front_of(&bytes[done..], CHUNK);
        put_line(to, hex_of(next).bytes())?;
        done += next.len();
    }
    Ok(())
}

fn hex_of(bytes: &[u8]) -> Line<CHUNK_DIGITS>
    requires { length bytes.now ≤ 32 }
    ensures { result ≡ encode_lower bytes.now }
{
    let mut line = Line::new();
    line.push_hex(bytes);
    line
}
