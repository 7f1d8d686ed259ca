ghost use Rattle.std.specs.Prelude.{◌≡◌, false, IfOk, codes};
ghost use Rattle.std.specs.Str.{IsUtf8};
ghost use Rattle.wsn_io.specs.Stops.{IsWrittenOrStops};
ghost use Rattle.wsn_print.specs.EscapedText.{quoted};
ghost use Rattle.wsn_print.specs.Json.{field, number_field};
ghost use Rattle.wsn_shown_text.specs.AsciiText.{ascii_quoted};
ghost use Rattle.wsn_shown_text.specs.ShownObjects.{truncated_field, hex_field, reason_field, shown_fields, view_fields, end_fields};
ghost use Rattle.wsn_shown_text.specs.Views.{PayloadView, EndView, view_in, end_in, shown_in, IsReadable};
ghost use Rattle.wsn_shown_text.specs.Views.Shown.{Code};

use crate::ascii_text::put_ascii_quoted;
use crate::line_views::{put_hex, put_if};
use crate::views::{Ending, Shown, View};
use std::io::Write;
use wsn_io::{Output, Stop, put_line};
use wsn_print::{Line, push_number_field, put_quoted};

/// The space for a member with a close code in bytes.
const CODE_MAX: usize = 28;

/// Writes the members of a view.
pub(crate) fn put_view_fields<W: Write>(to: &mut Output<W>, view: &View<'_>) -> Result<(), Stop>
    requires { to.old.failed ≡ false }
    ensures text { (v : PayloadView) → view_in view.now ≡ v → IsReadable v.shown →
        IsWrittenOrStops to.old to.new (view_fields v) result }
    ensures unfailed { IfOk result (λ done. to.new.failed ≡ false) }
{
    put_shown_fields(to, &view.shown)?;
    put_truncated(to, view.more)
}

/// Writes the last bytes, and whether there are more.
pub(crate) fn put_end_fields<W: Write>(to: &mut Output<W>, end: &Ending<'_>) -> Result<(), Stop>
    requires { to.old.failed ≡ false }
    ensures text { (e : EndView) → end_in end.now ≡ e → IsWrittenOrStops to.old to.new (end_fields e) result }
    ensures unfailed { IfOk result (λ done. to.new.failed ≡ false) }
{
    put_hex_field(to, end.bytes)?;
    put_truncated(to, end.more)
}

/// Writes a text as a string, and bytes in hexadecimal.
fn put_shown_fields<W: Write>(to: &mut Output<W>, shown: &Shown<'_>) -> Result<(), Stop>
    requires { to.old.failed ≡ false }
    ensures text { IsReadable (shown_in shown.now) →
        IsWrittenOrStops to.old to.new (shown_fields (shown_in shown.now)) result }
    ensures unfailed { IfOk result (λ done. to.new.failed ≡ false) }
{
    match *shown {
        Shown::Text(text) => put_text_field(to, text),
        Shown::Ascii(text) => put_ascii_field(to, text),
        Shown::Hex(bytes) => put_hex_field(to, bytes),
        Shown::Code(code, reason) => put_code_fields(to, code, reason),
        Shown::NoCode => put_line(to, b",\"code\":null"),
    }
}

/// Writes a Close's code and reason.
fn put_code_fields<W: Write>(to: &mut Output<W>, code: u16, reason: &[u8]) -> Result<(), Stop>
    requires { to.old.failed ≡ false }
    ensures text { IsUtf8 reason.now → IsWrittenOrStops to.old to.new (shown_fields (Code code reason.now)) result }
    ensures unfailed { IfOk result (λ done. to.new.failed ≡ false) }
{
    put_line(to, line_of_code(code).bytes())?;
    put_reason_field(to, reason)
}

fn line_of_code(code: u16) -> Line<CODE_MAX>
    ensures { result ≡ number_field (codes "code") code }
{
    let mut line = Line::new();
    push_number_field(&mut line, "code", u64::from(code));
    line
}

/// Writes a Close's reason; nothing without one.
fn put_reason_field<W: Write>(to: &mut Output<W>, reason: &[u8]) -> Result<(), Stop>
    requires { to.old.failed ≡ false }
    ensures text { IsUtf8 reason.now → IsWrittenOrStops to.old to.new (reason_field reason.now) result }
    ensures unfailed { IfOk result (λ done. to.new.failed ≡ false) }
{
    if reason.is_empty() {
        return Ok(());
    }
    put_line(to, b",\"reason\":")?;
    put_quoted(to, reason)
}

/// Writes a text in UTF-8, quoted.
pub(crate) fn put_text_field<W: Write>(to: &mut Output<W>, text: &[u8]) -> Result<(), Stop>
    requires { to.old.failed ≡ false }
    ensures text { IsUtf8 text.now → IsWrittenOrStops to.old to.new (field (codes "text") (quoted text.now)) result }
    ensures unfailed { IfOk result (λ done. to.new.failed ≡ false) }
{
    put_line(to, b",\"text\":")?;
    put_quoted(to, text)
}

fn put_ascii_field<W: Write>(to: &mut Output<W>, text: &str) -> Result<(), Stop>
    requires { to.old.failed ≡ false }
    ensures { IsWrittenOrStops to.old to.new (field (codes "text") (ascii_quoted text.now)) result }
{
    put_line(to, b",\"text\":")?;
    put_ascii_quoted(to, text)
}

/// Writes bytes in hexadecimal.
pub(crate) fn put_hex_field<W: Write>(to: &mut Output<W>, bytes: &[u8]) -> Result<(), Stop>
    requires { to.old.failed ≡ false }
    ensures { IsWrittenOrStops to.old to.new (hex_field bytes.now) result }
{
    put_line(to, b",\"hex\":\"")?;
    put_hex(to, bytes)?;
    put_line(to, b"\"")
}

/// Writes whether there is more than is shown.
pub(crate) fn put_truncated<W: Write>(to: &mut Output<W>, more: bool) -> Result<(), Stop>
    requires { to.old.failed ≡ false }
    ensures { IsWrittenOrStops to.old to.new (truncated_field more) result }
{
    put_if(to, more, b",\"truncated\":true")
}
