ghost use Rattle.std.specs.Prelude.{◌≡◌, ◌<◌, ◌≤◌, ◌+◌, ◌++◌, ℕ, List, false, length, OnOk, IfErr};
ghost use Rattle.wsn_io.specs.Transfer.{Outgoing};
ghost use Rattle.wsn_rules.specs.Limits.{Limits};
ghost use Rattle.wsn_rules.specs.Entries.{Entry};
ghost use Rattle.wsn_rules.specs.TextLines.{AreLines};
ghost use Rattle.wsn_capture.specs.CaptureLines.{count_of};
ghost use Rattle.wsn_capture.specs.LineSplitters.{bytes_ahead};
ghost use Rattle.wsn_print.specs.declared.style.Style.{Style};
ghost use Rattle.wsn_show.specs.CaptureViews.{HasShownLines, IsShowingLines, ShowsLine};
ghost use Rattle.wsn_show.specs.Showing.{IsShown};
ghost use Rattle.wsn_show.specs.PassedLines.{HasPrinted, HasPrintedLines, IsPrinting, StopsAtLine, StopsWithin, EndsShowing};

use crate::capture_view::CaptureView;
use std::io::{Read, Write};
use wsn_capture::{BEGUN_MAX, BYTES_MAX, CaptureReport, CaptureStop, Lines};
use wsn_io::{Input, Output};
use wsn_print::{Style, put_report_as};
use wsn_rules::Limits;
use wsn_scan::CHUNK;

/// Why a capture isn't shown to its end.
#[derive(Clone, Copy)]
pub enum ShowStop {
    /// The capture has no report.
    Capture(CaptureStop),
    /// A write failed.
    Write,
}

/// Shows the capture on the input: prints what each line completes as soon as the line is whole, then what is left over
/// of both streams, who ended the connection if a stream ended without a Close, and the report. It returns the report,
/// how many bytes each endpoint sent after its Close, and the lines with offending bytes. It reads chunks of at most
/// [`CHUNK`] bytes. The limits apply to each endpoint's stream separately. The payload of an open message is held in
/// `client` or `server`, memory with at least as many bytes as are shown of it.
///
/// The error `Line` is the first line that isn't accepted; what the lines before it show is printed. It is returned once
/// the line has ended or is too long whatever follows, with at most 4,095 bytes read after that byte. `Read` is a read
/// that failed; what every line shows that was complete by then is printed. `Write` is a write that failed: a prefix is
/// printed of what would have been, and nothing is read after it.
#[tactic(none)]
pub fn show<R: Read, W: Write>(
    input: &mut Input<R>,
    output: &mut Output<W>,
    limits: Limits,
    style: Style,
    client: &mut [u8],
    server: &mut [u8],
) -> Result<CaptureReport, ShowStop>
    requires readable { input.old.failed ≡ false }
    requires writable { output.old.failed ≡ false }
    requires client { style.view ≤ length client.old }
    requires server { style.view ≤ length server.old }
    ensures { IsShown limits style input.old input.new output.old output.new result }
{
    let mut capture = CaptureView::new(limits, style, client, server);
    let mut lines = Lines::new();
    let mut bytes = [0; BYTES_MAX];
    let mut chunk = [0; CHUNK];
    loop {
        let Some(count) = input.read(&mut chunk) else {
            return Err(ShowStop::Capture(CaptureStop::Read));
        };
        if count == 0 {
            return end(&mut capture, lines.line(), &mut bytes, output);
        }
        show_lines(
            &mut capture,
            &mut lines,
            &chunk[..count],
            &mut bytes,
            output,
        )?;
    }
}

/// Shows the next line. The contents of `bytes` are then unspecified.
fn show_line<W: Write>(
    view: &mut CaptureView<'_>,
    line: &[u8],
    bytes: &mut [u8; BYTES_MAX],
    output: &mut Output<W>,
) -> Result<(), ShowStop>
    requires showing { IsShowingLines view.old }
    requires few { count_of view.old.lines ≤ 1000000 }
    requires writable { output.old.failed ≡ false }
    ensures shown { OnOk result ((limits : Limits) (style : Style) (lines : List (List ℕ)) (entries : List Entry) →
        HasShownLines limits style view.old lines entries →
        ShowsLine limits style view.new lines entries line.now output.old output.new) }
    ensures writable { OnOk result (output.new.failed ≡ false) }
    ensures stop { IfErr result (λ stop. (limits : Limits) (style : Style) (lines : List (List ℕ))
        (entries : List Entry) →
        HasShownLines limits style view.old lines entries →
        StopsAtLine limits style view.new lines entries line.now output.old output.new stop) }
    ensures count { OnOk result ((count_of view.new.lines ≡ count_of view.old.lines + 1)
        × (count_of view.new.lines ≤ 1000000)) }
{
    let number = view.count() + 1;
    if let Err(fault) = view.line(line, bytes, output) {
        return Err(ShowStop::Capture(CaptureStop::Line { number, fault }));
    }
    if output.failed() {
        return Err(ShowStop::Write);
    }
    Ok(())
}

/// Shows the lines that a chunk of the text ends. The error `Line` is returned at the first byte at which a line isn't
/// accepted, whatever follows. The contents of `bytes` are then unspecified.
fn show_lines<W: Write>(
    view: &mut CaptureView<'_>,
    lines: &mut Lines,
    chunk: &[u8],
    bytes: &mut [u8; BYTES_MAX],
    output: &mut Output<W>,
) -> Result<(), ShowStop>
    requires printing { IsPrinting view.old lines.old output.old }
    requires few { count_of view.old.lines ≤ 1000000 }
    requires short { length lines.old < BEGUN_MAX }
    requires writable { output.old.failed ≡ false }
    ensures printed { OnOk result ((limits : Limits) (style : Style) (first : Outgoing) (came : List ℕ) →
        HasPrinted limits style first view.old lines.old output.old came →
        HasPrinted limits style first view.new lines.new output.new (came ++ chunk.now)) }
    ensures stop { IfErr result (λ stop. (limits : Limits) (style : Style) (first : Outgoing) (came : List ℕ) →
        HasPrinted limits style first view.old lines.old output.old came →
        StopsWithin limits style first output.new came chunk.now stop) }
    ensures few { OnOk result (count_of view.new.lines ≤ 1000000) }
    ensures short { OnOk result (length lines.new < BEGUN_MAX) }
    ensures writable { OnOk result (output.new.failed ≡ false) }
    ensures left { OnOk result (bytes_ahead view.new.lines lines.new + length chunk.now
        ≤ bytes_ahead view.old.lines lines.old) }
{
    let mut taken = 0;
    while taken < chunk.len() {
        let (count, ended) = lines.take(&chunk[taken..]);
        taken += count;
        if ended {
            show_line(view, lines.line(), bytes, output)?;
            lines.clear();
        }
    }
    Ok(())
}

/// Shows the last line, unless it is empty, and then the end of the capture. The contents of `bytes` are then unspecified.
fn end<W: Write>(
    view: &mut CaptureView<'_>,
    last: &[u8],
    bytes: &mut [u8; BYTES_MAX],
    output: &mut Output<W>,
) -> Result<CaptureReport, ShowStop>
    requires printing { IsPrinting view.old last.now output.old }
    requires few { count_of view.old.lines ≤ 1000000 }
    requires writable { output.old.failed ≡ false }
    ensures { (limits : Limits) (style : Style) (first : Outgoing) (came : List ℕ) →
        HasPrinted limits style first view.old last.now output.old came →
        EndsShowing limits style first output.new came result }
{
    if last.is_empty() {
        return put_end_of_capture(view, output);
    }
    show_line(view, last, bytes, output)?;
    put_end_of_capture(view, output)
}

/// Prints what is left over at the end of the capture, who ended the connection, and the report.
fn put_end_of_capture<W: Write>(
    view: &CaptureView<'_>,
    output: &mut Output<W>,
) -> Result<CaptureReport, ShowStop>
    requires writable { output.old.failed ≡ false }
    ensures { (limits : Limits) (style : Style) (first : Outgoing) (came : List ℕ) (lines : List (List ℕ)) →
        AreLines came lines → HasPrintedLines limits style first view.now lines output.old →
        EndsShowing limits style first output.new came result }
{
    let report = view.finish(output);
    if output.failed() {
        return Err(ShowStop::Write);
    }
    match put_report_as(output, view.style().format, &report) {
        Ok(()) => Ok(CaptureReport {
            report,
            tails: view.tails(),
            refused: view.refused_lines(),
        }),
        Err(_) => Err(ShowStop::Write),
    }
}
