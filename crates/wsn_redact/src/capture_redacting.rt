ghost use Rattle.std.specs.Prelude.{◌≡◌, ◌<◌, ◌≤◌, ◌+◌, ◌++◌, ◌∷◌, ℕ, List, [], false, true, length, OnOk, IfErr, take, if◌then◌else◌};
ghost use Rattle.wsn_io.specs.Transfer.{Outgoing};
ghost use Rattle.wsn_rules.specs.Limits.{Limits};
ghost use Rattle.wsn_rules.specs.Entries.{Entry};
ghost use Rattle.wsn_capture.specs.CaptureLines.{count_of};
ghost use Rattle.wsn_capture.specs.LineSplitters.{bytes_ahead};
ghost use Rattle.wsn_redact.specs.PassedRedactions.{HasRedactedLines, IsRedactingLines, HasWritten, IsWritingLines, PutsLine, StopsAtLine, StopsWithin, EndsRedacting};
ghost use Rattle.wsn_redact.specs.RedactingCaptures.{IsRedactedCaptureInput};

use crate::capture_redactor::CaptureRedactor;
use crate::redacted_line::LINE_ROOM;
use std::io::{Read, Write};
use wsn_capture::{BEGUN_MAX, BYTES_MAX, CaptureStop, Lines};
use wsn_io::{Input, Output, put_line};
use wsn_rules::Limits;
use wsn_scan::CHUNK;

/// Why a capture isn't redacted to its end.
#[derive(Clone, Copy)]
pub enum RedactStop {
    /// A read failed, or a line isn't accepted.
    Capture(CaptureStop),
    /// A write failed.
    Write,
}

/// Room for one line that is redacted.
#[derive(Drop)]
struct LineRooms {
    /// For the bytes of its entry.
    bytes: [u8; BYTES_MAX],
    /// For what becomes of it, with an LF.
    into: [u8; LINE_ROOM],
}

/// Writes the redaction of the capture on the input: as many lines, each as soon as it is whole. It reads chunks of at
/// most [`CHUNK`] bytes. The limits apply to each endpoint's stream separately.
///
/// The error `Line` is the first line that isn't accepted; the redaction of the lines before it is written. `Read` is a
/// read that failed; the redaction of every line that was complete by then is written. `Write` is a write that failed: a
/// prefix is written of what would have been, and nothing is read after it.
#[tactic(none)]
pub fn redact_capture<R: Read, W: Write>(
    input: &mut Input<R>,
    output: &mut Output<W>,
    limits: Limits,
) -> Result<(), RedactStop>
    requires readable { input.old.failed ≡ false }
    requires writable { output.old.failed ≡ false }
    ensures { IsRedactedCaptureInput limits input.old input.new output.old output.new result }
{
    let mut redactor = CaptureRedactor::new(limits);
    let mut lines = Lines::new();
    let mut rooms = LineRooms {
        bytes: [0; BYTES_MAX],
        into: [0; LINE_ROOM],
    };
    let mut chunk = [0; CHUNK];
    loop {
        let Some(count) = input.read(&mut chunk) else {
            return Err(RedactStop::Capture(CaptureStop::Read));
        };
        if count == 0 {
            return end(&mut redactor, lines.line(), &mut rooms, output);
        }
        redact_lines(
            &mut redactor,
            &mut lines,
            &chunk[..count],
            &mut rooms,
            output,
        )?;
    }
}

/// Redacts the next line and writes what becomes of it, with an LF or without. The contents of `rooms` are then
/// unspecified.
fn put_redacted<W: Write>(
    redactor: &mut CaptureRedactor,
    line: &[u8],
    lf: bool,
    rooms: &mut LineRooms,
    output: &mut Output<W>,
) -> Result<(), RedactStop>
    requires redacting { IsRedactingLines redactor.old }
    requires few { count_of redactor.old.lines ≤ 1000000 }
    requires writable { output.old.failed ≡ false }
    ensures put { OnOk result ((limits : Limits) (lines : List (List ℕ)) (entries others : List Entry)
        (redacted : List (List ℕ)) → HasRedactedLines limits redactor.old lines entries others redacted →
        PutsLine limits redactor.new lines entries others redacted line.now (if lf then 10 ∷ [] else []) output.old
        output.new) }
    ensures writable { OnOk result (output.new.failed ≡ false) }
    ensures stop { IfErr result (λ stop. (limits : Limits) (lines : List (List ℕ)) (entries others : List Entry)
        (redacted : List (List ℕ)) → HasRedactedLines limits redactor.old lines entries others redacted →
        StopsAtLine limits redactor.new lines entries others redacted line.now (if lf then 10 ∷ [] else []) output.old
        output.new stop) }
    ensures count { OnOk result ((count_of redactor.new.lines ≡ count_of redactor.old.lines + 1)
        × (count_of redactor.new.lines ≤ 1000000)) }
{
    let number = redactor.count() + 1;
    match redactor.line(line, &mut rooms.bytes, &mut rooms.into) {
        Ok(count) => {
            let end = end_line(&mut rooms.into, count, lf);
            match put_line(output, &rooms.into[..end]) {
                Ok(()) => Ok(()),
                Err(_) => Err(RedactStop::Write),
            }
        }
        Err(fault) => Err(RedactStop::Capture(CaptureStop::Line { number, fault })),
    }
}

/// Puts an LF after the first bytes of a line, if one is wanted, and returns the number of bytes with it.
fn end_line(into: &mut [u8; LINE_ROOM], count: usize, lf: bool) -> usize
    requires { count ≤ 8195 }
    ensures within { result ≤ 8196 }
    ensures text { take result into.new ≡ take count into.old ++ (if lf then 10 ∷ [] else []) }
{
    if !lf {
        return count;
    }
    into[count] = b'\n';
    count + 1
}

/// Redacts the lines that a chunk of the text ends. The error `Line` is returned at the first byte at which a line isn't
/// accepted, whatever follows. The contents of `rooms` are then unspecified.
fn redact_lines<W: Write>(
    redactor: &mut CaptureRedactor,
    lines: &mut Lines,
    chunk: &[u8],
    rooms: &mut LineRooms,
    output: &mut Output<W>,
) -> Result<(), RedactStop>
    requires writing { IsWritingLines redactor.old lines.old output.old }
    requires few { count_of redactor.old.lines ≤ 1000000 }
    requires short { length lines.old < BEGUN_MAX }
    requires writable { output.old.failed ≡ false }
    ensures written { OnOk result ((limits : Limits) (first : Outgoing) (came : List ℕ) →
        HasWritten limits first redactor.old lines.old output.old came →
        HasWritten limits first redactor.new lines.new output.new (came ++ chunk.now)) }
    ensures stop { IfErr result (λ stop. (limits : Limits) (first : Outgoing) (came : List ℕ) →
        HasWritten limits first redactor.old lines.old output.old came →
        StopsWithin limits first output.new came chunk.now stop) }
    ensures few { OnOk result (count_of redactor.new.lines ≤ 1000000) }
    ensures short { OnOk result (length lines.new < BEGUN_MAX) }
    ensures writable { OnOk result (output.new.failed ≡ false) }
    ensures left { OnOk result (bytes_ahead redactor.new.lines lines.new + length chunk.now
        ≤ bytes_ahead redactor.old.lines lines.old) }
{
    let mut taken = 0;
    while taken < chunk.len() {
        let (count, ended) = lines.take(&chunk[taken..]);
        taken += count;
        if ended {
            put_redacted(redactor, lines.line(), true, rooms, output)?;
            lines.clear();
        }
    }
    Ok(())
}

/// Redacts the last line, which has no LF, unless it is empty. The contents of `rooms` are then unspecified.
fn end<W: Write>(
    redactor: &mut CaptureRedactor,
    last: &[u8],
    rooms: &mut LineRooms,
    output: &mut Output<W>,
) -> Result<(), RedactStop>
    requires writing { IsWritingLines redactor.old last.now output.old }
    requires few { count_of redactor.old.lines ≤ 1000000 }
    requires writable { output.old.failed ≡ false }
    ensures { (limits : Limits) (first : Outgoing) (came : List ℕ) →
        HasWritten limits first redactor.old last.now output.old came →
        EndsRedacting limits first output.new came result }
{
    if last.is_empty() {
        return Ok(());
    }
    put_redacted(redactor, last, false, rooms, output)
}
