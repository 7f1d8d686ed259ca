ghost use Rattle.std.specs.Prelude.{◌≡◌, ℕ, ◌+◌, ◌≤◌, List, [], length, drop, false, Some};
ghost use Rattle.wsn_wire.specs.Frame.{IsBytes};
ghost use Rattle.wsn_rules.specs.declared.head_info.HeadInfo.{HeadInfo};
ghost use Rattle.wsn_scan.specs.Feeding.{ConsumesPrefix, IsRunning, heads_in};
ghost use Rattle.wsn_scan.specs.Scans.{room_of};
ghost use Rattle.wsn_parts.specs.Listing.{ListsMore, IsEnded, IsListedChunk, PrintsMore, PrintsHeld, IsListed, IsListedAs, IsListedWhole, IsListedWholeAs};

use std::io::{Read, Write};
use wsn_io::{Input, Output, Stop, put_line};
use wsn_print::{Format, HeadLines, put_verdict_as};
use wsn_rules::{Limits, Refusal, Verdict};
use wsn_scan::{CHUNK, ChunkReader, Part, Scan, Taken};
use wsn_wire::Role;

/// Prints a line for each frame of an input and then the verdict's line, and returns the verdict (RFC 6455 section
/// 5.2). It reads as [`judge`](wsn_scan::judge) does. A frame's line is printed as soon as its head is complete, if the
/// head is valid so far.
///
/// Errors: `Read` if a read fails, and `InputLimit` if a byte past the input limit comes. With either, the lines of the
/// heads that came within the limit are printed, and no verdict. `Write` if the writer fails: a prefix of the lines is
/// written.
pub fn list<R: Read, W: Write>(
    input: &mut Input<R>,
    output: &mut Output<W>,
    role: Role,
    limits: Limits,
) -> Result<Verdict, Stop>
    requires readable { input.old.failed ≡ false }
    requires writable { output.old.failed ≡ false }
    ensures listed { IsListed role limits input.old input.new output.old output.new result }
    ensures whole { (all : List ℕ) → input.old.remaining ≡ Some all →
        IsListedWhole role limits all output.old output.new result }
{
    list_as(input, output, role, limits, Format::Text)
}

/// Prints in a format what [`list`] prints: of each frame its line or its object, and then that of the verdict. It reads
/// and answers as [`list`] does, with the same errors.
#[tactic(none)]
pub fn list_as<R: Read, W: Write>(
    input: &mut Input<R>,
    output: &mut Output<W>,
    role: Role,
    limits: Limits,
    format: Format,
) -> Result<Verdict, Stop>
    requires readable { input.old.failed ≡ false }
    requires writable { output.old.failed ≡ false }
    ensures listed { IsListedAs format role limits input.old input.new output.old output.new result }
    ensures whole { (all : List ℕ) → input.old.remaining ≡ Some all →
        IsListedWholeAs format role limits all output.old output.new result }
{
    let mut scan = Scan::new(role, limits);
    let mut lines = HeadLines::new();
    let mut chunks = ChunkReader::new(limits);
    let mut buffer = [0; CHUNK];
    while let Some(len) = chunks.next(input, &mut buffer)? {
        let refusal = list_chunk(&mut scan, &mut buffer[..len], &mut lines, output, format);
        if output.failed() {
            return Err(Stop::Write);
        }
        if let Some(refusal) = refusal {
            return end(output, format, Verdict::Refused(refusal));
        }
    }
    end(output, format, scan.finish())
}

/// Prints the verdict's line and returns the verdict. `Write` if the writer fails: a prefix of the line is written.
#[tactic(none)]
fn end<W: Write>(output: &mut Output<W>, format: Format, verdict: Verdict) -> Result<Verdict, Stop>
    requires { output.old.failed ≡ false }
    ensures { IsEnded format output.old output.new verdict result }
{
    put_verdict_as(output, format, &verdict)?;
    Ok(verdict)
}

/// Feeds the chunk to the scan, all of it or the bytes up to a refusal, and prints the head of each frame that begins:
/// many lines by one write, and all of them before it returns. Returns the refusal, if there is one. `lines` is empty
/// before and afterwards. After a failed write it scans on and prints nothing.
#[tactic(none)]
fn list_chunk<W: Write>(
    scan: &mut Scan,
    chunk: &mut [u8],
    lines: &mut HeadLines,
    output: &mut Output<W>,
    format: Format,
) -> Option<Refusal>
    requires begun { IsRunning scan.old }
    requires fits { length chunk.old ≤ room_of scan.old }
    requires writable { output.old.failed ≡ false }
    requires none_held { lines.old ≡ [] }
    ensures listed { IsListedChunk format scan.old scan.new output.old output.new chunk.old result }
    ensures none_held { lines.new ≡ [] }
{
    let mut part = Part::new();
    let mut at = 0;
    while at < chunk.len() {
        let (taken, found) = scan.next(&mut chunk[at..], &mut part);
        at += taken;
        if let Taken::Refused = found {
            break;
        }
        list_head(found, &part, lines, output, format);
        at += list_events(scan, &mut chunk[at..], lines, output, format);
    }
    print_lines(lines, output);
    scan.refusal()
}

/// Consumes frames at the start of the chunk, up to the first that [`Scan::next_event`] leaves, and adds their heads to
/// the lines. Returns the number of bytes.
#[inline(always)]
#[tactic(none)]
fn list_events<W: Write>(
    scan: &mut Scan,
    chunk: &mut [u8],
    lines: &mut HeadLines,
    output: &mut Output<W>,
    format: Format,
) -> usize
    requires { length chunk.old ≤ room_of scan.old }
    ensures listed { IsBytes chunk.old → (heads : List HeadInfo)
        × ConsumesPrefix scan.old scan.new chunk.old result heads
        × ListsMore format output.old output.new lines.old lines.new heads }
    ensures within { result ≤ length chunk.old }
    ensures kept { drop result chunk.new ≡ drop result chunk.old }
    ensures room { room_of scan.new + result ≡ room_of scan.old }
{
    if !scan.is_idle() {
        return 0;
    }
    list_run(scan, chunk, lines, output, format)
}

/// Does what [`list_events`] does.
#[inline(never)]
#[tactic(none)]
fn list_run<W: Write>(
    scan: &mut Scan,
    chunk: &mut [u8],
    lines: &mut HeadLines,
    output: &mut Output<W>,
    format: Format,
) -> usize
    requires { length chunk.old ≤ room_of scan.old }
    ensures listed { IsBytes chunk.old → (heads : List HeadInfo)
        × ConsumesPrefix scan.old scan.new chunk.old result heads
        × ListsMore format output.old output.new lines.old lines.new heads }
    ensures within { result ≤ length chunk.old }
    ensures kept { drop result chunk.new ≡ drop result chunk.old }
    ensures room { room_of scan.new + result ≡ room_of scan.old }
{
    let mut at = 0;
    while let Some((taken, head)) = scan.next_event(&mut chunk[at..]) {
        at += taken;
        make_room(lines, output);
        lines.add(format, &head);
    }
    at
}

/// Adds the head that a call found, if it found one, to the lines.
#[tactic(none)]
fn list_head<W: Write>(
    found: Taken,
    part: &Part,
    lines: &mut HeadLines,
    output: &mut Output<W>,
    format: Format,
)
    ensures { ListsMore format output.old output.new lines.old lines.new (heads_in found part.now) }
{
    if let Taken::Part = found {
        if part.begins {
            make_room(lines, output);
            lines.add(format, &part.head);
        }
    }
}

/// Prints the lines that are held if there is no room for another.
#[inline(always)]
fn make_room<W: Write>(lines: &mut HeadLines, output: &mut Output<W>)
    ensures held { PrintsHeld output.old output.new lines.old lines.new }
    ensures room { length lines.new + 142 ≤ 4096 }
{
    if lines.is_full() {
        print_lines(lines, output);
    }
}

/// Prints the lines that are held, if no write has failed, and removes them.
#[inline(never)]
fn print_lines<W: Write>(lines: &mut HeadLines, output: &mut Output<W>)
    ensures printed { PrintsMore output.old output.new lines.old }
    ensures none_held { lines.new ≡ [] }
{
    print_text(output, lines.text());
    lines.clear();
}

/// Prints a text if no write has failed.
#[tactic(none)]
fn print_text<W: Write>(output: &mut Output<W>, text: &[u8])
    ensures { PrintsMore output.old output.new text.now }
{
    if !output.failed() {
        let _stop = put_line(output, text);
    }
}
