ghost use Rattle.std.specs.Prelude.{◌≡◌, ℕ, ◌+◌, ◌≤◌, ◌<◌, ◌^◌, List, length, drop, None, Some, IsSome, false, true};
ghost use Rattle.wsn_scan.specs.Scans.{refusal_in};
ghost use Rattle.wsn_redact.specs.RedactedParts.{IsRunningFor, RedactsOn, Rewrites};
ghost use Rattle.wsn_redact.specs.Redaction.{zeros_for};
ghost use Rattle.wsn_redact.specs.Redacting.{IsRedactedInput, IsRedactedWhole};

use crate::redacted_payload::Redactor;
use std::io::{Read, Write};
use wsn_io::{Input, Output, Stop, put_line};
use wsn_rules::{Limits, Refusal, Verdict};
use wsn_scan::{CHUNK, ChunkReader, Part, Scan, Taken};
use wsn_wire::Role;

/// Writes the redaction of a stream, as many bytes as it has, and returns its verdict. `role` is the endpoint that sent
/// the stream. It reads to the end, also after a refusal: what follows one becomes zeros.
///
/// Errors: `Read` if a read fails, and `InputLimit` if a byte past the input limit comes. With either, the redaction of
/// the bytes that came within the limit is written. `Write` if the writer fails: a prefix of it is written, and nothing
/// is read after it.
pub fn redact<R: Read, W: Write>(
    input: &mut Input<R>,
    output: &mut Output<W>,
    role: Role,
    limits: Limits,
) -> Result<Verdict, Stop>
    requires readable { input.old.failed ≡ false }
    requires writable { output.old.failed ≡ false }
    ensures redacted { IsRedactedInput role limits input.old input.new output.old output.new result }
    ensures whole { (all : List ℕ) → input.old.remaining ≡ Some all →
        IsRedactedWhole role limits all output.old output.new result }
{
    let mut scan = Scan::new(role, limits);
    let mut redactor = Redactor::new();
    let mut chunks = ChunkReader::new(limits);
    let mut buffer = [0; CHUNK];
    while let Some(len) = chunks.next(input, &mut buffer)? {
        let chunk = &mut buffer[..len];
        redact_chunk(&mut scan, &mut redactor, chunk);
        put_line(output, chunk)?;
    }
    Ok(scan.finish())
}

/// Redacts a chunk of a stream in place.
pub(crate) fn redact_chunk(scan: &mut Scan, redactor: &mut Redactor, chunk: &mut [u8])
    requires { IsRunningFor (length chunk.old) scan.old redactor.old }
    ensures { RedactsOn scan.old redactor.old scan.new redactor.new chunk.old chunk.new (length chunk.old) }
{
    let mut at = 0;
    while at < chunk.len() {
        at += redact_part(scan, redactor, &mut chunk[at..]);
    }
}

/// Redacts what the scan finds at the start of a chunk, in place, or all of it after a refusal. Returns the number of
/// bytes.
fn redact_part(scan: &mut Scan, redactor: &mut Redactor, chunk: &mut [u8]) -> usize
    requires begun { IsRunningFor (length chunk.old) scan.old redactor.old }
    requires some { 0 < length chunk.old }
    ensures within { result ≤ length chunk.old }
    ensures kept { drop result chunk.new ≡ drop result chunk.old }
    ensures progress { 0 < result }
    ensures redacts { RedactsOn scan.old redactor.old scan.new redactor.new chunk.old chunk.new result }
{
    if has_refused(scan) {
        clear(chunk);
        return chunk.len();
    }
    let mut part = Part::new();
    let (count, found) = scan.follow(chunk, &mut part);
    rewrite(redactor, scan.refusal(), found, &part, &mut chunk[..count]);
    count
}

/// Redacts in place what a call of the scan found in these bytes, which it consumed.
fn rewrite(
    redactor: &mut Redactor,
    refusal: Option<Refusal>,
    found: Taken,
    part: &Part,
    bytes: &mut [u8],
)
    requires start { found ≡ Taken.Part → part.now.start ≤ length bytes.old }
    requires small { redactor.old.done + length bytes.old < 2 ^ 64 }
    ensures { Rewrites redactor.old redactor.new refusal found part.now bytes.old bytes.new }
{
    match found {
        Taken::More => {}
        Taken::Closed => clear(bytes),
        Taken::Part => redactor.take(part, &mut bytes[part.start..]),
        Taken::Refused => {
            if let Some(refusal) = refusal {
                redactor.refuse(refusal.reason, bytes);
            }
        }
    }
}

/// Puts zeros in place of the bytes.
fn clear(bytes: &mut [u8])
    ensures { bytes.new ≡ zeros_for bytes.old }
{
    bytes.fill(0);
}

/// Whether the scan has refused.
fn has_refused(scan: &Scan) -> bool
    ensures refused { result ≡ true → IsSome (refusal_in scan.now) }
    ensures unrefused { result ≡ false → refusal_in scan.now ≡ None }
{
    scan.refusal().is_some()
}
