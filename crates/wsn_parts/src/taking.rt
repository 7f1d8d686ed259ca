ghost use Rattle.std.specs.Prelude.{◌≡◌, ℕ, ◌+◌, ◌≤◌, ◌<◌, List, Some, None, IfOk, IsNone, length, drop, false};
ghost use Rattle.wsn_io.specs.Transfer.{Outgoing};
ghost use Rattle.wsn_wire.specs.declared.endpoint.Role.{Role};
ghost use Rattle.wsn_rules.specs.Limits.{Limits};
ghost use Rattle.wsn_scan.specs.Scans.{room_of};
ghost use Rattle.wsn_parts.specs.Payloads.{IsPayloadTaken, IsPayloadOfAll};
ghost use Rattle.wsn_parts.specs.Following.{HasSought, IsSeeking, SeeksOn, SeeksThrough};

use crate::answer::Payload;
use crate::event_at::EventAt;
use std::io::{Read, Write};
use wsn_io::{Input, Output, Stop};
use wsn_rules::Limits;
use wsn_scan::{CHUNK, ChunkReader, Part, Scan, Taken};
use wsn_wire::Role;

/// Writes the payload of the event whose first frame begins at the offset `at`: of a message, ping, pong or Close,
/// unmasked and joined from its frames, as its bytes come (RFC 6455 sections 5.3 to 5.6). `role` is the endpoint that
/// sent the stream, and `at` counts its bytes from 0. It reads up to the answer.
///
/// Errors: `Read` if a read fails, and `InputLimit` if a byte past the input limit comes. With either, what came of the
/// payload within the limit is written. `Write` if the writer fails: a prefix of the payload is written, and nothing is
/// read after it.
pub fn payload<R: Read, W: Write>(
    input: &mut Input<R>,
    output: &mut Output<W>,
    role: Role,
    limits: Limits,
    at: u64,
) -> Result<Payload, Stop>
    requires readable { input.old.failed ≡ false }
    requires writable { output.old.failed ≡ false }
    ensures taken { IsPayloadTaken role limits at input.old input.new output.old output.new result }
    ensures whole { (all : List ℕ) → input.old.remaining ≡ Some all →
        IsPayloadOfAll role limits at all output.old output.new result }
{
    let mut scan = Scan::new(role, limits);
    let mut event = EventAt::new(at);
    let mut chunks = ChunkReader::new(limits);
    let mut buffer = [0; CHUNK];
    while let Some(len) = chunks.next(input, &mut buffer)? {
        if let Some(answer) = take_chunk(&mut scan, &mut event, &mut buffer[..len], output)? {
            return Ok(answer);
        }
    }
    Ok(event.ended(scan.finish()))
}

/// Takes all parts of frames in the chunk, up to an answer.
fn take_chunk<W: Write>(
    scan: &mut Scan,
    event: &mut EventAt,
    chunk: &mut [u8],
    output: &mut Output<W>,
) -> Result<Option<Payload>, Stop>
    requires begun { IsSeeking scan.old event.old output.old }
    requires fits { length chunk.old ≤ room_of scan.old }
    ensures { (role : Role) (limits : Limits) (at : ℕ) (came : List ℕ) (first : Outgoing) →
        HasSought role limits at scan.old event.old came first output.old →
        SeeksThrough role limits at scan.new event.new came chunk.old first output.new result }
{
    let mut at = 0;
    while at < chunk.len() {
        match take_part(scan, event, &mut chunk[at..], output)? {
            (_, Some(answer)) => return Ok(Some(answer)),
            (count, None) => at += count,
        }
    }
    Ok(None)
}

/// Calls the scan once and takes what it finds. Returns the number of bytes that it consumed, and the answer, if there is
/// one.
fn take_part<W: Write>(
    scan: &mut Scan,
    event: &mut EventAt,
    chunk: &mut [u8],
    output: &mut Output<W>,
) -> Result<(usize, Option<Payload>), Stop>
    requires fits { length chunk.old ≤ room_of scan.old }
    requires some { 0 < length chunk.old }
    requires writable { output.old.failed ≡ false }
    ensures within { IfOk result (λ step. step.0 ≤ length chunk.old) }
    ensures kept { IfOk result (λ step. drop step.0 chunk.new ≡ drop step.0 chunk.old) }
    ensures room { IfOk result (λ step. room_of scan.new + step.0 ≡ room_of scan.old) }
    ensures seeks { (role : Role) (limits : Limits) (at : ℕ) (came : List ℕ) (first : Outgoing) →
        HasSought role limits at scan.old event.old came first output.old →
        SeeksOn role limits at scan.new event.new came chunk.old first output.new result }
    ensures progress { IsSeeking scan.old event.old output.old →
        IfOk result (λ step. IsNone step.1 → 0 < step.0) }
{
    let mut part = Part::new();
    let (count, found) = scan.follow(chunk, &mut part);
    let bytes = &chunk[..count];
    let answer = match found {
        Taken::More | Taken::Closed => None,
        Taken::Part => event.take(&part, &bytes[part.start..], output)?,
        Taken::Refused => {
            event.put(bytes, output)?;
            Some(event.ended(scan.finish()))
        }
    };
    Ok((count, answer))
}
