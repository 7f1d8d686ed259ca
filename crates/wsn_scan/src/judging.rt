ghost use Rattle.std.specs.Prelude.{◌≡◌, ℕ, ◌<◌, List, Some, length, take, IfOk, Err, ◌↔◌, false, true};
ghost use Rattle.wsn_wire.specs.Frame.{Frame};
ghost use Rattle.wsn_scan.specs.Judging.{IsJudged};
ghost use Rattle.wsn_rules.specs.Verdict.{IsVerdict, IsUnrefused};

use crate::chunk_reader::{CHUNK, ChunkReader};
use crate::scan::Scan;
use std::io::Read;
use wsn_io::{Input, Stop};
use wsn_rules::{Limits, Verdict};
use wsn_wire::Role;

/// Reads an input to its verdict: to its end, or up to a refusal (RFC 6455 sections 5 and 7). `role` is the endpoint
/// that sent the stream. The input is read in chunks of at most 4,096 bytes, and at most one byte past the input limit.
///
/// Errors: `Read` exactly if a read fails; `InputLimit` if a byte past the input limit comes. With either error, the
/// bytes that came within the limit are not refused.
#[tactic(none)]
pub fn judge<R: Read>(input: &mut Input<R>, role: Role, limits: Limits) -> Result<Verdict, Stop>
    requires { input.old.failed ≡ false }
    ensures judged { IsJudged role limits input.old input.new result }
    ensures whole { IfOk result (λ verdict. (all : List ℕ) → input.old.remaining ≡ Some all →
        (fs : List Frame) × IsVerdict role limits all fs verdict) }
    ensures limit { (all : List ℕ) → input.old.remaining ≡ Some all → result ≡ Err Stop.InputLimit →
        (limits.input < length all) × IsUnrefused role limits (take limits.input all) }
    ensures failed { (result ≡ Err Stop.Read) ↔ (input.new.failed ≡ true) }
{
    let mut scan = Scan::new(role, limits);
    let mut chunks = ChunkReader::new(limits);
    let mut buffer = [0; CHUNK];
    while let Some(len) = chunks.next(input, &mut buffer)? {
        if let Some(refusal) = scan.feed(&mut buffer[..len]) {
            return Ok(Verdict::Refused(refusal));
        }
    }
    Ok(scan.finish())
}
