ghost use Rattle.std.specs.Prelude.{◌≡◌, ◌≤◌, ℕ, List, false, length};
ghost use Rattle.wsn_io.specs.Transfer.{Outgoing, IsWritten};
ghost use Rattle.wsn_wire.specs.declared.endpoint.Role.{Role};
ghost use Rattle.wsn_rules.specs.Limits.{Limits};
ghost use Rattle.wsn_rules.specs.Verdict.{IsUnrefused};
ghost use Rattle.wsn_parts.specs.Listing.{IsEnded};
ghost use Rattle.wsn_show.specs.ShownSoFar.{HasViewed};
ghost use Rattle.wsn_print.specs.declared.style.Style.{Style};
ghost use Rattle.wsn_show.specs.StreamShows.{IsItemText, IsStreamShown, EndsStream};

use crate::stream_view::StreamView;
use std::io::{Read, Write};
use wsn_io::{Input, Output, Stop};
use wsn_print::{Format, Origin, Style, put_verdict_as};
use wsn_rules::{Limits, Verdict};
use wsn_scan::{CHUNK, ChunkReader};
use wsn_wire::Role;

/// Shows the stream on the input, which one endpoint sent: prints each event with its last byte, or each frame with its
/// head's, then what is left over, and the verdict, which it returns (RFC 6455 sections 5 and 7). It reads
/// as [`wsn_scan::judge`] does: to the end, or up to a refusal. The payload of an open message is held in `memory`, which
/// has at least as many bytes as are shown of it.
///
/// Errors: `Read` if a read fails, and `InputLimit` if a byte past the input limit comes. With either, what is shown of
/// the bytes that came within the limit is printed, and no verdict. `Write` if the writer fails: a prefix of the lines is
/// written, and nothing is read after it.
#[tactic(none)]
pub fn show_stream<R: Read, W: Write>(
    input: &mut Input<R>,
    output: &mut Output<W>,
    role: Role,
    limits: Limits,
    style: Style,
    memory: &mut [u8],
) -> Result<Verdict, Stop>
    requires readable { input.old.failed ≡ false }
    requires writable { output.old.failed ≡ false }
    requires memory { style.view ≤ length memory.old }
    ensures { IsStreamShown role limits style input.old input.new output.old output.new result }
{
    let mut stream = StreamView::new(role, limits, style, memory);
    let mut chunks = ChunkReader::new(limits);
    let mut buffer = [0; CHUNK];
    while let Some(len) = chunks.next(input, &mut buffer)? {
        stream.take(&mut buffer[..len], Origin::Stream, output);
        if output.failed() {
            return Err(Stop::Write);
        }
        let verdict = stream.verdict();
        if let Verdict::Refused(_) = verdict {
            return put_answer(output, stream.style().format, verdict);
        }
    }
    end(&stream, output)
}

/// Prints what is left over where the stream ends, and the verdict, which it returns. `Write` if the
/// writer fails: a prefix of these lines is written.
#[tactic(none)]
fn end<W: Write>(stream: &StreamView<'_>, output: &mut Output<W>) -> Result<Verdict, Stop>
    requires { output.old.failed ≡ false }
    ensures { (role : Role) (limits : Limits) (style : Style) (came : List ℕ) (first : Outgoing) (text : List ℕ) →
        HasViewed role limits style stream.now came → IsUnrefused role limits came → IsItemText role limits style came text →
        IsWritten first output.old text → EndsStream role limits style came first output.new result }
{
    stream.put_left_over(Origin::Stream, output);
    if output.failed() {
        return Err(Stop::Write);
    }
    put_answer(output, stream.style().format, stream.verdict())
}

/// Prints the verdict and returns it. `Write` if the writer fails: a prefix of the line is written.
#[tactic(none)]
fn put_answer<W: Write>(
    output: &mut Output<W>,
    format: Format,
    verdict: Verdict,
) -> Result<Verdict, Stop>
    requires { output.old.failed ≡ false }
    ensures { IsEnded format output.old output.new verdict result }
{
    put_verdict_as(output, format, &verdict)?;
    Ok(verdict)
}
