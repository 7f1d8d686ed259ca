ghost use Rattle.std.specs.Prelude.{◌≡◌, ℕ, List, Result, Some, Err, ◌↔◌, false, true};
ghost use Rattle.wsn_capture.specs.declared.capture_report.CaptureReport.{CaptureReport};
ghost use Rattle.wsn_capture.specs.declared.capture_stop.CaptureStop.{CaptureStop};
ghost use Rattle.wsn_capture.specs.CaptureAnswers.{IsCaptureAnswerOf, IsCaptureJudged, without_tails};

use crate::capture_report::CaptureReport;
use crate::capture_stop::CaptureStop;
use crate::line_splitter::LineSplitter;
use std::io::Read;
use wsn_io::Input;
use wsn_rules::{Limits, Report};
use wsn_scan::CHUNK;

/// Reads a capture's text to its end and returns the report of its lines, as [`read_capture`] does, and that alone.
#[tactic(none)]
pub fn judge_capture<R: Read>(input: &mut Input<R>, limits: Limits) -> Result<Report, CaptureStop>
    requires { input.old.failed ≡ false }
    ensures judged { (read : Result CaptureReport CaptureStop) × (result ≡ without_tails read)
        × IsCaptureJudged limits input.old input.new read }
    ensures whole { (all : List ℕ) → input.old.remaining ≡ Some all → input.new.failed ≡ false →
        (read : Result CaptureReport CaptureStop) × (result ≡ without_tails read) × IsCaptureAnswerOf limits all read }
    ensures failed { (result ≡ Err CaptureStop.Read) ↔ (input.new.failed ≡ true) }
{
    match read_capture(input, limits) {
        Ok(CaptureReport { report, .. }) => Ok(report),
        Err(stop) => Err(stop),
    }
}

/// Reads a capture's text to its end and returns the report of its lines, how many bytes each endpoint sent after its
/// Close, and the lines with the offending bytes of refused streams. It reads chunks of at most [`CHUNK`] bytes. The
/// limits apply to each endpoint's stream separately.
///
/// The error `Line` is the first line that isn't accepted. It is returned once the line has ended or is too long
/// whatever follows, with at most 4,095 bytes read after that byte. `Read` is a read that failed; every line that was
/// complete by then is accepted.
#[tactic(none)]
pub fn read_capture<R: Read>(
    input: &mut Input<R>,
    limits: Limits,
) -> Result<CaptureReport, CaptureStop>
    requires { input.old.failed ≡ false }
    ensures judged { IsCaptureJudged limits input.old input.new result }
    ensures whole { (all : List ℕ) → input.old.remaining ≡ Some all → input.new.failed ≡ false →
        IsCaptureAnswerOf limits all result }
    ensures failed { (result ≡ Err CaptureStop.Read) ↔ (input.new.failed ≡ true) }
{
    let mut lines = LineSplitter::new(limits);
    let mut chunk = [0; CHUNK];
    loop {
        let Some(count) = input.read(&mut chunk) else {
            return Err(CaptureStop::Read);
        };
        if count == 0 {
            return lines.finish();
        }
        lines.take(&chunk[..count])?;
    }
}
