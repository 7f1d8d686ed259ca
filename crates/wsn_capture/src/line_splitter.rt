use crate::capture::Capture;
use crate::capture_report::CaptureReport;
use crate::capture_stop::CaptureStop;
use crate::lines::{BEGUN_MAX, Lines};
use wsn_rules::Limits;

/// Splits the chunks of a text into lines and passes each to a capture. It holds the line that isn't finished.
#[derive(Drop)]
pub struct LineSplitter {
    capture: Capture,
    begun: Lines,
}

impl LineSplitter {
    ghost use Rattle.std.specs.Prelude.{◌≡◌, ◌+◌, ◌<◌, ◌≤◌, ◌≢◌, ℕ, List, [], ◌∷◌, ◌++◌, length, take, OnOk, IfOk, IfErr};
    ghost use Rattle.wsn_rules.specs.Limits.{Limits};
    ghost use Rattle.wsn_rules.specs.TextLines.{IsLine};
    ghost use Rattle.wsn_capture.specs.Captures.{HasAcceptedLines};
    ghost use Rattle.wsn_capture.specs.CaptureLines.{count_of};
    ghost use Rattle.wsn_capture.specs.CaptureAnswers.{IsCaptureAnswerOf};
    ghost use Rattle.wsn_rules.specs.ClosingHandshake.{IsReport};
    ghost use Rattle.wsn_capture.specs.TailCounts.{AreTails};
    ghost use Rattle.wsn_capture.specs.RefusedLines.{AreRefusedLines};
    ghost use Rattle.wsn_capture.specs.LineSplitters.{HasSplit, IsStopAt, IsStopBy, IsStopWithin, bytes_ahead};

    /// A splitter of a text of no bytes.
    pub fn new(limits: Limits) -> LineSplitter
        ensures split { HasSplit limits result [] }
        ensures few { count_of result.capture.lines ≤ 1000000 }
        ensures short { length result.begun < BEGUN_MAX }
    {
        LineSplitter {
            capture: Capture::new(limits),
            begun: Lines::new(),
        }
    }

    /// Consumes a chunk. The error is returned at the first byte at which a line isn't accepted, whatever follows: the
    /// byte ends the line or makes it too long.
    pub fn take(&mut self, chunk: &[u8]) -> Result<(), CaptureStop>
        requires few { count_of self.old.capture.lines ≤ 1000000 }
        requires short { length self.old.begun < BEGUN_MAX }
        ensures split { OnOk result ((limits : Limits) (came : List ℕ) →
            HasSplit limits self.old came → HasSplit limits self.new (came ++ chunk.now)) }
        ensures stop { IfErr result (λ stop. (limits : Limits) (came : List ℕ) →
            HasSplit limits self.old came → IsStopWithin limits came chunk.now stop) }
        ensures few { OnOk result (count_of self.new.capture.lines ≤ 1000000) }
        ensures short { OnOk result (length self.new.begun < BEGUN_MAX) }
        ensures left { OnOk result (bytes_ahead self.new.capture.lines self.new.begun + length chunk.now
            ≤ bytes_ahead self.old.capture.lines self.old.begun) }
    {
        let mut taken = 0;
        while taken < chunk.len() {
            taken += self.take_prefix(&chunk[taken..])?;
        }
        Ok(())
    }

    /// Consumes a prefix of a chunk, to the end of a line or as much as one line may hold, and returns its length in
    /// bytes.
    fn take_prefix(&mut self, chunk: &[u8]) -> Result<usize, CaptureStop>
        requires some { 0 < length chunk.now }
        requires few { count_of self.old.capture.lines ≤ 1000000 }
        requires short { length self.old.begun < BEGUN_MAX }
        ensures within { IfOk result (λ count. (0 < count) × (count ≤ length chunk.now)) }
        ensures split { IfOk result (λ count. (limits : Limits) (came : List ℕ) →
            HasSplit limits self.old came → HasSplit limits self.new (came ++ take count chunk.now)) }
        ensures stop { IfErr result (λ stop. (limits : Limits) (came : List ℕ) →
            HasSplit limits self.old came → IsStopWithin limits came chunk.now stop) }
        ensures few { OnOk result (count_of self.new.capture.lines ≤ 1000000) }
        ensures short { OnOk result (length self.new.begun < BEGUN_MAX) }
        ensures left { IfOk result (λ count. bytes_ahead self.new.capture.lines self.new.begun + count
            ≤ bytes_ahead self.old.capture.lines self.old.begun) }
    {
        let (count, ended) = self.begun.take(chunk);
        if ended {
            self.end_line()?;
        }
        Ok(count)
    }

    /// Passes the line to the capture. An error has the line's number, counted from 1, and its fault.
    fn end_line(&mut self) -> Result<(), CaptureStop>
        requires few { count_of self.old.capture.lines ≤ 1000000 }
        ensures taken { OnOk result ((limits : Limits) (lines : List (List ℕ)) → HasAcceptedLines limits self.old.capture lines
            → HasAcceptedLines limits self.new.capture (lines ++ self.old.begun ∷ [])) }
        ensures stop { IfErr result (λ stop. (limits : Limits) (lines : List (List ℕ)) →
            HasAcceptedLines limits self.old.capture lines → IsStopAt limits lines self.old.begun stop) }
        ensures begun { OnOk result (self.new.begun ≡ []) }
        ensures count { OnOk result ((count_of self.new.capture.lines ≡ count_of self.old.capture.lines + 1)
            × (count_of self.new.capture.lines ≤ 1000000)) }
    {
        let number = self.capture.count() + 1;
        if let Err(fault) = self.capture.line(self.begun.line()) {
            return Err(CaptureStop::Line { number, fault });
        }
        self.begun.clear();
        Ok(())
    }

    /// The answer at the end of the text. The unfinished line is the last line, unless it is empty.
    #[tactic(none)]
    pub fn finish(mut self) -> Result<CaptureReport, CaptureStop>
        requires few { count_of self.capture.lines ≤ 1000000 }
        ensures { (limits : Limits) (came : List ℕ) → HasSplit limits self came → IsCaptureAnswerOf limits came result }
    {
        if self.begun.line().is_empty() {
            return Ok(self.report());
        }
        self.end_line()?;
        Ok(self.report())
    }

    /// What is known of the lines that have ended.
    fn report(&self) -> CaptureReport
        ensures report { (limits : Limits) (lines : List (List ℕ)) → HasAcceptedLines limits self.now.capture lines →
            IsReport limits lines result.report }
        ensures tails { (limits : Limits) (lines : List (List ℕ)) (has : HasAcceptedLines limits self.now.capture lines) →
            AreTails limits has.entries result.tails }
        ensures refused { (limits : Limits) (lines : List (List ℕ)) (has : HasAcceptedLines limits self.now.capture lines) →
            AreRefusedLines limits has.entries result.refused }
    {
        CaptureReport {
            report: self.capture.report(),
            tails: self.capture.tails(),
            refused: self.capture.refused_lines(),
        }
    }
}
