//! The verdict on the bytes that a scan has consumed.

use super::Scan;
use crate::stage::Stage;
use wsn_rules::{Summary, Verdict};

impl Scan {
    ghost use Rattle.std.specs.Prelude.{◌≡◌, ℕ, ◌++◌, List};
    ghost use Rattle.wsn_wire.specs.Frame.{Frame};
    ghost use Rattle.wsn_rules.specs.Heads.{AreHeads, heads_of};
    ghost use Rattle.wsn_scan.specs.Scans.{HasScanned, refusal_in, taken_of, summary_of, verdict_between, refusal_judged};
    ghost use Rattle.wsn_scan.specs.Positions.{Position, begun_at};
    ghost use Rattle.wsn_rules.specs.Verdict.{IsVerdict};

    /// The verdict on the bytes consumed so far, as if the input ended here (RFC 6455 sections 5 and 7).
    pub fn finish(&self) -> Verdict
        ensures verdict { (role : _) (limits : _) (bytes rest : List ℕ) (fs : List Frame) (at : Position) →
            HasScanned role limits self.now bytes fs rest at → IsVerdict role limits bytes fs result }
        ensures heads { (role : _) (limits : _) (bytes rest : List ℕ) (fs : List Frame) (at : Position) →
            HasScanned role limits self.now bytes fs rest at →
            AreHeads role limits bytes fs (heads_of fs ++ begun_at at) }
        ensures reported { refusal_judged result ≡ refusal_in self.now }
    {
        match &self.stage {
            Stage::Refused(refusal) => Verdict::Refused(*refusal),
            Stage::Closed(code) => self.closed(*code),
            Stage::Between => self.between(),
            Stage::Head(_) => self.cut(),
            Stage::Payload(_) => self.cut(),
        }
    }

    /// Between frames: accepted, or cut if a message is unfinished.
    #[tactic(none)]
    fn between(&self) -> Verdict
        ensures { result ≡ verdict_between self.now self.now.context.message }
    {
        let summary = self.summary(self.taken(), 0, None);
        match &self.context.message {
            None => Verdict::Accepted(summary),
            Some(_) => Verdict::Cut(summary),
        }
    }

    /// Within a frame: cut.
    fn cut(&self) -> Verdict
        ensures { result ≡ Verdict.Cut (summary_of self.now (taken_of self.now) 0 None) }
    {
        Verdict::Cut(self.summary(self.taken(), 0, None))
    }

    pub(super) fn summary(&self, used: u64, tail: u64, close: Option<Option<u16>>) -> Summary
        ensures { result ≡ summary_of self.now used tail close }
    {
        let unfinished = match &self.context.message {
            Some(message) => Some(message.size),
            None => None,
        };
        Summary {
            used,
            tail,
            unfinished,
            frames: self.counts.frames,
            messages: self.counts.messages,
            pings: self.counts.pings,
            pongs: self.counts.pongs,
            close,
        }
    }
}
