//! What comes after a Close: a tail, which is counted and not checked (RFC 6455 section 5.5.1).

use super::Scan;
use crate::part::Taken;
use wsn_rules::Verdict;

impl Scan {
    ghost use Rattle.std.specs.Prelude.{◌≡◌, ◌-◌, ◌≤◌, length, Some};
    ghost use Rattle.wsn_scan.specs.Scans.{room_of, taken_of, summary_of};

    /// Takes the chunk as bytes of the tail.
    #[tactic(none)]
    pub(super) fn count_tail(&mut self, chunk: &[u8]) -> (usize, Taken)
        requires { length chunk.now ≤ room_of self.old }
        ensures whole { (result.0 ≡ length chunk.now) × (result.1 ≡ Taken.Closed) }
        ensures after { self.new ≡ record self.old { room = self.old.room - length chunk.now } }
    {
        self.room -= chunk.len() as u64;
        (chunk.len(), Taken::Closed)
    }

    /// The verdict after a Close: accepted, and the bytes after it are the tail.
    #[tactic(none)]
    pub(super) fn closed(&self, code: Option<u16>) -> Verdict
        ensures { result ≡ Verdict.Accepted (summary_of self.now self.now.used (taken_of self.now - self.now.used)
            (Some code)) }
    {
        let tail = self.taken().saturating_sub(self.used);
        Verdict::Accepted(self.summary(self.used, tail, Some(code)))
    }
}
