//! Feeding chunks to a scan for the verdict alone.

use super::Scan;
use crate::part::{Part, Taken};
use wsn_rules::Refusal;

impl Scan {
    ghost use Rattle.std.specs.Prelude.{◌≤◌, length};
    ghost use Rattle.wsn_scan.specs.Scans.{room_of};
    ghost use Rattle.wsn_scan.specs.Feeding.{IsRunning, HasFed};

    /// Consumes the chunk, all of it or the bytes up to a refusal, and returns the refusal, if there is one. `chunk` is
    /// at most [`room`](Scan::room) bytes long. Once a scan has refused, each call returns the same refusal. Payload is
    /// unmasked in place (RFC 6455 section 5.3), and keys may be zeros afterwards.
    #[tactic(none)]
    pub fn feed(&mut self, chunk: &mut [u8]) -> Option<Refusal>
        requires begun { IsRunning self.old }
        requires fits { length chunk.old ≤ room_of self.old }
        ensures { HasFed self.old self.new chunk.old result }
    {
        let mut part = Part::new();
        let mut at = 0;
        while at < chunk.len() {
            let (taken, found) = self.next(&mut chunk[at..], &mut part);
            at += taken;
            if let Taken::Refused = found {
                return self.refusal();
            }
            at += self.take_events(&mut chunk[at..]);
        }
        self.refusal()
    }
}
