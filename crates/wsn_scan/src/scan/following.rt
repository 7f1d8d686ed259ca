//! Following a stream's frames call by call.

use super::Scan;
use crate::part::{Part, Taken};

impl Scan {
    ghost use Rattle.std.specs.Prelude.{◌≡◌, ◌≤◌, drop, length, take, IfSome};
    ghost use Rattle.wsn_wire.specs.Frame.{IsBytes};
    ghost use Rattle.wsn_scan.specs.FollowedScans.{IsCall};
    ghost use Rattle.wsn_scan.specs.Scans.{room_of, refusal_in};

    /// Consumes bytes at the start of the chunk, and returns how many and what they are, as [`Scan::next`] does. `chunk` is
    /// at most [`room`](Scan::room) bytes long. The contract gathers in `IsCall` what a caller that follows the stream's
    /// frames needs of the call.
    #[inline(always)]
    pub fn follow(&mut self, chunk: &mut [u8], part: &mut Part) -> (usize, Taken)
        requires { length chunk.old ≤ room_of self.old }
        ensures in_bytes { IsBytes chunk.old }
        ensures call { IsBytes chunk.old → IsCall self.old self.new chunk.old chunk.new result.0 result.1 part.new }
        ensures kept { drop result.0 chunk.new ≡ drop result.0 chunk.old }
        ensures start { result.1 ≡ Taken.Part → part.new.start ≤ result.0 }
        ensures head { result.1 ≡ Taken.Part → take part.new.start chunk.new ≡ take part.new.start chunk.old }
        ensures again { IfSome (refusal_in self.old) (λ _. (self.new ≡ self.old) × (chunk.new ≡ chunk.old)
            × (result.0 ≡ 0) × (result.1 ≡ Taken.Refused)) }
    {
        self.next(chunk, part)
    }
}
