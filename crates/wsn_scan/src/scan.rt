mod after_close;
mod events;
mod feeding;
mod following;
mod heads;
mod parts;
mod verdicts;

use crate::part::{Part, Taken};
use crate::stage::Stage;
use std::fmt::{self, Debug, Formatter};
use wsn_frame::{Counts, FrameContext};
use wsn_rules::{Limits, Refusal};
use wsn_wire::Role;

/// Scans a stream that comes in chunks: takes it apart into its frames, and gives the verdict on the bytes so far (RFC
/// 6455 section 5). It keeps none of the bytes.
#[derive(Drop)]
pub struct Scan {
    context: FrameContext,
    room: u64,
    used: u64,
    counts: Counts,
    stage: Stage,
}

impl Scan {
    ghost use Rattle.std.specs.Prelude.{◌≡◌, ◌≢◌, ◌+◌, ◌≤◌, ◌⊎◌, ◌↔◌, [], length, take, drop, true, IfSome, IsSome};
    ghost use Rattle.wsn_scan.specs.Scans.{HasScanned, room_of, taken_of, refusal_in, IsAdvance, Unmasks, HasNoRest};
    ghost use Rattle.wsn_scan.specs.Positions.{BetweenFrames};

    /// A scan that has consumed nothing. `role` is the endpoint that sent the stream.
    #[tactic(none)]
    pub fn new(role: Role, limits: Limits) -> Scan
        ensures { HasScanned role limits result [] [] [] BetweenFrames }
    {
        Scan {
            room: limits.input(),
            context: FrameContext {
                role,
                limits,
                message: None,
            },
            used: 0,
            counts: Counts::new(),
            stage: Stage::Between,
        }
    }

    /// How many more bytes the scan accepts: the input limit less the bytes consumed.
    #[tactic(none)]
    pub fn room(&self) -> u64
        ensures { result ≡ room_of self.now }
    {
        self.room
    }

    /// The refusal that it has reported, if there is one.
    #[tactic(none)]
    pub fn refusal(&self) -> Option<Refusal>
        ensures { result ≡ refusal_in self.now }
    {
        match self.stage {
            Stage::Refused(refusal) => Some(refusal),
            _ => None,
        }
    }

    /// How many bytes it has consumed.
    #[tactic(none)]
    fn taken(&self) -> u64
        ensures { result ≡ taken_of self.now }
    {
        self.context.limits.input().saturating_sub(self.room)
    }

    /// Consumes bytes at the start of the chunk, and returns how many and what they are. `chunk` is at most
    /// [`room`](Scan::room) bytes long. A part of a frame is put into `part`: all that the chunk has of the frame. Its
    /// payload is unmasked in place (RFC 6455 section 5.3); no other bytes change. If the chunk isn't empty, the scan
    /// consumes at least a byte of it, unless the stream was refused before.
    ///
    /// A refusal is reported by the call that consumes the offending byte, and again by each later call, which consumes
    /// nothing. If the offending byte is in a frame's payload, the frame's head is reported, and of its payload what came
    /// in earlier chunks; if it is in the head, neither is.
    #[inline(always)]
    #[tactic(none)]
    pub fn next(&mut self, chunk: &mut [u8], part: &mut Part) -> (usize, Taken)
        requires { length chunk.old ≤ room_of self.old }
        ensures taken { IsAdvance (record {
          before = self.old;
          after = self.new;
          chunk = chunk.old;
          chunk_after = chunk.new;
          count = result.0;
          found = result.1;
          part = part.new;
        }) }
        ensures within { result.0 ≤ length chunk.old }
        ensures kept { drop result.0 chunk.new ≡ drop result.0 chunk.old }
        ensures head { result.1 ≡ Taken.Part → (part.new.start ≤ result.0)
            × (take part.new.start chunk.new ≡ take part.new.start chunk.old) }
        ensures untouched { result.1 ≢ Taken.Part → result.1 ≢ Taken.Refused → chunk.new ≡ chunk.old }
        ensures whole { result.1 ≡ Taken.Part → part.new.ends ≡ true → HasNoRest self.new }
        ensures refused { result.1 ≡ Taken.Refused → Unmasks self.old.stage self.old chunk.old chunk.new result.0 }
        ensures room { room_of self.new + result.0 ≡ room_of self.old }
        ensures reported { IsSome (refusal_in self.new) ↔ (result.1 ≡ Taken.Refused) }
        ensures again { IfSome (refusal_in self.old) (λ _. (self.new ≡ self.old) × (chunk.new ≡ chunk.old)
            × (result.0 ≡ 0) × (result.1 ≡ Taken.Refused)) }
    {
        if let Some(taken) = self.take_frame(chunk, part) {
            return (taken, Taken::Part);
        }
        let mut other = Part::new();
        let (taken, found) = self.next_slow(chunk, &mut other);
        *part = other;
        (taken, found)
    }
}

/// Prints only the type's name.
impl Debug for Scan {
    fn fmt<W: fmt::Write>(&self, f: &mut Formatter<W>) -> fmt::Result {
        f.write_str("Scan { .. }")
    }
}
