//! How a scan reads heads, and takes what a chunk has of the frames that they begin.

use super::Scan;
use crate::part::{Part, Taken};
use crate::stage::{Inside, Stage};
use arrayvec::ArrayVec;
use std::mem;
use wsn_frame::{
    FrameContext, HEAD_MAX, Head, OpenMessage, Parsed, PayloadCheck, parse, whole_head,
};
use wsn_wire::{Op, Reason};

impl Scan {
    ghost use Rattle.std.specs.Prelude.{◌≡◌, ◌≢◌, ◌≤◌, length, IfSome, IfNone, IsTrue};
    ghost use Rattle.wsn_scan.specs.Scans.{AdvancesFrom, TakesPart, TakesFound, Unmasks, ContinuesHead, BeginsFrame, room_of, refusal_in};

    /// Takes what the chunk has of the frame at its start, if the scan is between frames, [`whole_head`] reads the frame's
    /// head, it is no Close, and no byte is evidence for a refusal. Otherwise nothing changes.
    #[inline(always)]
    #[tactic(none)]
    pub(super) fn take_frame(&mut self, chunk: &mut [u8], part: &mut Part) -> Option<usize>
        requires fits { length chunk.old ≤ room_of self.old }
        ensures taken { IfSome result (λ count.
            AdvancesFrom self.old.stage self.old self.new chunk.old chunk.new count Taken.Part part.new) }
        ensures part { IfSome result (λ count. TakesPart self.old self.new chunk.old chunk.new count part.new) }
        ensures between { IfSome result (λ _. self.old.stage ≡ Stage.Between) }
        ensures none { IfNone result ((self.new ≡ self.old) × (chunk.new ≡ chunk.old)) }
    {
        if !self.is_between() {
            return None;
        }
        // The compiler knows of the first copy that no message is open.
        match self.context.message {
            None => self.take_frame_after(&None, chunk, part),
            message => self.take_frame_within(&message, chunk, part),
        }
    }

    /// Does what [`take_frame_after`](Scan::take_frame_after) does; a message is open.
    #[inline(never)]
    fn take_frame_within(
        &mut self,
        message: &Option<OpenMessage>,
        chunk: &mut [u8],
        part: &mut Part,
    ) -> Option<usize>
        requires fits { length chunk.old ≤ room_of self.old }
        requires open { message.now ≡ self.old.context.message }
        ensures taken { IfSome result (λ count.
            AdvancesFrom Stage.Between self.old self.new chunk.old chunk.new count Taken.Part part.new) }
        ensures part { IfSome result (λ count. TakesPart self.old self.new chunk.old chunk.new count part.new) }
        ensures none { IfNone result ((self.new ≡ self.old) × (chunk.new ≡ chunk.old)) }
    {
        self.take_frame_after(message, chunk, part)
    }

    /// Whether it is between frames.
    #[inline(always)]
    fn is_between(&self) -> bool
        ensures { IsTrue result → self.now.stage ≡ Stage.Between }
    {
        matches!(self.stage, Stage::Between)
    }

    /// The same between frames; `message` is the open message.
    #[inline(always)]
    #[tactic(none)]
    fn take_frame_after(
        &mut self,
        message: &Option<OpenMessage>,
        chunk: &mut [u8],
        part: &mut Part,
    ) -> Option<usize>
        requires fits { length chunk.old ≤ room_of self.old }
        requires open { message.now ≡ self.old.context.message }
        ensures taken { IfSome result (λ count.
            AdvancesFrom Stage.Between self.old self.new chunk.old chunk.new count Taken.Part part.new) }
        ensures part { IfSome result (λ count. TakesPart self.old self.new chunk.old chunk.new count part.new) }
        ensures none { IfNone result ((self.new ≡ self.old) × (chunk.new ≡ chunk.old)) }
    {
        let context = FrameContext {
            message: *message,
            ..self.context
        };
        let (start, head) = whole_head(chunk, &context)?;
        if head.first.op == Op::Close {
            return None;
        }
        self.begin(message, start, &head, chunk, part)
    }

    /// Does what [`next`](Scan::next) does where no frame begins, where the chunk has fewer than 14 bytes, where a head
    /// has eight length bytes or is a Close's, and where a byte is evidence for a refusal.
    #[inline(never)]
    #[tactic(none)]
    pub(super) fn next_slow(&mut self, chunk: &mut [u8], part: &mut Part) -> (usize, Taken)
        requires { length chunk.old ≤ room_of self.old }
        ensures taken { AdvancesFrom self.old.stage self.old self.new chunk.old chunk.new result.0 result.1 part.new }
        ensures found { TakesFound self.old self.new chunk.old chunk.new result.0 result.1 part.new }
        ensures untouched { result.1 ≢ Taken.Part → result.1 ≢ Taken.Refused → chunk.new ≡ chunk.old }
        ensures refused { result.1 ≡ Taken.Refused → Unmasks self.old.stage self.old chunk.old chunk.new result.0 }
        ensures again { IfSome (refusal_in self.old) (λ _. (self.new ≡ self.old) × (chunk.new ≡ chunk.old)
            × (result.0 ≡ 0) × (result.1 ≡ Taken.Refused)) }
    {
        match &mut self.stage {
            Stage::Between if chunk.is_empty() => (0, Taken::More),
            Stage::Between => self.next_head(ArrayVec::new(), chunk, part),
            Stage::Head(begun) => {
                let begun = mem::replace(begun, ArrayVec::new());
                self.next_head(begun, chunk, part)
            }
            Stage::Payload(inside) => {
                let inside = *inside;
                self.next_payload(inside, chunk, part)
            }
            Stage::Closed(_) => self.count_tail(chunk),
            Stage::Refused(_) => (0, Taken::Refused),
        }
    }

    /// Reads a head, of which `begun` came before, and takes what the chunk has of its frame.
    #[tactic(none)]
    fn next_head(
        &mut self,
        mut begun: ArrayVec<u8, HEAD_MAX>,
        chunk: &mut [u8],
        part: &mut Part,
    ) -> (usize, Taken)
        requires { length chunk.old ≤ room_of self.old }
        ensures taken { ContinuesHead self.old self.new begun.items chunk.old chunk.new result.0 result.1 part.new }
        ensures found { TakesFound self.old self.new chunk.old chunk.new result.0 result.1 part.new }
        ensures untouched { result.1 ≢ Taken.Part → chunk.new ≡ chunk.old }
    {
        let before = begun.len();
        let came = chunk.len().min(begun.remaining_capacity());
        let _fits = begun.try_extend_from_slice(&chunk[..came]);
        match parse(&begun, &self.context) {
            Parsed::Incomplete => {
                self.room -= chunk.len() as u64;
                self.stage = Stage::Head(begun);
                (chunk.len(), Taken::More)
            }
            Parsed::Whole(size, head) => {
                self.begin_slow(size.saturating_sub(before), &head, chunk, part)
            }
            Parsed::Refused(size, reason) => self.refuse(size.saturating_sub(before), reason),
        }
    }

    /// Takes what the chunk has of a frame whose head ends at `start`. If a byte of its payload is evidence for a refusal,
    /// it takes the head alone.
    #[tactic(none)]
    fn begin_slow(
        &mut self,
        start: usize,
        head: &Head,
        chunk: &mut [u8],
        part: &mut Part,
    ) -> (usize, Taken)
        requires fits { length chunk.old ≤ room_of self.old }
        requires within { start ≤ length chunk.old }
        ensures taken { BeginsFrame self.old self.new start head.now chunk.old chunk.new result.0 result.1 part.new }
        ensures found { TakesFound self.old self.new chunk.old chunk.new result.0 result.1 part.new }
        ensures untouched { result.1 ≢ Taken.Part → chunk.new ≡ chunk.old }
    {
        let message = self.context.message;
        if let Some(taken) = self.begin(&message, start, head, chunk, part) {
            return (taken, Taken::Part);
        }
        if head.len == 0 {
            return self.refuse(start, Reason::TextCut);
        }
        let check = PayloadCheck::new(head.first, message);
        let inside = Inside {
            head: *head,
            check,
            done: 0,
        };
        self.add_part(&message, &inside, start, start, part);
        part.begins = true;
        (start, Taken::Part)
    }
}
