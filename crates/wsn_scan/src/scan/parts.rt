//! How a scan takes the payload of frames, part by part.
ghost use Rattle.std.specs.Prelude.{◌≡◌, ◌≢◌, ◌+◌, ◌≤◌, ◌↔◌, true, false, ℕ, Ok, List, [], ◌<◌, length, IsTrue};
ghost use Rattle.wsn_wire.specs.Frame.{Frame};
ghost use Rattle.wsn_wire.specs.ReceivedHead.{fin_bit};
ghost use Rattle.wsn_wire.specs.declared.refusal.Reason.{Reason};
ghost use Rattle.wsn_wire.specs.declared.refusal.Reason.TheVariants.{TextCut};
ghost use Rattle.wsn_rules.specs.Evidence.{EvidentByPayload};
ghost use Rattle.wsn_frame.specs.PayloadChecks.{HasChecked, IsChecked};
ghost use Rattle.wsn_frame.specs.declared.payload_check.PayloadCheck.{PayloadCheck};
ghost use Rattle.wsn_frame.specs.KeptMessages.{IsMessageAfter};

use super::Scan;
use crate::part::{Part, Taken};
use crate::stage::{Inside, Stage};
use wsn_frame::{Head, OpenMessage, PayloadCheck, message_after, unmask};
use wsn_rules::Refusal;
use wsn_wire::Reason;

impl Scan {
    ghost use Rattle.std.specs.Prelude.{◌≡◌, ◌≢◌, ◌+◌, ◌-◌, ◌<◌, ◌≤◌, ◌↔◌, true, None, length, take, IfSome, IfNone, IsTrue};
    ghost use Rattle.wsn_scan.specs.Scans.{AdvancesFrom, TakesPart, TakesFound, Unmasks, HasNoRest, TakesFirstPart, AddsPart, EndsFrame, IsCutAt, room_of, refusal_in, refusal_of};
    ghost use Rattle.wsn_frame.specs.PartialHeads.{info_at};

    /// Takes what the chunk has of a frame whose head ends at `start`, unless a byte is evidence for a refusal. Then
    /// nothing changes.
    #[inline(always)]
    #[tactic(none)]
    pub(super) fn begin(
        &mut self,
        message: &Option<OpenMessage>,
        start: usize,
        head: &Head,
        chunk: &mut [u8],
        part: &mut Part,
    ) -> Option<usize>
        requires fits { length chunk.old ≤ room_of self.old }
        requires open { message.now ≡ self.old.context.message }
        requires within { start ≤ length chunk.old }
        ensures taken { IfSome result (λ count.
            TakesFirstPart self.old self.new start head.now chunk.old chunk.new count part.new) }
        ensures part { IfSome result (λ count. TakesPart self.old self.new chunk.old chunk.new count part.new) }
        ensures start { IfSome result (λ _. part.new.start ≡ start) }
        ensures none { IfNone result ((self.new ≡ self.old) × (chunk.new ≡ chunk.old)) }
        ensures cut { IfNone result (head.now.len ≡ 0 → IsCutAt message.now head.now) }
    {
        let mut check = PayloadCheck::new(head.first, *message);
        let count = head.len.min((chunk.len() - start) as u64);
        let end = start + count as usize;
        unmask(head.key, 0, &mut chunk[start..end]);
        if !takes(
            &mut check,
            &chunk[start..end],
            head.first.fin,
            count == head.len,
        ) {
            unmask(head.key, 0, &mut chunk[start..end]);
            return None;
        }
        let inside = Inside {
            head: *head,
            check,
            done: count,
        };
        self.add_part(message, &inside, start, end, part);
        part.begins = true;
        Some(end)
    }

    /// Takes what the chunk has of the payload of a frame that began in an earlier one.
    #[tactic(none)]
    pub(super) fn next_payload(
        &mut self,
        inside: Inside,
        chunk: &mut [u8],
        part: &mut Part,
    ) -> (usize, Taken)
        requires { length chunk.old ≤ room_of self.old }
        ensures taken { AdvancesFrom (Stage.Payload inside) self.old self.new chunk.old chunk.new result.0 result.1 part.new }
        ensures found { TakesFound self.old self.new chunk.old chunk.new result.0 result.1 part.new }
        ensures untouched { result.1 ≢ Taken.Part → result.1 ≢ Taken.Refused → chunk.new ≡ chunk.old }
        ensures refused { result.1 ≡ Taken.Refused →
            Unmasks (Stage.Payload inside) self.old chunk.old chunk.new result.0 }
    {
        let Inside { head, check, done } = inside;
        let left = head.len.saturating_sub(done);
        let count = left.min(chunk.len() as u64) as usize;
        if count == 0 {
            self.stage = Stage::Payload(inside);
            return (0, Taken::More);
        }
        unmask(head.key, done, &mut chunk[..count]);
        match check.feed(&chunk[..count], head.first.fin, count as u64 == left) {
            Ok(check) => {
                let done = done + count as u64;
                let message = self.context.message;
                let inside = Inside { head, check, done };
                self.add_part(&message, &inside, 0, count, part);
                (count, Taken::Part)
            }
            Err(bad) => {
                let taken = bad.at.saturating_add(1).min(count);
                unmask(head.key, done + taken as u64, &mut chunk[taken..count]);
                self.refuse(taken, bad.reason)
            }
        }
    }

    /// Takes the first `end` bytes of a chunk as a part of a frame that doesn't begin it. The part's payload begins at
    /// `start`; `inside` is the frame with it. If all of the frame's payload came, the frame ends. `message` is the open
    /// message.
    #[inline(always)]
    #[tactic(none)]
    pub(super) fn add_part(
        &mut self,
        message: &Option<OpenMessage>,
        inside: &Inside,
        start: usize,
        end: usize,
        part: &mut Part,
    )
        requires fits { end ≤ room_of self.old }
        requires open { message.now ≡ self.old.context.message }
        ensures taken { AddsPart self.old self.new inside.now.head inside.now.check inside.now.done end part.new }
        ensures head { part.new.head ≡ info_at self.old.used inside.now.head }
        ensures begins { part.new.begins ≡ false }
        ensures ends { part.new.ends ≡ true ↔ (inside.now.done ≡ inside.now.head.len) }
        ensures start { part.new.start ≡ start }
        ensures whole { part.new.ends ≡ true → HasNoRest self.new }
        ensures room { room_of self.new + end ≡ room_of self.old }
        ensures reported { refusal_in self.new ≡ None }
    {
        let ends = inside.done == inside.head.len;
        part.head = inside.head.info(self.used);
        part.begins = false;
        part.ends = ends;
        part.start = start;
        self.room -= end as u64;
        if ends {
            self.end(message, &inside.head, &inside.check);
        } else {
            self.stage = Stage::Payload(*inside);
        }
    }

    /// Ends a frame: all of its payload came. `message` is the open message before it.
    #[inline(always)]
    #[tactic(none)]
    fn end(&mut self, message: &Option<OpenMessage>, head: &Head, check: &PayloadCheck)
        requires open { message.now ≡ self.old.context.message }
        ensures taken { EndsFrame self.old self.new head.now check.now }
        ensures whole { HasNoRest self.new }
        ensures room { room_of self.new ≡ room_of self.old }
        ensures reported { refusal_in self.new ≡ None }
    {
        self.used = self.taken();
        self.counts.add(head.first.fin, head.first.op);
        update(&mut self.context.message, message, head, check);
        self.stage.end_frame(check);
    }

    /// Refuses the stream: the last of these `count` bytes is the offending byte.
    #[tactic(none)]
    pub(super) fn refuse(&mut self, count: usize, reason: Reason) -> (usize, Taken)
        requires { count ≤ room_of self.old }
        ensures reported { (result.0 ≡ count) × (result.1 ≡ Taken.Refused) }
        ensures after { self.new ≡ record self.old {
          room = self.old.room - count;
          stage = Stage.Refused
              (refusal_of self.old count reason);
        } }
    {
        self.room -= count as u64;
        let refusal = Refusal {
            offset: self.taken().saturating_sub(1),
            reason,
        };
        self.stage = Stage::Refused(refusal);
        (count, Taken::Refused)
    }
}

/// Checks more of a payload, which is unmasked, in place, and returns whether no byte of it is evidence for a refusal.
/// `fin` is the frame's FIN; `ends` says whether the bytes end its payload: an empty payload can end a message within a
/// character, too (RFC 6455 section 8.1).
#[inline(always)]
#[tactic(none)]
fn takes(check: &mut PayloadCheck, payload: &[u8], fin: bool, ends: bool) -> bool
    ensures taken { result ≡ true → (group : List Frame) (first total : ℕ) (before : List ℕ) →
        HasChecked group first check.old before → fin_bit first ≡ fin
        → (ends ≡ true ↔ (length before + length payload.now ≡ total)) → length before + length payload.now ≤ total
        → IsChecked group first total before payload.now (Ok check.new) }
    ensures whole { result ≡ true → ends ≡ true → length payload.now ≡ 0 → (group : List Frame) (first : ℕ) →
        HasChecked group first check.old [] → fin_bit first ≡ fin
        → (reason : Reason) → EvidentByPayload group reason first 0 [] → ⊥ }
    ensures cut { result ≡ false → length payload.now ≡ 0 → (group : List Frame) (first : ℕ) →
        HasChecked group first check.old [] → fin_bit first ≡ fin → EvidentByPayload group TextCut first 0 []
        × ((reason : Reason) → reason ≢ TextCut → EvidentByPayload group reason first 0 [] → ⊥) }
{
    if payload.is_empty() {
        return !(ends && check.is_cut(fin));
    }
    check.take(payload, fin, ends)
}

/// Makes the open message that after a frame with this head, whose payload was checked with this result. `message` is a
/// copy of it, of which the compiler may know more.
#[inline(always)]
fn update(
    open_message: &mut Option<OpenMessage>,
    message: &Option<OpenMessage>,
    head: &Head,
    check: &PayloadCheck,
)
    requires { message.now ≡ open_message.old }
    ensures { IsMessageAfter open_message.old head.now check.now open_message.new }
{
    if !keeps_message(message, head) {
        *open_message = message_after(*message, head, check);
    }
}

/// Whether the same message, or none, is open after a frame with this head: after a control, and after a message of one
/// frame (RFC 6455 section 5.4).
#[inline(always)]
fn keeps_message(message: &Option<OpenMessage>, head: &Head) -> bool
    ensures { IsTrue result → (check : PayloadCheck) → IsMessageAfter message.now head.now check message.now }
{
    if head.first.op.is_control() {
        return true;
    }
    head.first.fin && message.is_none()
}
