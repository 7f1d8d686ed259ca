//! Following a scan part by part.

ghost use Rattle.std.specs.Prelude.{◌≡◌, length};

use crate::entry_context::EntryContext;
use crate::last_payload::{HeldCharacter, shown_in};
use crate::shown_item::{ShownItem, put_begun, put_item};
use crate::stream_parts::StreamParts;
use std::io::Write;
use wsn_io::Output;
use wsn_print::ShownEvent;
use wsn_rules::{HeadInfo, Refusal};
use wsn_scan::Part;
use wsn_wire::{Op, Reason};

/// A part of a frame that the scan completed.
#[derive(Clone, Copy)]
pub struct TakenPart<'a> {
    pub part: &'a Part,
    /// Its payload, unmasked.
    pub payload: &'a [u8],
    /// The number of its bytes.
    pub size: usize,
}

impl StreamParts<'_> {
    ghost use Rattle.std.specs.Prelude.{◌≡◌, ℕ, ◌+◌, ◌<◌, ◌^◌, List, [], ◌∷◌, ◌++◌, true, length};
    ghost use Rattle.wsn_wire.specs.Frame.{Frame, stream};
    ghost use Rattle.wsn_wire.specs.declared.endpoint.Role.{Role};
    ghost use Rattle.wsn_wire.specs.declared.refusal.Reason.TheVariants.{TextBad};
    ghost use Rattle.wsn_rules.specs.Limits.{Limits};
    ghost use Rattle.wsn_rules.specs.Lawful.{IsLawful};
    ghost use Rattle.wsn_rules.specs.ShownStream.{interrupted};
    ghost use Rattle.wsn_rules.specs.ShownStream.Item.{RefusedFrame};
    ghost use Rattle.wsn_scan.specs.FollowedScans.{IsTaken};
    ghost use Rattle.wsn_scan.specs.Parts.{IsPartAt};
    ghost use Rattle.wsn_scan.specs.Positions.{Position, BetweenFrames, InFrame};
    ghost use Rattle.wsn_show.specs.HeldParts.{HasFirst};
    ghost use Rattle.wsn_show.specs.LastPayloads.{GoesWrongAt, character_at, character_held_in};
    ghost use Rattle.wsn_show.specs.StreamParts.{KeepsStream, held_at};
    ghost use Rattle.wsn_show.specs.ShownItems.{Prints};
    ghost use Rattle.wsn_show.specs.TakenParts.{IsAlone, ShowsPart};

    /// Takes a part of a frame, and prints what it completes.
    #[tactic(none)]
    pub fn take<W: Write>(
        &mut self,
        taken: &TakenPart<'_>,
        output: &mut Output<W>,
        context: &EntryContext<'_>,
    )
        ensures { (role : Role) (limits : Limits) (fs frames : List Frame) (at position : Position)
            (rest before share since : List ℕ) → length share ≡ taken.now.size → IsPartAt at taken.now.part.now before →
            IsTaken role limits fs rest before taken.now.part.now taken.now.payload.now share frames position since →
            KeepsStream context.now.style.view self.old fs at rest →
            ShowsPart fs at frames position since self.new context.now output.old output.new }
    {
        if taken.part.begins {
            self.take_first(taken, output, context);
        } else {
            self.take_more(taken, output, context);
        }
    }

    /// Takes a part that begins its frame. If it is all of the frame, and the frame is an event by itself, nothing of it
    /// is kept.
    #[tactic(none)]
    fn take_first<W: Write>(
        &mut self,
        taken: &TakenPart<'_>,
        output: &mut Output<W>,
        context: &EntryContext<'_>,
    )
        ensures { (role : Role) (limits : Limits) (fs frames : List Frame) (position : Position)
            (rest share since : List ℕ) → length share ≡ taken.now.size →
            IsTaken role limits fs rest [] taken.now.part.now taken.now.payload.now share frames position since →
            KeepsStream context.now.style.view self.old fs BetweenFrames rest →
            ShowsPart fs BetweenFrames frames position since self.new context.now output.old output.new }
    {
        let part = taken.part;
        put_begun(output, context, &part.head);
        if part.ends && self.is_event(&part.head) {
            let event = whole_event(part.head.op, taken.payload);
            self.put_event(output, context, part.head.offset, &event);
            self.next(taken.size);
        } else {
            self.begin(part.head);
            self.take_more(taken, output, context);
        }
    }

    /// Takes a part of the frame whose head is complete.
    #[tactic(none)]
    fn take_more<W: Write>(
        &mut self,
        taken: &TakenPart<'_>,
        output: &mut Output<W>,
        context: &EntryContext<'_>,
    )
        ensures { (role : Role) (limits : Limits) (fs frames : List Frame) (position : Position)
            (rest before share since : List ℕ) → length share ≡ taken.now.size →
            IsTaken role limits fs rest before taken.now.part.now taken.now.payload.now share frames position since →
            KeepsStream context.now.style.view self.old fs (InFrame taken.now.part.now.head before) rest →
            ShowsPart fs (InFrame taken.now.part.now.head before) frames position since self.new context.now output.old
            output.new }
    {
        let part = taken.part;
        self.add_payload(&part.head, taken.payload, taken.size);
        if part.ends {
            self.put_end(output, context, &part.head);
            self.end(&part.head);
        }
    }

    /// Whether the frame with this head, which comes next, is an event by itself.
    #[tactic(none)]
    fn is_event(&self, head: &HeadInfo) -> bool
        ensures { result ≡ true → IsAlone self.now.message head.now }
    {
        head.op.is_control() || (head.fin && self.message.frames == 0)
    }

    /// Prints the refusal of the frame at the last of these bytes, which are unmasked if they are payload, and before it the
    /// message that it interrupts. From now on the bytes aren't read.
    #[cold]
    #[inline(never)]
    #[tactic(none)]
    pub fn refuse<W: Write>(
        &mut self,
        refusal: &Refusal,
        bytes: &[u8],
        output: &mut Output<W>,
        context: &EntryContext<'_>,
    )
        ensures printed { (role : Role) (limits : Limits) (fs : List Frame) (at : Position) (rest : List ℕ) →
            IsLawful role limits fs → length (held_at at rest) + length bytes.now < 2 ^ 64 →
            GoesWrongAt refusal.now.reason fs at rest bytes.now →
            KeepsStream context.now.style.view self.old fs at rest →
            Prints context.now output.old output.new (interrupted context.now.style.detail fs
            ++ RefusedFrame (length (stream fs)) refusal.now (held_at at rest ++ bytes.now)
            (character_at refusal.now.reason fs at bytes.now) ∷ []) }
        ensures first { HasFirst self.new.rest [] }
    {
        self.put_interrupted(output, context);
        let character = self.bad_character(refusal.reason, bytes);
        self.last.add(bytes);
        let item = ShownItem::Refused(*refusal, self.last.end(), shown_in(&character));
        put_item(output, context, self.offset, &item);
        self.rest.clear();
    }

    /// The bad character, if a frame's text is refused for one at the last of these bytes.
    #[tactic(none)]
    fn bad_character(&mut self, reason: Reason, bytes: &[u8]) -> Option<HeldCharacter>
        ensures character { (n : ℕ) (fs : List Frame) (at : Position) (rest : List ℕ) →
            GoesWrongAt reason fs at rest bytes.now → KeepsStream n self.old fs at rest →
            character_held_in result ≡ character_at reason fs at bytes.now }
        ensures others { self.new ≡ record self.old { message = self.new.message } }
    {
        match reason {
            Reason::TextBad => self.character_in_frame(bytes),
            _ => None,
        }
    }

    /// The bad character, if a frame has begun, whose text goes wrong with the last of these bytes.
    #[tactic(none)]
    fn character_in_frame(&mut self, bytes: &[u8]) -> Option<HeldCharacter>
        ensures character { (n : ℕ) (fs : List Frame) (at : Position) (rest : List ℕ) →
            GoesWrongAt TextBad fs at rest bytes.now → KeepsStream n self.old fs at rest →
            character_held_in result ≡ character_at TextBad fs at bytes.now }
        ensures others { self.new ≡ record self.old { message = self.new.message } }
    {
        if self.head.is_none() {
            return None;
        }
        let size = bytes.len() as u64;
        let end = self.end_so_far();
        self.message.last.add(self.last.end().held, end);
        self.message.last.add(bytes, end.saturating_add(size));
        let count = self.message.payload.count().saturating_add(size);
        let earlier = self.message.earlier.end();
        Some(self.message.last.bad_character(count, earlier))
    }
}

/// The event that a whole frame with this opcode and this payload is by itself.
fn whole_event(op: Op, payload: &[u8]) -> ShownEvent<'_>
    ensures op { result.op ≡ op }
    ensures bytes { result.bytes ≡ length payload.now }
    ensures frames { result.frames ≡ 1 }
    ensures held { result.held.now ≡ payload.now }
{
    ShownEvent {
        op,
        bytes: payload.len() as u64,
        frames: 1,
        held: payload,
    }
}
