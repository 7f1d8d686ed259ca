//! The items of a stream that are printed of what is kept of it: events, what is unfinished, and the bytes after a Close
//! or a refusal.

use crate::entry_context::EntryContext;
use crate::shown_item::{ShownItem, put_item};
use crate::stream_parts::StreamParts;
use std::io::Write;
use wsn_io::Output;
use wsn_print::{Remainder, ShownEvent};
use wsn_rules::{Detail, HeadInfo};
use wsn_wire::Op;

impl StreamParts<'_> {
    ghost use Rattle.std.specs.Prelude.{◌≡◌, ℕ, ◌+◌, ◌<◌, ◌^◌, List, [], ◌∷◌, ◌++◌, length, Some, if◌then◌else◌};
    ghost use Rattle.wsn_wire.specs.Frame.{Frame, stream};
    ghost use Rattle.wsn_wire.specs.declared.endpoint.Role.{Role};
    ghost use Rattle.wsn_rules.specs.Limits.{Limits};
    ghost use Rattle.wsn_rules.specs.Group.{unfinished};
    ghost use Rattle.wsn_rules.specs.Heads.{info_of};
    ghost use Rattle.wsn_rules.specs.Lawful.{IsLawful};
    ghost use Rattle.wsn_rules.specs.Summary.{is_close};
    ghost use Rattle.wsn_rules.specs.ShownStream.{open_items, interrupted, items_of_bytes};
    ghost use Rattle.wsn_print.specs.ShownParts.{item_of_remainder};
    ghost use Rattle.wsn_scan.specs.Positions.{Position, BetweenFrames, InFrame};
    ghost use Rattle.wsn_show.specs.HeldParts.{HasFirst};
    ghost use Rattle.wsn_show.specs.StreamParts.{KeepsMessage, KeepsStream, IsSoundPart, items_left};
    ghost use Rattle.wsn_show.specs.ShownItems.{Prints, IsEventOf, items_of_ended, items_of_end};

    /// Prints the open message, if there is one, as unfinished. Its last frame lacks this number of bytes, `None` if
    /// only a part of the next head has come.
    #[tactic(none)]
    pub fn put_open<W: Write>(
        &self,
        output: &mut Output<W>,
        context: &EntryContext<'_>,
        lacks: Option<u64>,
    )
        ensures { (role : Role) (limits : Limits) (fs : List Frame) (part : List ℕ) → IsLawful role limits fs →
            KeepsMessage context.now.style.view self.now.message fs part →
            Prints context.now output.old output.new (open_items fs lacks) }
    {
        if self.message.frames > 0 {
            let item = ShownItem::Unfinished(self.message.complete_part(), lacks);
            put_item(output, context, self.message.offset, &item);
        }
    }

    /// Before a Close, prints the message that it interrupts.
    #[tactic(none)]
    fn put_before_close<W: Write>(&self, output: &mut Output<W>, context: &EntryContext<'_>, op: Op)
        ensures { (role : Role) (limits : Limits) (fs : List Frame) (part : List ℕ) → IsLawful role limits fs →
            KeepsMessage context.now.style.view self.now.message fs part →
            Prints context.now output.old output.new (if is_close op then open_items fs (Some 0) else []) }
    {
        match op {
            Op::Close => self.put_open(output, context, Some(0)),
            _ => {}
        }
    }

    /// Prints the event at this offset, which a frame ends, if events are shown. A message that a Close interrupts comes
    /// first.
    #[tactic(none)]
    pub fn put_event<W: Write>(
        &self,
        output: &mut Output<W>,
        context: &EntryContext<'_>,
        offset: u64,
        event: &ShownEvent<'_>,
    )
        ensures { (role : Role) (limits : Limits) (fs : List Frame) (f : Frame) (part : List ℕ) →
            IsLawful role limits fs → KeepsMessage context.now.style.view self.now.message fs part →
            IsEventOf context.now.style.view fs f offset event.now →
            Prints context.now output.old output.new (items_of_ended context.now.style.detail fs f) }
    {
        match context.style.detail {
            Detail::Events => {
                self.put_before_close(output, context, event.op);
                put_item(output, context, offset, &ShownItem::Event(*event));
            }
            Detail::Frames => {}
        }
    }

    /// Prints what the frame with this head ends, if it is final and events are shown.
    #[tactic(none)]
    pub fn put_end<W: Write>(
        &self,
        output: &mut Output<W>,
        context: &EntryContext<'_>,
        head: &HeadInfo,
    )
        ensures { (role : Role) (limits : Limits) (fs : List Frame) (f : Frame) (rest : List ℕ) →
            IsLawful role limits (fs ++ f ∷ []) → head.now ≡ info_of (length (stream fs)) f →
            length (unfinished fs) + 1 < 2 ^ 64 →
            KeepsStream context.now.style.view self.now fs (InFrame (info_of (length (stream fs)) f) f.payload) rest →
            Prints context.now output.old output.new (items_of_end context.now.style.detail fs f) }
    {
        if !head.fin {
            return;
        }
        if head.op.is_control() {
            self.put_event(output, context, self.offset, &self.control(head.op));
        } else {
            let event = self.message.all_parts();
            self.put_event(output, context, self.message.offset, &event);
        }
    }

    /// Before a refusal, prints the message that it interrupts, if events are shown.
    #[tactic(none)]
    pub fn put_interrupted<W: Write>(&self, output: &mut Output<W>, context: &EntryContext<'_>)
        ensures { (role : Role) (limits : Limits) (fs : List Frame) (part : List ℕ) → IsLawful role limits fs →
            KeepsMessage context.now.style.view self.now.message fs part →
            Prints context.now output.old output.new (interrupted context.now.style.detail fs) }
    {
        match context.style.detail {
            Detail::Events => self.put_open(output, context, Some(0)),
            Detail::Frames => {}
        }
    }

    /// Prints what is left over where the stream ends, if it ends with these frames or inside the next one.
    #[tactic(none)]
    pub fn put_left<W: Write>(&self, output: &mut Output<W>, context: &EntryContext<'_>)
        ensures { (role : Role) (limits : Limits) (fs : List Frame) (at : Position) (rest : List ℕ) →
            IsLawful role limits fs → length (unfinished fs) + 1 < 2 ^ 64 → IsSoundPart fs at →
            KeepsStream context.now.style.view self.now fs at rest →
            Prints context.now output.old output.new (items_left fs at rest) }
    {
        match &self.head {
            Some(head) => self.put_part(output, context, head),
            None => self.put_head(output, context),
        }
    }

    /// Prints the frame with this head as unfinished.
    #[tactic(none)]
    fn put_part<W: Write>(
        &self,
        output: &mut Output<W>,
        context: &EntryContext<'_>,
        head: &HeadInfo,
    )
        ensures { (role : Role) (limits : Limits) (fs : List Frame) (part rest : List ℕ) → IsLawful role limits fs →
            length (unfinished fs) + 1 < 2 ^ 64 → IsSoundPart fs (InFrame head.now part) →
            KeepsStream context.now.style.view self.now fs (InFrame head.now part) rest →
            Prints context.now output.old output.new (items_left fs (InFrame head.now part) rest) }
    {
        let lacks = Some(head.len.saturating_sub(self.last.end().bytes));
        if head.op.is_control() {
            self.put_open(output, context, Some(0));
            let item = ShownItem::Unfinished(self.control(head.op), lacks);
            put_item(output, context, self.offset, &item);
        } else {
            let item = ShownItem::Unfinished(self.message.all_parts(), lacks);
            put_item(output, context, self.message.offset, &item);
        }
    }

    /// Prints what is left over if only a part of the next head has come, or nothing of it.
    #[tactic(none)]
    fn put_head<W: Write>(&self, output: &mut Output<W>, context: &EntryContext<'_>)
        ensures { (role : Role) (limits : Limits) (fs : List Frame) (rest : List ℕ) → IsLawful role limits fs →
            KeepsStream context.now.style.view self.now fs BetweenFrames rest →
            Prints context.now output.old output.new (items_left fs BetweenFrames rest) }
    {
        if self.size == 0 {
            self.put_open(output, context, Some(0));
        } else if self.message.frames > 0 {
            self.put_open(output, context, None);
        } else {
            put_item(output, context, self.offset, &ShownItem::UnfinishedHead);
        }
    }

    /// Prints the bytes that came after a Close or after a refusal, if there are any. `offset` is that of the first.
    #[tactic(none)]
    pub fn put_remainder<W: Write>(
        &self,
        output: &mut Output<W>,
        context: &EntryContext<'_>,
        which: Remainder,
        offset: u64,
    )
        ensures { (all : List ℕ) → HasFirst self.now.rest all →
            Prints context.now output.old output.new (items_of_bytes (item_of_remainder which) offset all) }
    {
        if self.rest.count() > 0 {
            let item = ShownItem::Remainder(which, self.rest.front());
            put_item(output, context, offset, &item);
        }
    }
}
