ghost use Rattle.std.specs.Prelude.{◌≡◌, ◌<◌, ◌≤◌, ◌^◌, IfSome};
ghost use Rattle.wsn_wire.specs.Frame.{IsKey, head_bytes};
ghost use Rattle.wsn_parts.specs.EventsAt.{end_of as end_of_frame};
ghost use Rattle.wsn_parts.specs.Following.{is_judged as is_judged_byte};

use crate::answer::{EventStart, Payload};
use std::io::Write;
use wsn_io::{Output, Stop};
use wsn_rules::{HeadInfo, Verdict};
use wsn_scan::Part;
use wsn_wire::Op;

/// The event that begins at an offset, as the parts of frames come.
#[derive(Drop)]
pub struct EventAt {
    at: u64,
    /// The first frame of the open message, if one is open.
    message: EventStart,
    /// A frame has begun that belongs to the event.
    own: bool,
    /// The event has begun.
    begun: bool,
    /// The offset at which the next frame begins; `None` in a frame.
    next: Option<u64>,
}

impl EventAt {
    ghost use Rattle.std.specs.Prelude.{◌≡◌, ◌≢◌, ℕ, ◌∷◌, [], ◌++◌, ◌⊎◌, ◌<◌, List, length, IfErr, true, false, if◌then◌else◌};
    ghost use Rattle.wsn_io.specs.Stops.{IsWrittenOrStops};
    ghost use Rattle.wsn_wire.specs.Frame.{Frame, is_control, stream};
    ghost use Rattle.wsn_wire.specs.declared.endpoint.Role.{Role};
    ghost use Rattle.wsn_rules.specs.Heads.{info_of};
    ghost use Rattle.wsn_rules.specs.Lawful.{IsLawful};
    ghost use Rattle.wsn_rules.specs.Limits.{Limits};
    ghost use Rattle.wsn_scan.specs.Parts.{IsPartAt};
    ghost use Rattle.wsn_scan.specs.Positions.{Position, BetweenFrames, InFrame};
    ghost use Rattle.wsn_scan.specs.FollowedScans.{IsTaken};
    ghost use Rattle.wsn_parts.specs.Following.{KeepsEventAt, MayBegin, BeginsFrame, EndsFrame, TakesPart, own_part, ended_answer};

    /// No part has come.
    #[tactic(none)]
    pub fn new(at: u64) -> EventAt
        ensures { KeepsEventAt result at [] BetweenFrames [] }
    {
        EventAt {
            at,
            message: EventStart {
                op: Op::Continue,
                offset: 0,
            },
            own: false,
            begun: false,
            next: Some(0),
        }
    }

    /// Takes a part of a frame, and writes its payload if the frame belongs to the event. Returns the answer, if the
    /// event is complete, or if the offset is inside another one.
    #[tactic(none)]
    pub fn take<W: Write>(
        &mut self,
        part: &Part,
        payload: &[u8],
        output: &mut Output<W>,
    ) -> Result<Option<Payload>, Stop>
        requires { output.old.failed ≡ false }
        ensures { (role : Role) (limits : Limits) (at : ℕ) (fs frames : List Frame) (from position : Position)
            (rest before share since text : List ℕ) → MayBegin fs part.now.head → IsPartAt from part.now before →
            IsTaken role limits fs rest before part.now payload.now share frames position since →
            KeepsEventAt self.old at fs from text →
            TakesPart self.new at fs part.now.head frames position text output.old output.new result }
    {
        if part.begins {
            if let Some(start) = self.begin(&part.head) {
                return Ok(Some(Payload::Inside(start)));
            }
        }
        self.put(payload, output)?;
        if part.ends && self.end(&part.head) {
            return Ok(Some(Payload::Whole));
        }
        Ok(None)
    }

    /// Begins a frame. If the offset is in it and its event begins elsewhere, returns where.
    #[tactic(none)]
    fn begin(&mut self, head: &HeadInfo) -> Option<EventStart>
        ensures { (at : ℕ) (fs : List Frame) (text : List ℕ) → MayBegin fs head.now →
            KeepsEventAt self.old at fs BetweenFrames text → BeginsFrame self.new at fs head.now text result }
    {
        self.message = self.joined(head);
        let start = self.start_of(head);
        self.next = None;
        self.own = start.offset == self.at;
        if self.own {
            self.begun = true;
            return None;
        }
        if self.begun || self.at >= end_of(head) {
            return None;
        }
        Some(start)
    }

    /// The first frame of the open message, once a frame with this head has begun.
    fn joined(&self, head: &HeadInfo) -> EventStart
        ensures first { (head.now.op ≡ Op.Text) ⊎ (head.now.op ≡ Op.Binary) →
            (result.op ≡ head.now.op) × (result.offset ≡ head.now.offset) }
        ensures other { head.now.op ≢ Op.Text → head.now.op ≢ Op.Binary → result ≡ self.now.message }
    {
        match head.op {
            Op::Text | Op::Binary => start_at(head),
            _ => self.message,
        }
    }

    /// Where the event begins to which the frame belongs.
    fn start_of(&self, head: &HeadInfo) -> EventStart
        ensures op { result.op ≡ (if is_control head.now.op then head.now.op else self.now.message.op) }
        ensures offset { result.offset ≡ (if is_control head.now.op then head.now.offset else self.now.message.offset) }
    {
        if head.op.is_control() {
            start_at(head)
        } else {
            self.message
        }
    }

    /// Writes more payload of the frame that has begun, if it belongs to the event. `Write` if the writer fails: a
    /// prefix of it is written.
    #[tactic(none)]
    pub fn put<W: Write>(&self, payload: &[u8], output: &mut Output<W>) -> Result<(), Stop>
        requires { output.old.failed ≡ false }
        ensures written { IsWrittenOrStops output.old output.new (own_part self.now payload.now) result }
        ensures own { IfErr result (λ _. self.now.own ≡ true) }
    {
        if self.own && !output.put(payload) {
            return Err(Stop::Write);
        }
        Ok(())
    }

    /// Ends the frame, and returns whether that completes the event.
    #[tactic(none)]
    fn end(&mut self, head: &HeadInfo) -> bool
        ensures { (role : Role) (limits : Limits) (at : ℕ) (fs : List Frame) (f : Frame) (text : List ℕ) →
            head.now ≡ info_of (length (stream fs)) f → MayBegin fs head.now → IsLawful role limits (fs ++ f ∷ []) →
            KeepsEventAt self.old at fs (InFrame (info_of (length (stream fs)) f) f.payload) text →
            EndsFrame self.new at fs f text result }
    {
        let own = self.own;
        self.own = false;
        self.next = Some(end_of(head));
        own && head.fin
    }

    /// The answer where the stream has its verdict.
    pub fn ended(&self, verdict: Verdict) -> Payload
        ensures { result ≡ ended_answer self.now verdict }
    {
        if self.begun {
            return Payload::Unfinished(verdict);
        }
        match self.next {
            Some(offset) if is_judged(&verdict, self.at) => Payload::Head { offset, verdict },
            _ => Payload::Nothing(verdict),
        }
    }
}

/// The event that a frame with this head begins.
fn start_at(head: &HeadInfo) -> EventStart
    ensures op { result.op ≡ head.now.op }
    ensures offset { result.offset ≡ head.now.offset }
{
    EventStart {
        op: head.op,
        offset: head.offset,
    }
}

/// The offset at which a frame with this head ends.
fn end_of(head: &HeadInfo) -> u64
    ensures { head.now.offset ≤ 2 ^ 40 → head.now.len < 2 ^ 63 → IfSome head.now.key IsKey →
        result ≡ end_of_frame head.now }
{
    head.offset
        .saturating_add(head.size())
        .saturating_add(head.len)
}

/// Whether the verdict takes account of the byte at an offset: it is in a frame or in a head, and isn't after the
/// offending byte.
fn is_judged(verdict: &Verdict, at: u64) -> bool
    ensures { result ≡ is_judged_byte verdict.now at }
{
    match verdict {
        Verdict::Accepted(summary) | Verdict::Cut(summary) => at < summary.used,
        Verdict::Refused(refusal) => at <= refusal.offset,
    }
}
