use crate::event::{Event, Small};
use crate::normal_form::op_of;
use std::alloc::Allocator;
use std::mem;
use wsn_scan::{CHUNK, Part};
use wsn_wire::{Kind, Op};

/// The open message so far, and the frame whose head came last.
#[derive(Drop)]
pub struct Reassembly<A: Allocator> {
    op: Op,
    /// The offset of that frame.
    frame_offset: u64,
    kind: Kind,
    message: Vec<u8, A>,
    /// The offset of the open message's first frame.
    start: u64,
    /// The number of the open message's frames, with the one that has begun.
    frames: u64,
    body: Small,
}

impl<A: Allocator + Copy> Reassembly<A> {
    ghost use Rattle.std.specs.Prelude.{◌≡◌, ◌≢◌, ℕ, ◌+◌, ◌<◌, ◌^◌, List, [], ◌∷◌, ◌++◌, true, false, length, IfSome, IfNone};
    ghost use Rattle.wsn_rules.specs.Group.{unfinished};
    ghost use Rattle.wsn_rules.specs.NormalForm.{op_of};
    ghost use Rattle.wsn_wire.specs.Frame.{stream, Frame, is_control};
    ghost use Rattle.wsn_wire.specs.declared.endpoint.Role.{Role};
    ghost use Rattle.wsn_rules.specs.Lawful.{IsLawful};
    ghost use Rattle.wsn_rules.specs.LawfulEvents.{IsLawfulControl};
    ghost use Rattle.wsn_scan.specs.Positions.{Position};
    ghost use Rattle.wsn_scan.specs.Parts.{IsPartAt};
    ghost use Rattle.wsn_events.specs.Reassembly.{IsReassembled, IsBetweenFrames, IsInFrame, IsEventOf, offset_given, frames_given, IsPlacedAt};

    /// Nothing has come yet.
    pub fn new(alloc: A) -> Self
        ensures { IsBetweenFrames result [] }
    {
        Reassembly {
            op: Op::Continue,
            frame_offset: 0,
            kind: Kind::Binary,
            message: Vec::new(alloc),
            start: 0,
            frames: 0,
            body: Small::new(),
        }
    }

    /// How many bytes of the open message came.
    pub fn held(&self) -> usize
        ensures { result ≡ length self.now.message.items }
    {
        self.message.len()
    }

    /// The offset of the first frame of the event that ended last.
    pub fn offset(&self) -> u64
        ensures { result ≡ offset_given self.now }
    {
        match self.op {
            Op::Continue => self.start,
            _ => self.frame_offset,
        }
    }

    /// The number of frames of the event that ended last.
    pub fn frames(&self) -> u64
        ensures { result ≡ frames_given self.now }
    {
        match self.op {
            Op::Continue => self.frames,
            _ => 1,
        }
    }

    /// Frees the open message.
    #[tactic(none)]
    pub fn release(&mut self)
        ensures { self.new.message.items ≡ [] }
    {
        self.message = Vec::new(*self.message.allocator());
    }

    /// Uses the room of a message that was given for the next one. It keeps at most [`CHUNK`] bytes of room so, and does
    /// nothing while bytes of an open message are held.
    pub fn reuse(&mut self, mut given: Vec<u8, A>)
        ensures same { self.new ≡ record self.old { message = self.new.message } }
        ensures held { self.new.message.items ≡ self.old.message.items }
    {
        if self.message.is_empty() && given.capacity() <= CHUNK {
            given.clear();
            self.message = given;
        }
    }

    /// Begins the part's frame, unless it has begun before.
    #[inline(always)]
    #[tactic(none)]
    pub fn begin(&mut self, part: &Part)
        ensures { (fs : List Frame) (at : Position) (before : List ℕ) → length (unfinished fs) + 1 < 2 ^ 64 →
            part.now.head.offset ≡ length (stream fs) → IsPartAt at part.now before →
            IsReassembled self.old fs at → IsInFrame self.new fs part.now.head.op before }
    {
        if part.begins {
            self.begin_frame(part.head.op, part.head.offset);
        }
    }

    /// Begins a frame with this opcode at this offset.
    #[inline(always)]
    #[tactic(none)]
    fn begin_frame(&mut self, op: Op, offset: u64)
        ensures { (fs : List Frame) → length (unfinished fs) + 1 < 2 ^ 64 → offset ≡ length (stream fs) →
            IsBetweenFrames self.old fs → IsInFrame self.new fs op [] }
    {
        self.op = op;
        self.frame_offset = offset;
        match op {
            Op::Text => self.begin_message(Kind::Text),
            Op::Binary => self.begin_message(Kind::Binary),
            Op::Continue => self.frames = self.frames.saturating_add(1),
            _ => self.body.clear(),
        }
    }

    /// Passes over a message of this kind, of one frame at this offset, whose payload its reader holds.
    #[inline(always)]
    pub fn pass_over(&mut self, kind: Kind, offset: u64)
        ensures { self.new ≡ record self.old { op = op_of kind; frame_offset = offset } }
    {
        self.op = op_of(kind);
        self.frame_offset = offset;
    }

    /// Begins a message with the frame that has begun.
    fn begin_message(&mut self, kind: Kind)
        ensures kind { self.new.kind ≡ kind }
        ensures begun { (self.new.start ≡ self.old.frame_offset) × (self.new.frames ≡ 1) }
        ensures same { (self.new.op ≡ self.old.op) × (self.new.frame_offset ≡ self.old.frame_offset)
            × (self.new.message ≡ self.old.message) × (self.new.body ≡ self.old.body) }
    {
        self.kind = kind;
        self.start = self.frame_offset;
        self.frames = 1;
    }

    /// Adds payload of the frame. Returns false if an allocation fails; only payload of a data frame allocates.
    #[tactic(none)]
    pub fn take(&mut self, payload: &[u8]) -> bool
        ensures taken { (fs : List Frame) (op : _) (before : List ℕ) → result ≡ true →
            IsInFrame self.old fs op before → IsInFrame self.new fs op (before ++ payload.now) }
        ensures refused { result ≡ false → (is_control self.old.op ≡ false) × (payload.now ≢ []) }
    {
        if payload.is_empty() {
            return true;
        }
        if self.op.is_control() {
            let _fits = self.body.try_extend_from_slice(payload);
            return true;
        }
        self.message.extend_from_slice(payload).is_ok()
    }

    /// A message in the room for the next one, where none is open. Returns `None` if an allocation fails; only a message
    /// that isn't empty allocates.
    pub fn copy(&mut self, text: &[u8]) -> Option<Vec<u8, A>>
        ensures copied { IfSome result (λ copy. copy.items ≡ self.old.message.items ++ text.now) }
        ensures same { self.new ≡ record self.old { message = self.new.message } }
        ensures held { IfSome result (λ _. self.new.message.items ≡ []) }
        ensures none { IfNone result (text.now ≢ []) }
    {
        if !text.is_empty() && self.message.extend_from_slice(text).is_err() {
            return None;
        }
        let next = Vec::new(*self.message.allocator());
        Some(mem::replace(&mut self.message, next))
    }

    /// Ends the frame. Returns the event that it ends, if it is final.
    #[tactic(none)]
    pub fn end(&mut self, final_frame: bool) -> Option<Event<A>>
        requires lawful { final_frame ≡ true → is_control self.old.op ≡ true →
            IsLawfulControl self.old.op self.old.body.items }
        ensures { (role : Role) (limits : _) (fs : List Frame) (f : Frame) → f.fin ≡ final_frame →
            IsLawful role limits (fs ++ f ∷ []) →
            IsInFrame self.old fs f.op f.payload → IsEventOf fs f result
            × IsBetweenFrames self.new (fs ++ f ∷ []) × IsPlacedAt self.new fs f }
    {
        if !final_frame {
            return None;
        }
        if self.op.is_control() {
            let body = mem::replace(&mut self.body, Small::new());
            return Some(Event::control(self.op, body));
        }
        let next = Vec::new(*self.message.allocator());
        let message = mem::replace(&mut self.message, next);
        Some(Event::Message(self.kind, message))
    }
}
