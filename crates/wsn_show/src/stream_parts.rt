ghost use Rattle.std.specs.Prelude.{◌≡◌};

use crate::first_bytes::FirstBytes;
use crate::last_bytes::LastBytes;
use crate::message_so_far::MessageSoFar;
use wsn_print::ShownEvent;
use wsn_rules::HeadInfo;
use wsn_wire::Op;

/// What is kept of a stream, to show what comes next: the open message, and the frame that has begun or comes next (RFC
/// 6455 sections 5.2 and 5.4).
#[derive(Drop)]
pub struct StreamParts<'a> {
    pub message: MessageSoFar<'a>,
    /// The offset of the frame's first byte.
    pub offset: u64,
    /// The number of its bytes so far.
    pub size: u64,
    /// Its head, once it is complete.
    pub head: Option<HeadInfo>,
    /// Its bytes so far, until its head is complete. After a Close this is the tail, after a refusal the bytes that aren't
    /// read.
    pub rest: FirstBytes,
    /// The last bytes of its payload so far, unmasked, if its head is complete; otherwise the last of its bytes so far.
    pub last: LastBytes,
}

impl<'a> StreamParts<'a> {
    ghost use Rattle.std.specs.Prelude.{ℕ, ◌+◌, ◌<◌, ◌≤◌, ◌^◌, List, [], ◌∷◌, ◌++◌, length};
    ghost use Rattle.wsn_wire.specs.Frame.{Frame, stream};
    ghost use Rattle.wsn_rules.specs.Group.{unfinished, payload_of};
    ghost use Rattle.wsn_rules.specs.Heads.{info_of};
    ghost use Rattle.wsn_scan.specs.Positions.{Position, BetweenFrames, InFrame};
    ghost use Rattle.wsn_show.specs.StreamParts.{KeepsMessage, KeepsFrame, KeepsStream};

    /// No byte has come. The payload of a message is held in this memory.
    pub fn new(memory: &'a mut [u8]) -> StreamParts<'a>
        ensures { (n : ℕ) → n ≤ length memory.old → KeepsStream n result [] BetweenFrames [] }
    {
        StreamParts {
            message: MessageSoFar::new(memory),
            offset: 0,
            size: 0,
            head: None,
            rest: FirstBytes::new(),
            last: LastBytes::new(),
        }
    }

    /// More bytes come between frames.
    pub fn add_bytes(&mut self, bytes: &[u8])
        ensures { (n : ℕ) (fs : List Frame) (rest : List ℕ) → length rest + length bytes.now < 2 ^ 64 →
            KeepsStream n self.old fs BetweenFrames rest → KeepsStream n self.new fs BetweenFrames (rest ++ bytes.now) }
    {
        self.size = self.size.saturating_add(bytes.len() as u64);
        self.rest.add(bytes);
        self.last.add(bytes);
    }

    /// The frame's head is complete.
    #[tactic(none)]
    pub fn begin(&mut self, head: HeadInfo)
        ensures { (n : ℕ) (fs : List Frame) (rest : List ℕ) → KeepsStream n self.old fs BetweenFrames rest →
            KeepsStream n self.new fs (InFrame head []) rest }
    {
        self.head = Some(head);
        self.rest.clear();
        self.last.clear();
        if !head.op.is_control() {
            self.message.begin(head.op, self.offset);
        }
    }

    /// More of the payload of the frame with this head comes, unmasked, with `size` more bytes.
    #[tactic(none)]
    pub fn add_payload(&mut self, head: &HeadInfo, payload: &[u8], size: usize)
        ensures { (n : ℕ) (fs : List Frame) (part rest share : List ℕ) → length share ≡ size →
            length rest + size < 2 ^ 64 → length (payload_of (unfinished fs)) + length part + length payload.now < 2 ^ 64 →
            KeepsStream n self.old fs (InFrame head.now part) rest →
            KeepsStream n self.new fs (InFrame head.now (part ++ payload.now)) (rest ++ share) }
    {
        self.size = self.size.saturating_add(size as u64);
        self.last.add(payload);
        if !head.op.is_control() {
            self.message.add(payload);
        }
    }

    /// The offset after the frame's bytes so far.
    #[tactic(none)]
    pub fn end_so_far(&self) -> u64
        ensures { self.now.offset + self.now.size < 2 ^ 64 → result ≡ self.now.offset + self.now.size }
    {
        self.offset.saturating_add(self.size)
    }

    /// The control with this opcode that has begun.
    pub fn control(&self, op: Op) -> ShownEvent<'_>
        ensures op { result.op ≡ op }
        ensures bytes { result.bytes ≡ self.now.last.count }
        ensures frames { result.frames ≡ 1 }
        ensures held { result.held.now ≡ self.now.last.held }
    {
        let payload = self.last.end();
        ShownEvent {
            op,
            bytes: payload.bytes,
            frames: 1,
            held: payload.held,
        }
    }

    /// The frame with this head ends.
    #[tactic(none)]
    pub fn end(&mut self, head: &HeadInfo)
        ensures { (n : ℕ) (fs : List Frame) (f : Frame) (rest : List ℕ) → head.now ≡ info_of (length (stream fs)) f →
            length (stream (fs ++ f ∷ [])) ≡ length (stream fs) + length rest →
            length (stream (fs ++ f ∷ [])) < 2 ^ 64 → length (unfinished fs) + 1 < 2 ^ 64 →
            KeepsStream n self.old fs (InFrame (info_of (length (stream fs)) f) f.payload) rest →
            KeepsStream n self.new (fs ++ f ∷ []) BetweenFrames [] }
    {
        if head.op.is_control() {
            self.next(0);
        } else {
            let end = self.end_so_far();
            self.message.end(head.fin, self.last.end().held, end);
            self.next(0);
        }
    }

    /// The frame ends with `size` more bytes, and another one comes next.
    pub fn next(&mut self, size: usize)
        ensures { (n : ℕ) (fs gs : List Frame) (at : Position) (rest : List ℕ) →
            length (stream gs) ≡ length (stream fs) + (length rest + size) → length (stream gs) < 2 ^ 64 →
            KeepsFrame self.old fs at rest → KeepsMessage n self.old.message gs [] →
            KeepsStream n self.new gs BetweenFrames [] }
    {
        self.offset = self
            .offset
            .saturating_add(self.size)
            .saturating_add(size as u64);
        self.size = 0;
        self.head = None;
        self.rest.clear();
        self.last.clear();
    }
}
