ghost use Rattle.std.specs.Prelude.{◌≡◌};

use crate::earlier_payload::EarlierPayload;
use crate::last_payload::LastPayload;
use crate::payload_bytes::PayloadBytes;
use wsn_print::ShownEvent;
use wsn_wire::Op;

/// The open message, if there is one (RFC 6455 section 5.4).
#[derive(Drop)]
pub struct MessageSoFar<'a> {
    /// The opcode of its first frame.
    pub op: Op,
    /// The offset of its first frame.
    pub offset: u64,
    /// The number of its frames that are complete; 0 if no message is open.
    pub frames: u64,
    /// The number of bytes of their payloads.
    pub bytes: u64,
    /// Their payloads, joined, and then that of the data frame that has begun.
    pub payload: PayloadBytes<'a>,
    /// The end of their payloads, joined.
    pub earlier: EarlierPayload,
    /// The last bytes of the same, with their offsets.
    pub last: LastPayload,
}

impl<'a> MessageSoFar<'a> {
    ghost use Rattle.std.specs.Prelude.{ℕ, ◌+◌, ◌<◌, ◌≤◌, ◌^◌, List, [], ◌∷◌, ◌++◌, length, take, min, true};
    ghost use Rattle.wsn_wire.specs.Frame.{Frame, stream};
    ghost use Rattle.wsn_rules.specs.declared.head_info.HeadInfo.{HeadInfo};
    ghost use Rattle.wsn_rules.specs.BadCharacter.{last_of};
    ghost use Rattle.wsn_rules.specs.Group.{unfinished, payload_of, is_data};
    ghost use Rattle.wsn_show.specs.StreamParts.{KeepsMessage, HasJoined};

    /// No message is open. The payload of a message is held in this memory.
    pub fn new(memory: &'a mut [u8]) -> MessageSoFar<'a>
        ensures { (n : ℕ) → n ≤ length memory.old → KeepsMessage n result [] [] }
    {
        MessageSoFar {
            op: Op::Text,
            offset: 0,
            frames: 0,
            bytes: 0,
            payload: PayloadBytes::new(memory),
            earlier: EarlierPayload::new(),
            last: LastPayload::new(),
        }
    }

    /// A data frame with this opcode begins at this offset.
    pub fn begin(&mut self, op: Op, offset: u64)
        ensures kept { (n : ℕ) (fs : List Frame) (part : List ℕ) → KeepsMessage n self.old fs part →
            KeepsMessage n self.new fs part }
        ensures joined { (n : ℕ) (fs : List Frame) (f : Frame) → f.op ≡ op → offset ≡ length (stream fs) →
            KeepsMessage n self.old fs [] → HasJoined self.new fs f }
    {
        if self.frames == 0 {
            self.op = op;
            self.offset = offset;
        }
    }

    /// More payload of the data frame that has begun comes.
    pub fn add(&mut self, payload: &[u8])
        ensures kept { (n : ℕ) (fs : List Frame) (part : List ℕ) →
            length (payload_of (unfinished fs) ++ part) + length payload.now < 2 ^ 64 → KeepsMessage n self.old fs part →
            KeepsMessage n self.new fs (part ++ payload.now) }
        ensures op { self.new.op ≡ self.old.op }
        ensures offset { self.new.offset ≡ self.old.offset }
    {
        self.payload.add(payload);
    }

    /// Its complete frames.
    pub fn complete_part(&self) -> ShownEvent<'_>
        ensures op { result.op ≡ self.now.op }
        ensures bytes { result.bytes ≡ self.now.bytes }
        ensures frames { result.frames ≡ self.now.frames }
        ensures held { result.held.now ≡ take (min self.now.bytes (length self.now.payload.held))
            self.now.payload.held }
    {
        let held = self.payload.held();
        let count = self.bytes.min(held.len() as u64) as usize;
        ShownEvent {
            op: self.op,
            bytes: self.bytes,
            frames: self.frames,
            held: &held[..count],
        }
    }

    /// Its complete frames, and the data frame that has begun.
    pub fn all_parts(&self) -> ShownEvent<'_>
        ensures op { result.op ≡ self.now.op }
        ensures bytes { result.bytes ≡ self.now.payload.count }
        ensures frames { self.now.frames + 1 < 2 ^ 64 → result.frames ≡ self.now.frames + 1 }
        ensures held { result.held.now ≡ self.now.payload.held }
    {
        ShownEvent {
            op: self.op,
            bytes: self.payload.count(),
            frames: self.frames.saturating_add(1),
            held: self.payload.held(),
        }
    }

    /// The data frame that has begun ends, with these last bytes of its payload, the last of them before this offset.
    #[tactic(none)]
    pub fn end(&mut self, final_frame: bool, last: &[u8], end: u64)
        ensures { (n : ℕ) (fs : List Frame) (f : Frame) → is_data f ≡ true → f.fin ≡ final_frame →
            last.now ≡ last_of 2048 f.payload → end ≡ length (stream (fs ++ f ∷ [])) →
            length (unfinished fs) + 1 < 2 ^ 64 → KeepsMessage n self.old fs f.payload → HasJoined self.old fs f →
            KeepsMessage n self.new (fs ++ f ∷ []) [] }
    {
        if final_frame {
            self.close();
        } else {
            self.frames = self.frames.saturating_add(1);
            self.bytes = self.payload.count();
            self.earlier.add(last);
            self.last.add(last, end);
        }
    }

    /// No message is open any more.
    fn close(&mut self)
        ensures { (n : ℕ) (fs : List Frame) → n ≤ self.old.payload.size → unfinished fs ≡ [] →
            KeepsMessage n self.new fs [] }
    {
        self.frames = 0;
        self.bytes = 0;
        self.payload.clear();
        self.earlier.clear();
        self.last.clear();
    }
}
