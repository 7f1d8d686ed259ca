ghost use Rattle.std.specs.Prelude.{◌≡◌, ℕ, ◌-◌, ◌≤◌, ◌⊎◌, ◌↔◌, List, [], ◌∷◌, ◌++◌, true, false};
ghost use Rattle.wsn_redact.specs.StandIns.{single_stand_in};

use crate::stand_ins::{Due, single};
use wsn_frame::unmask;
use wsn_scan::Part;
use wsn_text::Utf8;
use wsn_wire::{Op, Reason};

/// Redacts the payloads of a stream's frames in place, part by part. It keeps what is due of a stand-in, and no payload.
#[derive(Drop)]
pub struct Redactor {
    /// What is due in the open message's text, or in a Close's reason.
    due: Due,
    /// The open message is a text.
    text: bool,
    /// A Close's reason so far.
    reason: Utf8,
    /// A frame's payload is coming.
    inside: bool,
    /// That frame's opcode and key.
    op: Op,
    key: Option<[u8; 4]>,
    /// How many bytes of its payload have come.
    done: u64,
}

impl Redactor {
    ghost use Rattle.std.specs.Prelude.{◌≡◌, ℕ, ◌+◌, ◌<◌, ◌^◌, List, [], length, true, false, not, IsTrue, if◌then◌else◌};
    ghost use Rattle.wsn_frame.specs.Payloads.{unmasked_by};
    ghost use Rattle.wsn_text.specs.Utf8.{BeginsText};
    ghost use Rattle.wsn_text.specs.Validated.{HasValidated};
    ghost use Rattle.wsn_redact.specs.RedactedParts.{IsBegunWith, Replaces, IsBadReason, TakesPart, RefusesPart, KeepsAt};
    ghost use Rattle.wsn_scan.specs.Positions.{BetweenFrames};

    /// No part has come.
    pub fn new() -> Redactor
        ensures keeps { KeepsAt result [] BetweenFrames }
        ensures none { result.done ≡ 0 }
    {
        Redactor {
            due: Due::new(),
            text: false,
            reason: Utf8::new(),
            inside: false,
            op: Op::Continue,
            key: None,
            done: 0,
        }
    }

    /// Takes a part of a frame. Its payload, which is unmasked, becomes what is written for it, masked.
    pub fn take(&mut self, part: &Part, payload: &mut [u8])
        requires { (if part.now.begins then 0 else self.old.done) + length payload.old < 2 ^ 64 }
        ensures { TakesPart self.old self.new part.now payload.old payload.new }
    {
        if part.begins {
            self.begin(part.head.op);
        }
        self.replace(part.head.op, payload);
        unmask(part.head.key, self.done, payload);
        self.done += payload.len() as u64;
        self.op = part.head.op;
        self.key = part.head.key;
        self.inside = !part.ends;
    }

    /// Takes the bytes up to an offending byte, with it. In a payload, which is unmasked, they become what is written for
    /// them, masked; in a head they stay.
    pub fn refuse(&mut self, reason: Reason, bytes: &mut [u8])
        requires { self.old.done + length bytes.old < 2 ^ 64 }
        ensures outside { self.old.inside ≡ false → bytes.new ≡ bytes.old }
        ensures inside { self.old.inside ≡ true → RefusesPart self.old reason bytes.old bytes.new }
    {
        if self.inside {
            self.refuse_payload(reason, bytes);
        }
    }

    /// The same in a payload.
    fn refuse_payload(&mut self, reason: Reason, bytes: &mut [u8])
        requires { self.old.done + length bytes.old < 2 ^ 64 }
        ensures { RefusesPart self.old reason bytes.old bytes.new }
    {
        let Some(end) = bytes.len().checked_sub(1) else {
            return;
        };
        let last = bytes[end];
        let bad = self.replace(self.op, bytes);
        replace_last(bytes, goes_wrong(bad, reason), last);
        unmask(self.key, self.done, bytes);
    }

    /// Begins a frame with this opcode.
    fn begin(&mut self, op: Op)
        ensures { IsBegunWith self.old self.new op }
    {
        self.done = 0;
        match op {
            Op::Text => {
                self.text = true;
                self.due = Due::new();
            }
            Op::Binary => self.text = false,
            Op::Close => {
                self.due = Due::new();
                self.reason = Utf8::new();
            }
            Op::Continue | Op::Ping | Op::Pong => {}
        }
    }

    /// Replaces a part of the payload of a frame with this opcode. Returns whether a Close's reason has gone wrong.
    fn replace(&mut self, op: Op, payload: &mut [u8]) -> bool
        ensures replaces { Replaces self.old self.new op payload.old payload.new }
        ensures bad { IsBadReason self.old op payload.old result }
    {
        match op {
            Op::Close => return self.replace_body(payload),
            Op::Ping | Op::Pong => payload.fill(0),
            Op::Continue | Op::Text | Op::Binary => self.replace_data(payload),
        }
        false
    }

    /// Replaces a part of a message's payload.
    fn replace_data(&mut self, payload: &mut [u8])
        ensures { Replaces self.old self.new Op.Binary payload.old payload.new }
    {
        if self.text {
            self.due.replace(payload);
        } else {
            payload.fill(0);
        }
    }

    /// Replaces a part of a Close's body. Returns whether its reason has gone wrong.
    fn replace_body(&mut self, payload: &mut [u8]) -> bool
        ensures replaces { Replaces self.old self.new Op.Close payload.old payload.new }
        ensures bad { IsBadReason self.old Op.Close payload.old result }
    {
        let code = code_count(self.done, payload.len());
        let reason = &mut payload[code..];
        let bad = self.reason.feed(reason).is_err();
        self.due.replace(reason);
        bad
    }
}

/// How many of the next bytes of a Close's body are of its code, if `done` bytes of the body have come.
fn code_count(done: u64, len: usize) -> usize
    ensures within { result ≤ len }
    ensures count { (result ≡ 2 - done) ⊎ ((result ≡ len) × (len ≤ 2 - done)) }
{
    let left = 2u64.saturating_sub(done);
    if left < len as u64 {
        left as usize
    } else {
        len
    }
}

/// Whether a text goes wrong at the offending byte.
fn goes_wrong(bad: bool, reason: Reason) -> bool
    ensures { result ≡ true ↔ (bad ≡ true) ⊎ (reason ≡ Reason.TextBad) }
{
    if bad {
        return true;
    }
    matches!(reason, Reason::TextBad)
}

/// Puts the offending byte in its place, if the text goes wrong there.
fn replace_last(bytes: &mut [u8], wrong: bool, last: u8)
    ensures wrong { wrong ≡ true → (front : List ℕ) (b : ℕ) → bytes.old ≡ front ++ b ∷ [] →
        bytes.new ≡ front ++ single_stand_in last ∷ [] }
    ensures right { wrong ≡ false → bytes.new ≡ bytes.old }
{
    if wrong {
        if let Some(end) = bytes.len().checked_sub(1) {
            bytes[end] = single(last);
        }
    }
}
