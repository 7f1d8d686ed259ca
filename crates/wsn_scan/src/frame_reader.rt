ghost use Rattle.std.specs.Prelude.{◌≡◌, ℕ, ◌+◌, ◌<◌, ◌≤◌, ◌↔◌, List, [], None, Ok, true, false, ◌∷◌, length, take, IfSome, IfNone, IsSome};
ghost use Rattle.std.specs.List.{slice_range};
ghost use Rattle.wsn_wire.specs.Frame.{Frame, IsBytes, first_byte};
ghost use Rattle.wsn_rules.specs.NormalForm.{op_of};
ghost use Rattle.wsn_scan.specs.Judging.{chunk_size};
ghost use Rattle.wsn_scan.specs.ChunkReaders.{chunks_ahead};
ghost use Rattle.wsn_scan.specs.Scans.{AdvancesFrom, HasNoRest, IsAdvance, room_of, refusal_in};
ghost use Rattle.wsn_scan.specs.EventFrames.{TakesEvents, IsIdle, whole_part};

use crate::chunk_reader::{CHUNK, ChunkReader};
use crate::part::{Part, Taken};
use crate::scan::Scan;
use std::io::Read;
use wsn_io::{Input, Stop};
use wsn_rules::{HeadInfo, Limits, Verdict};
use wsn_wire::{Kind, Role};

/// Reads an input and takes it apart into its frames as they come, and then gives the verdict (RFC 6455 section 5.2). It
/// holds at most [`CHUNK`] bytes of the input.
#[derive(Drop)]
pub struct FrameReader {
    scan: Scan,
    chunks: ChunkReader,
    buffer: [u8; CHUNK],
    /// The payload that was taken last is `from..at` of the buffer; `at..end` isn't scanned yet.
    from: usize,
    at: usize,
    end: usize,
    ghost scanned: { from ≤ at },
    ghost left: { at ≤ end },
    ghost held: { end ≤ chunk_size },
    ghost size: { length buffer ≡ chunk_size },
}

impl FrameReader {
    ghost use Rattle.wsn_scan.specs.Positions.{Position, BetweenFrames};
    ghost use Rattle.wsn_scan.specs.FrameReaders.{HasTaken, IsReading, parts_ahead, held_payload, TakesRun};
    ghost use Rattle.wsn_scan.specs.ReadParts.{ReadsOn, TakesMessage, StepsOn, IsUsed, IsFilled};

    /// A reader that has read nothing. `role` is the endpoint that sent the stream. It allocates no memory.
    #[tactic(none)]
    pub fn new(role: Role, limits: Limits) -> FrameReader
        ensures { HasTaken role limits result [] [] BetweenFrames }
    {
        FrameReader {
            scan: Scan::new(role, limits),
            chunks: ChunkReader::new(limits),
            buffer: [0; CHUNK],
            from: 0,
            at: 0,
            end: 0,
        }
    }

    /// The payload of the part that [`FrameReader::next`] took last, unmasked (RFC 6455 section 5.3), or the normal form
    /// that [`FrameReader::take_events`] took.
    #[tactic(none)]
    pub fn payload(&self) -> &[u8]
        ensures { result.now ≡ held_payload self.now }
    {
        &self.buffer[self.from..self.at]
    }

    /// Reads on from the input and takes the next part of a frame: puts it into `part`, and returns `None`.
    /// [`payload`](FrameReader::payload) then returns its payload. Or it returns the verdict: at the input's end, or at
    /// the offending byte of a refusal. Don't call it again after a verdict or an error.
    ///
    /// Errors: `Read` if the reader fails; `InputLimit` if a byte past the input limit comes. Before a verdict or an
    /// error, each head in the bytes that came within the limit is reported, and each whole frame to its end. The
    /// payload of a frame that has begun may not be reported in full.
    #[inline(always)]
    #[tactic(none)]
    pub fn next<R: Read>(
        &mut self,
        input: &mut Input<R>,
        part: &mut Part,
    ) -> Result<Option<Verdict>, Stop>
        requires begun { IsReading self.old }
        requires readable { input.old.failed ≡ false }
        ensures next { (role : Role) (limits : _) (came : List ℕ) (fs : List Frame) (at : Position) →
            HasTaken role limits self.old came fs at →
            ReadsOn role limits input.old input.new self.new part.new came fs at result }
        ensures falls { result ≡ Ok None → parts_ahead self.new < parts_ahead self.old }
    {
        loop {
            match self.step(part) {
                Taken::Part => return Ok(None),
                Taken::Refused => return Ok(Some(self.scan.finish())),
                Taken::More | Taken::Closed => {
                    if let Some(verdict) = self.fill(input)? {
                        return Ok(Some(verdict));
                    }
                }
            }
        }
    }

    /// Takes the frame that comes next if it is a message of its own, whole in the buffer, and [`Scan::next_event`] takes
    /// it (RFC 6455 section 5.4). Returns the message's kind and the offset of its frame;
    /// [`payload`](FrameReader::payload) then returns its bytes. Otherwise nothing changes. It reads nothing.
    #[inline(always)]
    pub fn next_message(&mut self) -> Option<(Kind, u64)>
        requires { IsReading self.old }
        ensures taken { IfSome result (λ message. (role : Role) (limits : Limits) (came : List ℕ) (fs : List Frame)
            (at : Position) → HasTaken role limits self.old came fs at →
            TakesMessage role limits self.new message.0 message.1 came fs at) }
        ensures none { IfNone result (self.new ≡ self.old) }
        ensures falls { IfSome result (λ _. parts_ahead self.new < parts_ahead self.old) }
    {
        let from = self.at;
        let kind = message_kind(&self.buffer[from..self.end])?;
        let byte = first_byte_of(kind);
        let (count, head) = event_in(byte, &mut self.scan, &mut self.buffer, from, self.end)?;
        self.at = from + count;
        self.from = self.at - head.len as usize;
        Some((kind, head.offset))
    }

    /// Takes the frames that come next if each is whole in the buffer, ends an event and leaves no message open (RFC 6455
    /// section 5.4). Returns whether there is one. If so, [`payload`](FrameReader::payload) returns the normal form of
    /// their events; otherwise nothing changes. It reads nothing.
    pub fn take_events(&mut self) -> bool
        requires { IsReading self.old }
        ensures taken { result ≡ true → (role : Role) (limits : _) (came : List ℕ) (fs : List Frame) (at : Position) →
            HasTaken role limits self.old came fs at → TakesRun role limits self.new came fs at }
        ensures none { result ≡ false → self.new ≡ self.old }
        ensures left { parts_ahead self.new ≤ parts_ahead self.old }
    {
        let from = self.at;
        let count = events_in(&mut self.scan, &mut self.buffer, from, self.end);
        if count == 0 {
            return false;
        }
        self.at += count;
        self.from = from;
        true
    }

    /// Calls the scan once, unless all that came is scanned.
    #[inline(always)]
    fn step(&mut self, part: &mut Part) -> Taken
        requires begun { IsReading self.old }
        ensures taken { (role : Role) (limits : _) (came : List ℕ) (fs : List Frame) (at : Position) →
            HasTaken role limits self.old came fs at →
            StepsOn role limits self.new part.new came fs at result }
        ensures left { parts_ahead self.new ≤ parts_ahead self.old }
        ensures falls { result ≡ Taken.Part → parts_ahead self.new < parts_ahead self.old }
        ensures chunks { self.new.chunks ≡ self.old.chunks }
    {
        if self.at == self.end {
            return Taken::More;
        }
        let from = self.at;
        let (taken, found) = part_in(&mut self.scan, &mut self.buffer, from, self.end, part);
        self.at = from + taken;
        self.from = match found {
            Taken::Part => from + part.start,
            _ => self.at,
        };
        found
    }

    /// Reads once, after all bytes that came are scanned. Returns the verdict if the input has ended.
    #[tactic(none)]
    fn fill<R: Read>(&mut self, input: &mut Input<R>) -> Result<Option<Verdict>, Stop>
        requires readable { input.old.failed ≡ false }
        ensures filled { (role : Role) (limits : _) (came : List ℕ) (fs : List Frame) (at : Position) →
            IsUsed role limits self.old came fs at →
            IsFilled role limits input.old input.new self.new came fs at result }
        ensures scan { self.new.scan ≡ self.old.scan }
        ensures falls { result ≡ Ok None → chunks_ahead self.new.chunks < chunks_ahead self.old.chunks }
    {
        let Some(len) = self.chunks.next(input, &mut self.buffer)? else {
            return Ok(Some(self.scan.finish()));
        };
        self.from = 0;
        self.at = 0;
        self.end = len;
        Ok(None)
    }
}

/// Passes `buffer[at..end]` to the scan. The bytes after those consumed don't change.
#[inline(always)]
fn part_in(
    scan: &mut Scan,
    buffer: &mut [u8],
    at: usize,
    end: usize,
    part: &mut Part,
) -> (usize, Taken)
    requires within { (at ≤ end) × (end ≤ length buffer.old) }
    requires fits { end ≤ room_of scan.old + at }
    ensures in_bytes { IsBytes (slice_range buffer.old at end) }
    ensures taken { IsAdvance (record {
      before = scan.old;
      after = scan.new;
      chunk = slice_range buffer.old at end;
      chunk_after = slice_range buffer.new at end;
      count = result.0;
      found = result.1;
      part = part.new;
    }) }
    ensures within { at + result.0 ≤ end }
    ensures start { result.1 ≡ Taken.Part → part.new.start ≤ result.0 }
    ensures kept { slice_range buffer.new (at + result.0) end ≡ slice_range buffer.old (at + result.0) end }
    ensures room { room_of scan.new + result.0 ≡ room_of scan.old }
    ensures reported { IsSome (refusal_in scan.new) ↔ (result.1 ≡ Taken.Refused) }
    ensures whole { result.1 ≡ Taken.Part → part.new.ends ≡ true → HasNoRest scan.new }
{
    scan.next(&mut buffer[at..end], part)
}

/// The kind of message that a frame is, by its first byte; `None` if it is none of one frame (RFC 6455 section 5.2).
#[inline(always)]
fn message_kind(frame: &[u8]) -> Option<Kind>
    ensures { IfSome result (λ kind. take 1 frame.now ≡ first_byte true (op_of kind) ∷ []) }
{
    match frame.first() {
        Some(0x81) => Some(Kind::Text),
        Some(0x82) => Some(Kind::Binary),
        _ => None,
    }
}

/// The first byte of a message of this kind that is one frame (RFC 6455 section 5.2).
#[inline(always)]
fn first_byte_of(kind: Kind) -> u8
    ensures { result ≡ first_byte true (op_of kind) }
{
    match kind {
        Kind::Text => 0x81,
        Kind::Binary => 0x82,
    }
}

/// Passes `buffer[at..end]`, which begins with this byte, to the scan, which takes an event. The bytes after those
/// consumed don't change.
#[inline(always)]
fn event_in(
    byte: u8,
    scan: &mut Scan,
    buffer: &mut [u8],
    at: usize,
    end: usize,
) -> Option<(usize, HeadInfo)>
    requires first { take 1 (slice_range buffer.old at end) ≡ byte ∷ [] }
    requires within { (at ≤ end) × (end ≤ length buffer.old) }
    requires fits { end ≤ room_of scan.old + at }
    ensures in_bytes { IsBytes (slice_range buffer.old at end) }
    ensures taken { IfSome result (λ found. AdvancesFrom scan.old.stage scan.old scan.new (slice_range buffer.old at end)
        (slice_range buffer.new at end) found.0 Taken.Part (whole_part found.1 found.0)) }
    ensures first { IfSome result (λ found. (found.1.fin ≡ true)
        × (take 1 (slice_range buffer.old at end) ≡ first_byte true found.1.op ∷ [])) }
    ensures within { IfSome result (λ found. (0 < found.0) × (at + found.0 ≤ end) × (found.1.len ≤ found.0)) }
    ensures kept { IfSome result (λ found.
        slice_range buffer.new (at + found.0) end ≡ slice_range buffer.old (at + found.0) end) }
    ensures room { IfSome result (λ found. room_of scan.new + found.0 ≡ room_of scan.old) }
    ensures reported { IfSome result (λ _. refusal_in scan.new ≡ None) }
    ensures whole { IfSome result (λ _. HasNoRest scan.new) }
    ensures none { IfNone result ((scan.new ≡ scan.old) × (buffer.new ≡ buffer.old)) }
{
    scan.next_event_after(byte, &mut buffer[at..end])
}

/// Passes `buffer[at..end]` to the scan, which takes events. The bytes after those consumed don't change.
fn events_in(scan: &mut Scan, buffer: &mut [u8], at: usize, end: usize) -> usize
    requires within { (at ≤ end) × (end ≤ length buffer.old) }
    requires fits { end ≤ room_of scan.old + at }
    ensures taken { 0 < result → IsIdle scan.old
        × TakesEvents scan.old scan.new (slice_range buffer.old at end) (slice_range buffer.new at end) result }
    ensures within { at + result ≤ end }
    ensures kept { slice_range buffer.new (at + result) end ≡ slice_range buffer.old (at + result) end }
    ensures room { room_of scan.new + result ≡ room_of scan.old }
    ensures reported { refusal_in scan.old ≡ None → refusal_in scan.new ≡ None }
    ensures none { result ≡ 0 → (scan.new ≡ scan.old) × (buffer.new ≡ buffer.old) }
{
    scan.take_events(&mut buffer[at..end])
}
