ghost use Rattle.std.specs.Prelude.{◌≡◌, ℕ, ◌<◌, ◌≤◌, List, [], None, Some, IfSome, Result, true, false};
ghost use Rattle.wsn_scan.specs.Parts.{IsWholeMessage};
ghost use Rattle.wsn_events.specs.SourceStates.{SourceState, HasBegunOrEnded};

use crate::event::Event;
use crate::reassembly::Reassembly;
use crate::turn::Turn;
use std::alloc::{Allocator, Global};
use std::io::Read;
use std::marker::Model;
use wsn_io::{Input, Stop};
use wsn_scan::{FrameReader, Limits, Part, Verdict};
use wsn_wire::{Kind, Op, Role};

/// What [`Source::next`] returns.
#[derive(Drop)]
pub enum Next<A: Allocator = Global> {
    /// The next event.
    Event(Event<A>),
    /// The input's verdict. No event comes after it.
    Done(Verdict),
}

/// Reads the events of a stream in order, each at the frame that ends it (RFC 6455 section 5.4), and then its verdict.
/// It holds the open message, room of at most 4,096 bytes for the next, at most 4,096 bytes of the input, and nothing
/// else of the stream.
#[derive(Drop)]
pub struct Source<A: Allocator = Global> {
    reader: FrameReader,
    /// The open message so far.
    reassembly: Reassembly<A>,
    /// The verdict or stop that it has ended with, if it has ended.
    answer: Option<Result<Verdict, Stop>>,
}

impl<A: Allocator> Model for Source<A> {
    ghost Value = { SourceState A };

    ghost view = { λ s. record { reader = s.reader; reassembly = s.reassembly; answer = s.answer } };

    ghost invariant = { λ s. HasBegunOrEnded (record { reader = s.reader; reassembly = s.reassembly; answer = s.answer }) };
}

impl<A: Allocator + Copy> Source<A> {
    ghost use Rattle.wsn_wire.specs.declared.endpoint.Role.{Role};
    ghost use Rattle.wsn_rules.specs.Meaning.{MeantEvent};
    ghost use Rattle.wsn_rules.specs.declared.verdict.Verdict.{Verdict};
    ghost use Rattle.wsn_io.specs.declared.stop.Stop.{Stop};
    ghost use Rattle.wsn_events.specs.SourceStates.{HasGiven, IsAsBefore, ReadsNextEvent, IsEvent, answered, held_of, offset_of, frames_of, events_ahead, next_of};
    ghost use Rattle.wsn_events.specs.LentMessages.{TakesEventsAfter, held_bytes, MayLend};
    ghost use Rattle.wsn_events.specs.Turns.{TakesTurn, GivesEvent, own_turn};

    /// A source that has read nothing. `role` is the endpoint that sent the stream. It allocates no memory.
    #[tactic(none)]
    pub fn new(alloc: A, role: Role, limits: Limits) -> Self
        ensures { HasGiven role limits result [] [] }
    {
        Source {
            reader: FrameReader::new(role, limits),
            reassembly: Reassembly::new(alloc),
            answer: None,
        }
    }

    /// How many bytes of the open message it holds: at most the message limit.
    #[tactic(none)]
    pub fn held(&self) -> usize
        ensures { result ≡ held_of self.now }
    {
        self.reassembly.held()
    }

    /// The offset of the first frame of the event that it gave last; any number if it gave none, or its frames were taken
    /// by [`Source::take_events`].
    pub(crate) fn offset(&self) -> u64
        ensures { result ≡ offset_of self.now }
    {
        self.reassembly.offset()
    }

    /// The number of frames of that event.
    pub(crate) fn frames(&self) -> u64
        ensures { result ≡ frames_of self.now }
    {
        self.reassembly.frames()
    }

    /// Reads on from the input and returns the next event, or the verdict if there is none.
    ///
    /// Errors: `Read` if the reader fails, and `InputLimit` if a byte past the input limit comes; either comes after
    /// the events that end in the bytes within the limit. `Memory` if an allocation for a message fails. After a
    /// verdict or an error, each call returns it again, reads nothing and changes nothing.
    #[tactic(none)]
    pub fn next<R: Read>(&mut self, input: &mut Input<R>) -> Result<Next<A>, Stop>
        requires readable { answered self.old ≡ None → input.old.failed ≡ false }
        ensures next { (role : Role) (limits : _) (came : List ℕ) (given : List MeantEvent) →
            HasGiven role limits self.old came given →
            ReadsNextEvent role limits input.old input.new self.new came given result }
        ensures falls { IsEvent result → events_ahead self.new < events_ahead self.old }
        ensures again { (answer : Result Verdict Stop) → answered self.old ≡ Some answer →
            (result ≡ next_of answer) × (self.new ≡ self.old) × (input.new ≡ input.old) }
        ensures sound { answered self.new ≡ None → IsEvent result }
    {
        if let Some(answer) = self.answer {
            return Ok(Next::Done(answer?));
        }
        let kind = match self.next_turn(input)? {
            Turn::Own(next) => return Ok(next),
            Turn::Lent(kind) => kind,
        };
        let Some(text) = self.reassembly.copy(self.reader.payload()) else {
            self.reassembly.release();
            self.answer = Some(Err(Stop::Memory));
            return Err(Stop::Memory);
        };
        Ok(Next::Event(Event::Message(kind, text)))
    }

    /// Reads on as [`Source::next`] does, but lends a message of one frame that is whole in the chunk that was read last: it
    /// allocates nothing for it, and [`Source::taken`] returns its bytes until the next call that changes the source.
    ///
    /// Errors: as [`Source::next`].
    #[inline(always)]
    #[tactic(none)]
    pub fn next_turn<R: Read>(&mut self, input: &mut Input<R>) -> Result<Turn<A>, Stop>
        requires readable { answered self.old ≡ None → input.old.failed ≡ false }
        ensures next { (role : Role) (limits : _) (came : List ℕ) (given : List MeantEvent) →
            HasGiven role limits self.old came given →
            TakesTurn role limits input.old input.new self.new came given result }
        ensures falls { GivesEvent result → events_ahead self.new < events_ahead self.old }
        ensures again { (answer : Result Verdict Stop) → answered self.old ≡ Some answer →
            (result ≡ own_turn (next_of answer)) × (self.new ≡ self.old) × (input.new ≡ input.old) }
        ensures sound { answered self.new ≡ None → GivesEvent result }
    {
        if let Some(answer) = self.answer {
            return Ok(Turn::Own(Next::Done(answer?)));
        }
        let mut part = Part::new();
        let ended = loop {
            match self.reader.next(input, &mut part) {
                Ok(None) => {
                    self.reassembly.begin(&part);
                    if let Some(kind) = whole_message(&part) {
                        return Ok(Turn::Lent(kind));
                    }
                    if !self.reassembly.take(self.reader.payload()) {
                        break Err(Stop::Memory);
                    }
                    if part.ends {
                        if let Some(event) = self.reassembly.end(part.head.fin) {
                            return Ok(Turn::Own(Next::Event(event)));
                        }
                    }
                }
                Ok(Some(verdict)) => break Ok(verdict),
                Err(stop) => break Err(stop),
            }
        };
        self.reassembly.release();
        self.answer = Some(ended);
        Ok(Turn::Own(Next::Done(ended?)))
    }

    /// Takes the next event if it is a message that [`FrameReader::next_message`] takes, of one frame that is whole in the
    /// chunk that was read last, and lends it: returns its kind, and [`Source::taken`] returns its bytes until the next call
    /// that changes the source. Otherwise, and once the source has ended, nothing changes. It reads nothing and allocates
    /// nothing.
    #[inline(always)]
    #[tactic(none)]
    pub fn take_message(&mut self) -> Option<Kind>
        ensures { MayLend self.old self.new result }
    {
        if self.answer.is_some() {
            return None;
        }
        let (kind, offset) = self.reader.next_message()?;
        self.reassembly.pass_over(kind, offset);
        Some(kind)
    }

    /// Takes the events of the frames that come next and are whole in the chunk that was read last, up to the first
    /// frame that [`FrameReader::take_events`] leaves, and returns whether there are any. [`Source::taken`] then returns
    /// their normal form. It reads nothing. The source must not have ended.
    pub(crate) fn take_events(&mut self) -> bool
        requires { answered self.old ≡ None }
        ensures taken { result ≡ true → (role : Role) (limits : _) (came : List ℕ) (given : List MeantEvent) →
            HasGiven role limits self.old came given → TakesEventsAfter role limits self.new came given }
        ensures none { result ≡ false → self.new ≡ self.old }
        ensures left { events_ahead self.new ≤ events_ahead self.old }
    {
        self.reader.take_events()
    }

    /// Uses the room of an event that it gave for the next message: of a message with room for at most 4,096 bytes.
    pub fn reuse(&mut self, event: Event<A>)
        ensures { IsAsBefore self.old self.new }
    {
        if let Event::Message(_, text) = event {
            self.reassembly.reuse(text);
        }
    }

    /// The normal form of the events that were taken last, or the bytes of the message.
    pub fn taken(&self) -> &[u8]
        ensures { result.now ≡ held_bytes self.now }
    {
        self.reader.payload()
    }
}

/// The kind of the message that the part is, if it is a whole message of one frame.
#[inline(always)]
fn whole_message(part: &Part) -> Option<Kind>
    ensures { IfSome result (λ kind. IsWholeMessage part.now kind) }
{
    if !(part.begins && part.ends && part.head.fin) {
        return None;
    }
    match part.head.op {
        Op::Text => Some(Kind::Text),
        Op::Binary => Some(Kind::Binary),
        _ => None,
    }
}
