ghost use Rattle.wsn_events.specs.SourceStates.{IsAsBefore};

use crate::source::{Next, Source};
use std::alloc::Allocator;
use wsn_wire::Kind;

/// What [`Source::next_turn`] returns.
#[derive(Drop)]
pub enum Turn<A: Allocator> {
    /// A message, whose bytes the source holds: [`Source::taken`] returns them.
    Lent(Kind),
    /// An event of its own, or the verdict.
    Own(Next<A>),
}

/// What a source gave last.
#[derive(Drop)]
pub struct LastTurn<'a, A: Allocator> {
    /// The source, which holds the bytes of a message that it lends.
    pub source: &'a Source<A>,
    /// Its turn.
    pub turn: &'a Turn<A>,
}

/// Gives the source the room of an event that it has given, for the next message.
#[inline(always)]
pub fn give_back<A: Allocator + Copy>(source: &mut Source<A>, turn: Turn<A>)
    ensures { IsAsBefore source.old source.new }
{
    if let Turn::Own(Next::Event(event)) = turn {
        source.reuse(event);
    }
}
