use wsn_rules::Verdict;
use wsn_wire::Op;

/// Where an event begins: the opcode of its first frame, and that frame's offset in the stream, from 0 (RFC 6455 section
/// 5.4).
#[derive(Clone, Copy, Debug, PartialEq, Eq)]
pub struct EventStart {
    /// Text or Binary of a message, otherwise the control's.
    pub op: Op,
    /// The offset of the first frame's first byte.
    pub offset: u64,
}

/// What became of the event that begins at an offset (RFC 6455 sections 5.4 to 5.6).
#[derive(Clone, Copy, Debug)]
pub enum Payload {
    /// It is complete: all of its payload is written.
    Whole,
    /// It isn't complete at this verdict: the stream ends inside it, is refused there, or a Close interrupts it. What
    /// came of its payload is written, with a refusal up to the offending byte.
    Unfinished(Verdict),
    /// No event begins at the offset: it is in a frame of the event that begins here.
    Inside(EventStart),
    /// No event begins at the offset: it is in a head that begins at `offset` and isn't complete, since the stream ends
    /// inside it or is refused there.
    Head { offset: u64, verdict: Verdict },
    /// No event begins at the offset: all that came ends before it or at it, or a Close does. The stream has this verdict.
    Nothing(Verdict),
}
