use wsn_wire::Reason;

/// Where and why a stream is refused.
#[derive(Clone, Copy, Debug, PartialEq, Eq)]
pub struct Refusal {
    /// The offset of the offending byte, from 0.
    pub offset: u64,
    /// The reason.
    pub reason: Reason,
}

/// The counts of a stream that isn't refused (specs/Summary.antt).
#[derive(Clone, Copy, Debug, PartialEq, Eq)]
pub struct Summary {
    /// The number of bytes used: all but the tail.
    pub used: u64,
    /// The number of bytes after the Close.
    pub tail: u64,
    /// The number of payload bytes in the complete frames of the unfinished message; `None` if no message is open.
    pub unfinished: Option<u32>,
    /// The number of complete frames, with the Close.
    pub frames: u64,
    /// The number of final data frames.
    pub messages: u64,
    /// The number of pings.
    pub pings: u64,
    /// The number of pongs.
    pub pongs: u64,
    /// `None` without a Close, `Some(None)` for an empty one, otherwise its code.
    pub close: Option<Option<u16>>,
}

/// The verdict on a stream (specs/Verdict.antt). Every input has exactly one.
#[derive(Clone, Copy, Debug, PartialEq, Eq)]
pub enum Verdict {
    /// Complete lawful frames, and no message open; or complete lawful frames with a Close at their end, and any bytes
    /// after it.
    Accepted(Summary),
    /// Complete lawful frames, and an unfinished frame or message.
    Cut(Summary),
    /// A byte is evidence that the stream isn't lawful.
    Refused(Refusal),
}
