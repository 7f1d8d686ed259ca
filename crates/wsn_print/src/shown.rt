use std::marker::Model;
use wsn_rules::Limits;
use wsn_wire::{CONTROL_MAX, Op, Role};

/// The greatest limit on the bytes of a payload that is given as a number.
pub const VIEW_MAX: u16 = 4_096;

/// The most bytes of a payload that an entry shows: 0 to 4,096, or as many as show each payload whole.
#[derive(Clone, Copy)]
pub struct ViewLimit {
    bytes: u32,
}

impl Model for ViewLimit {
    ghost use Rattle.std.specs.Prelude.{ℕ, ◌≤◌};

    ghost Value = { ℕ };

    ghost view = { λ v. v.bytes };

    ghost invariant = { λ v. v.bytes ≤ 33554432 };

    ghost inverse = { λ n. record { bytes = n } };
}

impl ViewLimit {
    ghost use Rattle.std.specs.Prelude.{◌≡◌, ◌≤◌, ◌↔◌, IfSome, IsSome, min};
    ghost use Rattle.wsn_print.specs.WholeViews.{whole_view};

    /// A limit of `bytes` bytes. `None` exactly if that is over 4,096.
    #[tactic(none)]
    pub fn new(bytes: u16) -> Option<ViewLimit>
        ensures in_range { IsSome result ↔ (bytes ≤ 4096) }
        ensures value { IfSome result (λ view. view ≡ bytes) }
    {
        if bytes > VIEW_MAX {
            return None;
        }
        Some(ViewLimit {
            bytes: u32::from(bytes),
        })
    }

    /// The limit with which each payload is shown whole: twice the greatest number of bytes that a payload may have under
    /// these limits, since in hexadecimal half as many bytes are shown.
    pub fn whole(limits: Limits) -> ViewLimit
        ensures { result ≡ whole_view limits }
    {
        let greatest = limits.message().max(CONTROL_MAX as u32);
        let bytes = greatest * 2;
        ViewLimit { bytes }
    }

    /// This limit, or 4,096 bytes if it is greater.
    pub fn short(&self) -> ViewLimit
        ensures { result ≡ min self.now 4096 }
    {
        let bytes = self.bytes.min(u32::from(VIEW_MAX));
        ViewLimit { bytes }
    }

    /// The number of bytes.
    #[tactic(none)]
    pub fn bytes(&self) -> usize
        ensures is { result ≡ self.now }
        ensures in_range { result ≤ 33554432 }
    {
        self.bytes as usize
    }
}

/// What is in front of an entry.
#[derive(Clone, Copy)]
pub struct Front<'a> {
    /// The endpoint that sent it.
    pub role: Role,
    /// The time that the capture gives, in seconds; `None` if it gives none.
    pub time: Option<&'a [u8]>,
    /// The offset in the endpoint's stream, from 0.
    pub offset: u64,
}

/// Where an entry is.
#[derive(Clone, Copy)]
pub enum Origin<'a> {
    /// In a line of a capture.
    Line {
        /// The number of the line, from 1.
        number: u32,
        /// The time that the capture gives, in seconds; `None` if it gives none.
        time: Option<&'a [u8]>,
    },
    /// At the end of a capture.
    End {
        /// The time that held when the endpoint's last bytes came, in seconds; `None` if the capture gives none.
        time: Option<&'a [u8]>,
    },
    /// In a stream without a capture.
    Stream,
}

/// What is in front of an entry's object.
#[derive(Clone, Copy)]
pub struct EntryFront<'a> {
    /// The endpoint that sent it.
    pub role: Role,
    /// Where it is.
    pub origin: Origin<'a>,
    /// The offset in the endpoint's stream, from 0.
    pub offset: u64,
}

impl<'a> EntryFront<'a> {
    ghost use Rattle.std.specs.Prelude.{◌≡◌};
    ghost use Rattle.wsn_print.specs.ShownParts.{time_at};
    ghost use Rattle.wsn_print.specs.ShownParts.{time_of, position_of};

    /// What is in front of the entry's line.
    pub fn of_line(&self) -> Front<'a>
        ensures role { result.role ≡ self.now.role }
        ensures time { time_of result ≡ time_at (position_of self.now.origin) }
        ensures offset { result.offset ≡ self.now.offset }
    {
        let time = match self.origin {
            Origin::Line { time, .. } | Origin::End { time } => time,
            Origin::Stream => None,
        };
        Front {
            role: self.role,
            time,
            offset: self.offset,
        }
    }
}

/// An event to be shown, complete or not.
#[derive(Clone, Copy)]
pub struct ShownEvent<'a> {
    /// Its opcode: of a message, that of its first frame.
    pub op: Op,
    /// The number of bytes of its payload.
    pub bytes: u64,
    /// The number of its frames.
    pub frames: u64,
    /// The first bytes of its payload: of a message at least as many as a view shows, of a control all. A text isn't
    /// validated again.
    pub held: &'a [u8],
}

/// An event to be shown, and where it is.
#[derive(Clone, Copy)]
pub struct PlacedEvent<'a> {
    /// The offset of its first frame in the endpoint's stream, from 0.
    pub offset: u64,
    /// The event.
    pub event: ShownEvent<'a>,
}

/// An event's payload, from a little before a place in it on.
#[derive(Clone, Copy)]
pub struct PayloadPart<'a> {
    /// Whether the event is a text message.
    pub is_text: bool,
    /// The number of the payload's bytes in front of this part.
    pub from: u64,
    /// The number of the part's bytes before the place: at most 11.
    pub before: u8,
    /// The part's bytes.
    pub bytes: HeldBytes<'a>,
}

/// Where the payloads of two events differ.
#[derive(Clone, Copy)]
pub struct DifferingPayloads<'a> {
    /// The place of the first byte in which they differ, from 0: the length of the shorter if it is the beginning of the
    /// other.
    pub place: u64,
    /// The payload of the first stream's event around that place.
    pub first: PayloadPart<'a>,
    /// The payload of the second stream's event around that place.
    pub second: PayloadPart<'a>,
}

/// Where two streams differ first.
#[derive(Clone, Copy)]
pub struct Difference<'a> {
    /// The index of the event, from 0.
    pub index: u64,
    /// The first stream's event; `None` if it has no more events.
    pub first: Option<PlacedEvent<'a>>,
    /// The second stream's event; `None` if it has no more events.
    pub second: Option<PlacedEvent<'a>>,
    /// Where their payloads differ; `None` if they are the same, or if a stream has no more events.
    pub payloads: Option<DifferingPayloads<'a>>,
}

/// Bytes of which only the first or only the last are held.
#[derive(Clone, Copy)]
pub struct HeldBytes<'a> {
    /// The number of all the bytes.
    pub bytes: u64,
    /// The bytes that are held.
    pub held: &'a [u8],
}

/// The character with which a text goes wrong.
#[derive(Clone, Copy)]
pub struct ShownCharacter<'a> {
    /// The offset of its first byte in the endpoint's stream, from 0.
    pub offset: u64,
    /// The place of its first byte in the payload of the message, from 0.
    pub in_payload: u64,
    /// Its bytes up to the offending one.
    pub bytes: &'a [u8],
    /// The end of the payload of the message in frames before the refused one.
    pub earlier: &'a [u8],
}

/// What bytes are that belong to no frame.
#[derive(Clone, Copy)]
pub enum Remainder {
    /// Bytes after a refusal.
    Unread,
    /// Bytes after a Close.
    Tail,
}
