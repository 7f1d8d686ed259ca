use wsn_rules::HeadInfo;
use wsn_wire::{Form, Op};

/// What a chunk of a stream has of one frame (RFC 6455 section 5.2): its head if it begins there, some of its payload,
/// and its end if it ends there.
#[derive(Clone, Copy, Debug)]
pub struct Part {
    /// The frame's head.
    pub head: HeadInfo,
    /// This is the frame's first part: its head was complete for the first time.
    pub begins: bool,
    /// This is its last part: the frame is complete.
    pub ends: bool,
    /// Where in the chunk the payload begins, as an offset from 0. It ends with the bytes that were consumed.
    pub start: usize,
}

impl Part {
    /// A part that says nothing yet: [`Scan::next`](crate::Scan::next) puts another in its place.
    pub fn new() -> Part {
        Part {
            head: HeadInfo {
                offset: 0,
                fin: false,
                op: Op::Continue,
                key: None,
                form: Form::Shortest,
                len: 0,
            },
            begins: false,
            ends: false,
            start: 0,
        }
    }
}

/// What [`Scan::next`](crate::Scan::next) found in a chunk.
#[derive(Clone, Copy, Debug)]
pub enum Taken {
    /// Part of a head, or nothing: all of the chunk was consumed, and there is nothing to report yet.
    More,
    /// A part of a frame.
    Part,
    /// Bytes after a Close.
    Closed,
    /// The stream is refused; the last byte that was consumed is the offending byte.
    Refused,
}
