//! Which arguments each command takes. Each list is a static of its own: one table of all commands with their arguments
//! takes more steps than the check of a function may.

use crate::argument::Argument;
use crate::options::{
    AT, CAPTURE, COLOR, EACH, EVENTS_VIEW, FILE, FILES, FIRST, FRAMES, JSON, LAYOUT, LENGTHS,
    LIMIT, ROLE, SECOND, STREAM_ROLE, TEXT_COLOR, VIEW, WIRE, WITHOUT, WORDS,
};
use crate::recut_options::{KEY, PLAN, SIZE, WEAVE};

/// Which arguments a command takes.
#[derive(Clone, Copy)]
pub enum Takes {
    /// Those of `show`.
    Show,
    /// Those of `judge` and `frames`.
    Verdict,
    /// Those of `payload`.
    Payload,
    /// Those of `normal` and `plan`.
    Stream,
    /// Those of `same`.
    Same,
    /// Those of `recut`.
    Recut,
    /// Those of `redact`.
    Redact,
    /// Those of `closing`.
    Closing,
    /// Those of `explain`.
    Explain,
}

static SHOW: [Argument; 10] = [
    STREAM_ROLE,
    VIEW,
    WIRE,
    LAYOUT,
    FILE,
    JSON,
    COLOR,
    LIMIT,
    FRAMES,
    LENGTHS,
];

static VERDICT: [Argument; 8] = [ROLE, CAPTURE, FILE, JSON, COLOR, LIMIT, FRAMES, LENGTHS];

static PAYLOAD: [Argument; 7] = [ROLE, CAPTURE, FILE, AT, LIMIT, FRAMES, LENGTHS];

static STREAM: [Argument; 6] = [ROLE, CAPTURE, FILE, LIMIT, FRAMES, LENGTHS];

static SAME: [Argument; 10] = [
    ROLE,
    CAPTURE,
    WITHOUT,
    EVENTS_VIEW,
    FIRST,
    SECOND,
    JSON,
    LIMIT,
    FRAMES,
    LENGTHS,
];

static RECUT: [Argument; 10] = [
    ROLE, PLAN, SIZE, WEAVE, KEY, CAPTURE, FILE, LIMIT, FRAMES, LENGTHS,
];

static REDACT: [Argument; 6] = [STREAM_ROLE, CAPTURE, FILE, LIMIT, FRAMES, LENGTHS];

static CLOSING: [Argument; 7] = [EACH, FILES, JSON, COLOR, LIMIT, FRAMES, LENGTHS];

static EXPLAIN: [Argument; 2] = [WORDS, TEXT_COLOR];

/// These arguments, in the order in which help lists the options.
pub fn arguments_of<'a>(takes: Takes) -> &'a [Argument] {
    match takes {
        Takes::Show => &SHOW,
        Takes::Verdict => &VERDICT,
        Takes::Payload => &PAYLOAD,
        Takes::Stream => &STREAM,
        Takes::Same => &SAME,
        Takes::Recut => &RECUT,
        Takes::Redact => &REDACT,
        Takes::Closing => &CLOSING,
        Takes::Explain => &EXPLAIN,
    }
}
