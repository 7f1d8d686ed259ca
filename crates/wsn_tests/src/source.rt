//! `Source`: the events of streams, whatever the size of reads, how much of an open message it holds, and its answers
//! after the end.

use crate::events::{EventRow, parts_of};
use crate::expecting::{expect, expect_of};
use crate::readers::{Chopped, READS};
use std::alloc::Global;
use std::process::Abort;
use wsn_canon::{INPUT_MAX, Input, Limits, MESSAGE_MAX, Next, Output, Role, Source, put_verdict};

/// A stream, its events, how many bytes of an open message are held after each, and the answer after them.
#[derive(Clone, Copy)]
struct SourceRow {
    role: Role,
    input: u64,
    bytes: &'static [u8],
    /// The reader fails after these bytes.
    breaks: bool,
    events: &'static [(EventRow, usize)],
    answer: &'static str,
}

const WHOLE: SourceRow = SourceRow {
    role: Role::Server,
    input: INPUT_MAX,
    bytes: &[],
    breaks: false,
    events: &[],
    answer: "accepted 0 tail 0 unfinished -",
};

static ROWS: [SourceRow; 19] = [
    WHOLE,
    SourceRow {
        role: Role::Client,
        ..WHOLE
    },
    SourceRow {
        role: Role::Client,
        bytes: &[
            0x81, 0x85, 0x37, 0xfa, 0x21, 0x3d, 0x7f, 0x9f, 0x4d, 0x51, 0x58,
        ],
        events: &[(("text", 0, b"Hello"), 0)],
        answer: "accepted 11 tail 0 unfinished -",
        ..WHOLE
    },
    SourceRow {
        bytes: b"\x01\x03Hel\x89\x00\x80\x02lo",
        events: &[(("ping", 0, b""), 3), (("text", 0, b"Hello"), 0)],
        answer: "accepted 11 tail 0 unfinished -",
        ..WHOLE
    },
    // With one read, too, the ping comes before the fragments after it.
    SourceRow {
        bytes: b"\x89\x00\x01\x03Hel\x80\x02lo",
        events: &[(("ping", 0, b""), 0), (("text", 0, b"Hello"), 0)],
        answer: "accepted 11 tail 0 unfinished -",
        ..WHOLE
    },
    SourceRow {
        bytes: &[0x01, 0x01, 0xe2, 0x00, 0x01, 0x82, 0x80, 0x01, 0xac],
        events: &[(("text", 0, &[0xe2, 0x82, 0xac]), 0)],
        answer: "accepted 9 tail 0 unfinished -",
        ..WHOLE
    },
    SourceRow {
        role: Role::Client,
        bytes: &[
            0x01, 0x81, 0x37, 0xfa, 0x21, 0x3d, 0xd5, 0x89, 0x80, 0x00, 0x00, 0x00, 0x01, 0x00,
            0x81, 0xff, 0x00, 0x00, 0x00, 0x7d, 0x80, 0x81, 0x00, 0x00, 0x00, 0x00, 0xac,
        ],
        events: &[(("ping", 0, b""), 1), (("text", 0, &[0xe2, 0x82, 0xac]), 0)],
        answer: "accepted 27 tail 0 unfinished -",
        ..WHOLE
    },
    SourceRow {
        bytes: &[0x88, 0x02, 0x03, 0xe8, 0x81, 0x01, 0x41],
        events: &[(("close", 1000, b""), 0)],
        answer: "accepted 4 tail 3 unfinished -",
        ..WHOLE
    },
    SourceRow {
        bytes: &[0x88, 0x02, 0x03, 0xf6],
        events: &[(("close", 1014, b""), 0)],
        answer: "accepted 4 tail 0 unfinished -",
        ..WHOLE
    },
    SourceRow {
        bytes: b"\x01\x03Hel\x88\x02\x03\xe8",
        events: &[(("close", 1000, b""), 3)],
        answer: "accepted 9 tail 0 unfinished 3",
        ..WHOLE
    },
    SourceRow {
        bytes: &[0x01, 0x00, 0x88, 0x00],
        events: &[(("empty close", 0, b""), 0)],
        answer: "accepted 4 tail 0 unfinished 0",
        ..WHOLE
    },
    SourceRow {
        bytes: b"\x82\x01\xff\x88\x05\x03\xeabye",
        events: &[(("binary", 0, &[0xff]), 0), (("close", 1002, b"bye"), 0)],
        answer: "accepted 10 tail 0 unfinished -",
        ..WHOLE
    },
    SourceRow {
        bytes: &[0x8a, 0x01, 0x41, 0x88, 0x00],
        events: &[(("pong", 0, b"A"), 0), (("empty close", 0, b""), 0)],
        answer: "accepted 5 tail 0 unfinished -",
        ..WHOLE
    },
    SourceRow {
        bytes: &[0x81, 0x01, 0x42, 0xc1],
        events: &[(("text", 0, b"B"), 0)],
        answer: "refused 3 reserved-bits 1002",
        ..WHOLE
    },
    SourceRow {
        bytes: &[0x89, 0x00, 0x01, 0x00],
        events: &[(("ping", 0, b""), 0)],
        answer: "cut 4",
        ..WHOLE
    },
    SourceRow {
        bytes: b"\x01\x03Hel",
        breaks: true,
        answer: "read failed",
        ..WHOLE
    },
    SourceRow {
        bytes: b"\x01\x03Hel\x89\x00",
        breaks: true,
        events: &[(("ping", 0, b""), 3)],
        answer: "read failed",
        ..WHOLE
    },
    SourceRow {
        bytes: &[0x88, 0x02, 0x03, 0xe8, 0x81],
        input: 4,
        events: &[(("close", 1000, b""), 0)],
        answer: "input limit",
        ..WHOLE
    },
    SourceRow {
        bytes: &[0xc1, 0x00, 0x00, 0x00, 0x00],
        input: 4,
        answer: "refused 0 reserved-bits 1002",
        ..WHOLE
    },
];

/// Fails unless this is a source's answer after its events.
fn expect_answer(
    rt: &impl Abort,
    alloc: Global,
    source: &mut Source,
    input: &mut Input<&mut Chopped>,
    row: &SourceRow,
) {
    expect(rt, !input.failed());
    let mut line = Vec::new(alloc);
    match source.next(input) {
        Ok(Next::Done(verdict)) => {
            put_verdict(&mut Output::new(&mut line), &verdict).expect(rt, "memory");
        }
        Ok(Next::Event(_)) => panic!(rt; "an event after the last"),
        Err(stop) => {
            let words = format!(in alloc; "{stop}\n").expect(rt, "memory");
            line.extend_from_slice(words.as_bytes())
                .expect(rt, "memory");
        }
    }
    let said = line.as_slice().strip_suffix(b"\n");
    expect_of(rt, said == Some(row.answer.as_bytes()), &(row.bytes, &line));
}

/// Fails unless a source reports the stream's events, and then its answer, which it repeats without a read.
fn expect_source(rt: &impl Abort, alloc: Global, row: &SourceRow, mut reader: Chopped) {
    let limits = Limits::new(MESSAGE_MAX, row.input).expect(rt, "limits in range");
    let mut input = Input::new(&mut reader);
    let mut source = Source::new(alloc, row.role, limits);
    for (event_row, held) in row.events.iter() {
        expect(rt, !input.failed());
        match source.next(&mut input) {
            Ok(Next::Event(event)) => expect_of(rt, parts_of(&event) == *event_row, event_row),
            _ => panic!(rt; "no event where a {} is expected", event_row.0),
        }
        expect_of(rt, source.held() == *held, event_row);
    }
    expect_answer(rt, alloc, &mut source, &mut input, row);
    let mut more = Chopped::new(&[0x89, 0x00], 2);
    for _ in 0..2u8 {
        expect_answer(rt, alloc, &mut source, &mut Input::new(&mut more), row);
    }
    expect_of(rt, more.left() == 2, &row.bytes);
}

#[test]
fn events_come_in_order_and_then_the_answer(rt: HostRuntime) {
    for row in ROWS.iter() {
        for at_most in READS {
            let reader = if row.breaks {
                Chopped::breaking(row.bytes, at_most)
            } else {
                Chopped::new(row.bytes, at_most)
            };
            expect_source(&rt, rt.alloc(), row, reader);
        }
    }
}
