//! `is_lawful` and `put_event`: the examples of RFC 6455 section 5.7, each encoding of a length, Closes, and writes that
//! fail.

use crate::expecting::{expect, expect_of};
use std::alloc::Global;
use std::io::{self, Write};
use std::process::Abort;
use wsn_canon::{Event, Kind, Output, Role, Small, Stop, is_lawful, put_event};

/// An event: its word, the code of a Close that has one, and its bytes.
pub type EventRow = (&'static str, u16, &'static [u8]);

/// The first two bytes of a character of three.
const CUT: &[u8] = b"\xe2\x82";

/// An endpoint, an event, and what is written before its bytes, if it is lawful.
static EVENTS: [(Role, EventRow, Option<&[u8]>); 13] = [
    (Role::Server, ("text", 0, b"Hello"), Some(b"\x81\x05")),
    (Role::Server, ("ping", 0, b"Hello"), Some(b"\x89\x05")),
    (
        Role::Client,
        ("pong", 0, b"Hello"),
        Some(b"\x8a\x85\0\0\0\0"),
    ),
    (
        Role::Server,
        ("binary", 0, &[0x2a; 256]),
        Some(b"\x82\x7e\x01\0"),
    ),
    (
        Role::Server,
        ("binary", 0, &[0x2a; 65_536]),
        Some(b"\x82\x7f\0\0\0\0\0\x01\0\0"),
    ),
    (Role::Server, ("binary", 0, CUT), Some(b"\x82\x02")),
    (Role::Server, ("text", 0, CUT), None),
    (Role::Server, ("empty close", 0, b""), Some(b"\x88\0")),
    (
        Role::Client,
        ("close", 1002, b"bye"),
        Some(b"\x88\x85\0\0\0\0\x03\xea"),
    ),
    (Role::Server, ("close", 1000, CUT), None),
    (
        Role::Server,
        ("close", 1000, &[0x61; 123]),
        Some(b"\x88\x7d\x03\xe8"),
    ),
    (Role::Server, ("close", 1000, &[0x61; 124]), None),
    (Role::Server, ("close", 1005, b""), None),
];

/// An event's word, its code and its bytes.
pub fn parts_of(event: &Event) -> (&'static str, u16, &[u8]) {
    match event {
        Event::Message(Kind::Text, text) => ("text", 0, text.as_slice()),
        Event::Message(Kind::Binary, bytes) => ("binary", 0, bytes.as_slice()),
        Event::Ping(body) => ("ping", 0, body.as_slice()),
        Event::Pong(body) => ("pong", 0, body.as_slice()),
        Event::Close(None) => ("empty close", 0, &[]),
        Event::Close(Some((code, reason))) => ("close", *code, reason.as_slice()),
    }
}

/// The event of a word, a code and bytes, if there is memory.
fn event_of(alloc: Global, (word, code, bytes): EventRow) -> Option<Event> {
    match word {
        "text" => Some(Event::Message(Kind::Text, bytes.to_vec(alloc).ok()?)),
        "binary" => Some(Event::Message(Kind::Binary, bytes.to_vec(alloc).ok()?)),
        "ping" => Some(Event::Ping(Small::try_from(bytes).ok()?)),
        "pong" => Some(Event::Pong(Small::try_from(bytes).ok()?)),
        "empty close" => Some(Event::Close(None)),
        _ => Some(Event::Close(Some((code, Small::try_from(bytes).ok()?)))),
    }
}

/// A writer that takes at most seven bytes a call, and none once it is full.
#[derive(Drop)]
struct Narrow {
    taken: Vec<u8>,
    room: usize,
}

impl Write for Narrow {
    fn write(&mut self, buf: &[u8]) -> io::Result<usize> {
        let count = buf.len().min(self.room).min(7);
        self.taken.extend_from_slice(&buf[..count])?;
        self.room -= count;
        Ok(count)
    }

    fn flush(&mut self) -> io::Result<()> {
        Ok(())
    }
}

/// Fails unless this is written of a lawful event, or the prefix for which the writer has room.
fn expect_put(
    rt: &impl Abort,
    alloc: Global,
    role: Role,
    event: &Event,
    whole: &[u8],
    room: usize,
) {
    expect(rt, is_lawful(event));
    let mut writer = Narrow {
        taken: Vec::new(alloc),
        room,
    };
    let put = put_event(&mut Output::new(&mut writer), role, event);
    let is_answered = if room < whole.len() {
        put == Err(Stop::Write)
    } else {
        put == Ok(())
    };
    let prefix = whole.get(..room.min(whole.len()));
    expect_of(
        rt,
        is_answered && prefix == Some(writer.taken.as_slice()),
        &(room, put),
    );
}

#[test]
fn lawful_events_are_written(rt: HostRuntime) {
    let alloc = rt.alloc();
    for (role, row, head) in EVENTS.iter() {
        let event = event_of(alloc, *row).expect(&rt, "an event");
        expect_of(&rt, is_lawful(&event) == head.is_some(), row);
        if let Some(head) = head {
            let mut whole = head.to_vec(alloc).expect(&rt, "memory");
            whole.extend_from_slice(row.2).expect(&rt, "memory");
            expect_put(&rt, alloc, *role, &event, whole.as_slice(), usize::MAX);
            for room in 0..whole.len().min(300) {
                expect_put(&rt, alloc, *role, &event, whole.as_slice(), room);
            }
        }
    }
}
