//! An independent peer, the kit's `tungstenite`: its server reads our output, and we read its output.

use crate::expecting::expect_of;
use std::alloc::Global;
use std::process::Abort;
use tungstenite::{CloseCode, CloseFrame, Duplex, Message, NoMask, Utf8Bytes, WebSocket};
use wsn_canon::{
    Compared, Input, Limits, Output, RecutAnswer, Role, UniformFrames, recut_uniform, same,
};

/// A server that reads these bytes, and keeps what it writes.
type Server<'a> = WebSocket<Duplex<&'a [u8], Vec<u8>>, NoMask>;

fn server(alloc: Global, bytes: &[u8]) -> Server<'_> {
    let stream = Duplex {
        reader: bytes,
        writer: Vec::new(alloc),
    };
    WebSocket::from_raw_socket(alloc, stream, NoMask, tungstenite::Role::Server, None)
}

/// The kinds of the session's messages, and their lengths: for a Close, that of its reason.
const SESSION: [(&str, usize); 5] = [
    ("text", 5),
    ("ping", 1),
    ("binary", 300),
    ("text", 3),
    ("close", 3),
];

/// The bytes of a binary message.
const STARS: &[u8] = &[b'*'; 300];

/// The normal form of a client's text "Hello", ping `01`, 300 bytes of binary, text of a euro sign, and Close 1000 "bye".
static CLIENT: [&[u8]; 3] = [
    b"\x81\x85\0\0\0\0Hello\x89\x81\0\0\0\0\x01\x82\xfe\x01\x2c\0\0\0\0",
    STARS,
    b"\x81\x83\0\0\0\0\xe2\x82\xac\x88\x85\0\0\0\0\x03\xe8bye",
];

/// The normal form of the same three data messages of a server.
static SERVER: [&[u8]; 3] = [
    b"\x81\x05Hello\x82\x7e\x01\x2c",
    STARS,
    b"\x81\x03\xe2\x82\xac",
];

/// The normal form of what a server sends.
static SENT: [&[u8]; 3] = [b"\x81\x05Hello\x82\x7e\x01\x2c", STARS, b"\x88\x02\x03\xe8"];

/// The kind of a message, and its length: for a Close, that of its reason.
fn kind_and_len(message: &Message) -> (&'static str, usize) {
    let kind = match message {
        Message::Text(_) => "text",
        Message::Binary(_) => "binary",
        Message::Ping(_) => "ping",
        Message::Pong(_) => "pong",
        Message::Close(_) => "close",
    };
    (kind, message.len())
}

/// Fails unless what a server wrote has these events.
fn expect_same(rt: &impl Abort, alloc: Global, socket: Server, expected: &[&[u8]; 3]) {
    let written = socket.into_inner().writer;
    let expected = expected.concat(alloc).expect(rt, "memory");
    let answer = same(
        alloc,
        &mut Input::lent(written.as_slice()),
        &mut Input::lent(expected.as_slice()),
        Role::Server,
        Limits::greatest(),
    );
    expect_of(rt, matches!(&answer, Ok(Compared::Equal)), &expected);
}

/// Fails unless a server reads the session from these bytes, and another sends its data messages.
fn expect_session(rt: &impl Abort, alloc: Global, bytes: &[u8]) {
    let mut reading = server(alloc, bytes);
    let mut sending = server(alloc, b"");
    for (kind, len) in SESSION {
        let message = reading.read().expect(rt, "a message");
        let (kind_read, len_read) = kind_and_len(&message);
        expect_of(rt, kind_read == kind && len_read == len, &(kind, len_read));
        if message.is_text() || message.is_binary() {
            sending.send(message).expect(rt, "a message is sent");
        }
    }
    expect_same(rt, alloc, sending, &SERVER);
}

#[test]
fn a_server_reads_the_normal_form_and_frames_of_each_size(rt: HostRuntime) {
    let alloc = rt.alloc();
    let bytes = CLIENT.concat(alloc).expect(&rt, "memory");
    expect_session(&rt, alloc, bytes.as_slice());
    for size in [1, 2, 125, 65_536u32] {
        for weave in [false, true] {
            let mut out = Vec::new(alloc);
            let frames = UniformFrames {
                size: size.max(1),
                weave,
                key: Some([1, 2, 3, 4]),
            };
            let answer = recut_uniform(
                alloc,
                &mut Input::lent(bytes.as_slice()),
                &mut Output::new(&mut out),
                Role::Client,
                Limits::greatest(),
                frames,
            );
            expect_of(&rt, matches!(&answer, Ok(RecutAnswer::Done)), &size);
            expect_session(&rt, alloc, out.as_slice());
        }
    }
}

#[test]
fn what_a_server_writes_is_accepted(rt: HostRuntime) {
    let alloc = rt.alloc();
    let mut socket = server(alloc, b"");
    let text = Message::text(alloc, "Hello").expect(&rt, "memory");
    socket.send(text).expect(&rt, "a text is sent");
    let binary = Message::binary(alloc, STARS).expect(&rt, "memory");
    socket.send(binary).expect(&rt, "a binary message is sent");
    let frame = CloseFrame {
        code: CloseCode::Normal,
        reason: Utf8Bytes::from_static(""),
    };
    socket.close(Some(frame)).expect(&rt, "a close is sent");
    expect_same(&rt, alloc, socket, &SENT);
}
