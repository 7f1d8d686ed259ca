//! The calls in rooms of every size.

use crate::answer::Answer;
use crate::calls::{wsn_page_redact, wsn_page_redact_stream, wsn_page_show, wsn_page_show_stream};
use crate::settings::Settings;
use std::process::Abort;

/// More than what is shown and written below.
const LARGE: usize = 2_048;

const EVENTS: Settings = Settings {
    limit: 16_777_216,
    frames: 0,
    lengths: 0,
    detail: 0,
    role: 1,
};

const FRAMES: Settings = Settings {
    limit: 16_777_216,
    frames: 0,
    lengths: 0,
    detail: 1,
    role: 1,
};

/// A server's text of 120 quotation marks, each of which takes two characters in an object, after an empty ping.
const STREAM: &[u8] = b"\x89\x00\x81\x78\
\"\"\"\"\"\"\"\"\"\"\"\"\"\"\"\"\"\"\"\"\"\"\"\"\"\"\"\"\"\"\"\"\"\"\"\"\"\"\"\"\
\"\"\"\"\"\"\"\"\"\"\"\"\"\"\"\"\"\"\"\"\"\"\"\"\"\"\"\"\"\"\"\"\"\"\"\"\"\"\"\"\
\"\"\"\"\"\"\"\"\"\"\"\"\"\"\"\"\"\"\"\"\"\"\"\"\"\"\"\"\"\"\"\"\"\"\"\"\"\"\"\"";

/// The same as a capture, after a comment with hidden characters.
const CAPTURE: &[u8] = b"#\x1b[31m \xe2\x80\xae \"\\\n\
S 89008178\
22222222222222222222222222222222222222222222222222222222222222222222222222222222\
22222222222222222222222222222222222222222222222222222222222222222222222222222222\
22222222222222222222222222222222222222222222222222222222222222222222222222222222\n";

/// A capture with a path and a server's text of two letters and a digit.
const SAID: &[u8] = b"# path: /chat\nS 810348\nS 6931\n";

/// The same without what was said.
const REDACTED: &[u8] = b"#\nS 810358\nS 7830\n";

#[derive(Clone, Copy)]
enum Call {
    Show,
    ShowStream,
    Redact,
    RedactStream,
}

/// One of the calls, over its input, with a scratch and a room of some size.
fn called(
    settings: &Settings,
    call: Call,
    scratch: &mut [u8],
    output: &mut [u8],
    message: &mut [u8],
) -> Answer {
    match call {
        Call::Show => wsn_page_show(settings, CAPTURE, scratch, output, message),
        Call::ShowStream => wsn_page_show_stream(settings, STREAM, scratch, output, message),
        Call::Redact => wsn_page_redact(settings, CAPTURE, scratch, output, message),
        Call::RedactStream => wsn_page_redact_stream(settings, STREAM, scratch, output, message),
    }
}

/// Fails unless a call gives the longest prefix of its text that fits into rooms of every size, and then reports that a
/// write has failed. With enough room the call has this status.
fn expect_rooms(rt: &impl Abort, settings: &Settings, call: Call, status: u8) {
    let mut scratch = [0; LARGE];
    let mut message = [0; 32];
    let mut whole = [0; LARGE];
    let answer = called(settings, call, &mut scratch, &mut whole, &mut message);
    assert_eq!(rt; (answer.status, answer.message), (status, 0));
    let text = whole.get(..answer.output).expect(rt, "a text that fits");
    assert!(rt; text.len() > 100);
    for size in 0..text.len() {
        let mut room = [0; LARGE];
        let scratch = scratch
            .get_mut(..size)
            .expect(rt, "a scratch that is larger");
        let output = room.get_mut(..size).expect(rt, "a room that is larger");
        let answer = called(settings, call, scratch, output, &mut message);
        assert_eq!(rt; (answer.output, answer.status), (size, 2));
        let output = room.get(..size).expect(rt, "a room that is larger");
        let prefix = text.get(..size).expect(rt, "a prefix of the text");
        assert_eq!(rt; output, prefix);
        let said = message
            .get(..answer.message)
            .expect(rt, "a message that fits");
        assert_eq!(rt; said, b"write failed\n".as_slice());
    }
}

/// The connection of the capture is still open, with status 1.
#[test]
fn a_capture_fills_every_room(rt: HostRuntime) {
    expect_rooms(&rt, &EVENTS, Call::Show, 1);
    expect_rooms(&rt, &FRAMES, Call::Show, 1);
}

#[test]
fn a_stream_fills_every_room(rt: HostRuntime) {
    expect_rooms(&rt, &EVENTS, Call::ShowStream, 0);
    expect_rooms(&rt, &FRAMES, Call::ShowStream, 0);
}

#[test]
fn a_redaction_fills_every_room(rt: HostRuntime) {
    expect_rooms(&rt, &EVENTS, Call::Redact, 0);
    expect_rooms(&rt, &EVENTS, Call::RedactStream, 0);
}

#[test]
fn what_was_said_is_left_out(rt: HostRuntime) {
    let (mut scratch, mut output, mut message) = ([0; 64], [0; 64], [0; 32]);
    let answer = wsn_page_redact(&EVENTS, SAID, &mut scratch, &mut output, &mut message);
    assert_eq!(rt; (answer.status, answer.message), (0, 0));
    assert_eq!(rt; output.get(..answer.output), Some(REDACTED));
    let stream = b"\x81\x03Hi1";
    let answer = wsn_page_redact_stream(&EVENTS, stream, &mut scratch, &mut output, &mut message);
    assert_eq!(rt; (answer.status, answer.message), (0, 0));
    assert_eq!(rt;
        output.get(..answer.output),
        Some(b"\x81\x03Xx0".as_slice())
    );
}
