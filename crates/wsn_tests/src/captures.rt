//! Captures whose lines are passed one by one, under input limits, for which no command line asks; and a side of a capture
//! as a reader.

use crate::expecting::expect_of;
use crate::readers::Chopped;
use std::alloc::Global;
use std::io::{ErrorKind, Read};
use std::process::Abort;
use wsn_canon::{
    Capture, CaptureStop, Input, Limits, LineFault, MESSAGE_MAX, Outcome, Report, Role, Side,
    SideReader, Stop, judge_capture, same,
};

/// An input limit, and lines with their faults.
type Lines = (u64, &'static [(&'static [u8], Option<LineFault>)]);

/// A line past the limit leaves its side unchanged, and the other side has its own limit. With a limit of 0 a side may still
/// have its end mark. Bytes after a refusal are not examined, but they count. An LF is a byte of the line.
static LINES: [Lines; 4] = [
    (
        1,
        &[
            (b"S 8100", Some(LineFault::InputLimit)),
            (b"S c1", None),
            (b"S 00", Some(LineFault::InputLimit)),
            (b"C c1", None),
            (b"S.", None),
            (b"S 8100", Some(LineFault::AfterEnd)),
        ],
    ),
    (0, &[(b"C 00", Some(LineFault::InputLimit)), (b"C.", None)]),
    (
        3,
        &[
            (b"S c1", None),
            (b"S 0000", None),
            (b"S 00", Some(LineFault::InputLimit)),
        ],
    ),
    (
        8,
        &[
            (b"C.\n", Some(LineFault::BadForm)),
            (b"C 81\n00", Some(LineFault::BadHex)),
            (b"# a\nb", None),
            (b"\r", None),
            (b"C 88820000000003e8", None),
            (b"S 8800", None),
        ],
    ),
];

/// What is reported after the last of these lines.
const REPORT: Report = Report {
    client: Side::Closed(Some(1000)),
    server: Side::Closed(None),
    first: Some(Role::Client),
    echo: Some(false),
    client_sees: Some(1005),
    server_sees: Some(1000),
    outcome: Outcome::Complete,
};

/// The greatest limits, but for this input limit.
fn limits_of(rt: &impl Abort, input: u64) -> Limits {
    Limits::new(MESSAGE_MAX, input).expect(rt, "limits in range")
}

#[test]
fn lines_are_passed_one_by_one(rt: HostRuntime) {
    let mut reported = None;
    for (limit, lines) in LINES.iter() {
        let mut capture = Capture::new(limits_of(&rt, *limit));
        for (line, fault) in lines.iter() {
            let found = capture.line(line).err();
            expect_of(&rt, found == *fault, &(limit, line, found));
        }
        reported = Some(capture.report());
    }
    expect_of(&rt, reported == Some(REPORT), &reported);
    let text = b"C 81\nS 81\nS 00\n".as_slice();
    let judged = judge_capture(&mut Input::new(text), limits_of(&rt, 1));
    let stop = judged.err().expect(&rt, "a line past the limit");
    let words = format!(in rt.alloc(); "{stop}").expect(&rt, "memory");
    expect_of(&rt, words.as_str() == "line 3: input-limit", &words);
}

/// A Close, exactly as long as the input limit, and one byte past it.
const LONG: &[u8] = b"\x88\x02\x03\xe8\x81";

/// Either stream may be too long.
#[test]
fn same_stops_at_the_input_limit(rt: HostRuntime) {
    for (first, second) in [(LONG, &LONG[..4]), (&LONG[..4], LONG)] {
        let limits = limits_of(&rt, 4);
        let (mut first, mut second) = (Chopped::new(first, 2), Chopped::new(second, 2));
        let answer = same(
            rt.alloc(),
            &mut Input::new(&mut first),
            &mut Input::new(&mut second),
            Role::Server,
            limits,
        );
        expect_of(&rt, answer == Err(Stop::InputLimit), &answer);
    }
}

/// Lines of both sides, in capitals, with CR LF, and with no LF at the end.
const BOTH: &[u8] = b"# both\nC 0a0B\r\nS 0C\n\nS.\r\n#S ff\nC 0d0e0f\n\r\nC 10";

const CLIENT: &[u8] = &[0x0a, 0x0b, 0x0d, 0x0e, 0x0f, 0x10];

/// Reads a side in reads of two bytes, and returns the kind of the failure that came before the end, if one did.
fn read_on(
    rt: &impl Abort,
    side: &mut SideReader<Chopped>,
    taken: &mut Vec<u8>,
) -> Option<ErrorKind> {
    let mut bytes = [0; 2];
    for _ in 0..BOTH.len() {
        match side.read(&mut bytes) {
            Ok(0) => return None,
            Ok(count) => taken
                .extend_from_slice(&bytes[..count])
                .expect(rt, "memory"),
            Err(error) => return Some(error.kind()),
        }
    }
    None
}

/// Fails unless a read of the text that fails once is passed on as it is, and loses nothing: a later read goes on.
fn expect_nothing_lost(rt: &impl Abort, alloc: Global, left: usize, at_most: usize) {
    let kind = ErrorKind::Interrupted;
    let reader = Chopped::stumbling(BOTH, at_most, left, kind);
    let mut side = SideReader::new(reader, Role::Client);
    let mut taken = Vec::new(alloc);
    let failed = read_on(rt, &mut side, &mut taken);
    let is_stopped = failed == Some(kind) && side.stop() == Some(CaptureStop::Read);
    let is_prefix = CLIENT.starts_with(taken.as_slice());
    let ended = read_on(rt, &mut side, &mut taken);
    let is_whole = ended.is_none() && taken.as_slice() == CLIENT;
    expect_of(
        rt,
        is_stopped && is_prefix && is_whole,
        &(left, at_most, failed, taken),
    );
}

#[test]
fn a_failed_read_loses_nothing_of_a_side(rt: HostRuntime) {
    for left in 0..=BOTH.len() {
        for at_most in [1, 2, 3, usize::MAX] {
            expect_nothing_lost(&rt, rt.alloc(), left, at_most);
        }
    }
}
