//! Inputs without an end: each call stops at the input limit, with at most one byte more read, and what was due is written.

use crate::expecting::expect_of;
use crate::readers::Endless;
use std::alloc::Global;
use std::process::Abort;
use wsn_canon::{
    Input, Limits, MESSAGE_MAX, Output, Role, Stop, UniformFrames, judge, list, normalise, plan_of,
    recut_uniform,
};

/// What a server sends first, what it then repeats without an end, the input limit, the lines of the frames whose heads come
/// within that, and the normal form of the events.
type Unending = (
    &'static [u8],
    &'static [u8],
    u64,
    &'static [u8],
    &'static [u8],
);

/// Pings, and a tail.
static UNENDING: [Unending; 3] = [
    (
        b"",
        b"\x89\x00",
        7,
        b"0 fin ping - 0\n2 fin ping - 0\n4 fin ping - 0\n",
        b"\x89\x00\x89\x00\x89\x00",
    ),
    (b"\x88\x00", b"\x00", 9, b"0 fin close - 0\n", b"\x88\x00"),
    (
        b"\x88\x00",
        b"\x00",
        4_099,
        b"0 fin close - 0\n",
        b"\x88\x00",
    ),
];

/// Fails unless a call stopped at the limit, and read and wrote no more than it should.
fn expect_stopped<T>(
    rt: &impl Abort,
    answer: &Result<T, Stop>,
    reader: &Endless,
    limit: u64,
    is_written: bool,
) {
    let is_stopped = matches!(answer, Err(Stop::InputLimit));
    let is_read = reader.given as u64 <= limit.saturating_add(1);
    expect_of(
        rt,
        is_stopped && is_read && is_written,
        &(limit, reader.given, is_stopped, is_written),
    );
}

/// Fails unless each call stops at the limit of an input without an end.
fn expect_each_stopped(rt: &impl Abort, alloc: Global, unending: &Unending) {
    let (first, again, limit, lines, normal) = *unending;
    let limits = Limits::new(MESSAGE_MAX, limit).expect(rt, "limits in range");
    let mut reader = Endless::new(first, again);
    let answer = judge(&mut Input::new(&mut reader), Role::Server, limits);
    expect_stopped(rt, &answer, &reader, limit, true);
    let (mut reader, mut out) = (Endless::new(first, again), Vec::new(alloc));
    let (mut input, mut output) = (Input::new(&mut reader), Output::new(&mut out));
    let answer = list(&mut input, &mut output, Role::Server, limits);
    expect_stopped(rt, &answer, &reader, limit, out.as_slice() == lines);
    let (mut reader, mut out) = (Endless::new(first, again), Vec::new(alloc));
    let (mut input, mut output) = (Input::new(&mut reader), Output::new(&mut out));
    let answer = normalise(alloc, &mut input, &mut output, Role::Server, limits);
    expect_stopped(rt, &answer, &reader, limit, out.as_slice() == normal);
    let mut reader = Endless::new(first, again);
    let answer = plan_of(alloc, &mut Input::new(&mut reader), Role::Server, limits);
    expect_stopped(rt, &answer, &reader, limit, true);
    let (mut reader, mut out) = (Endless::new(first, again), Vec::new(alloc));
    let (mut input, mut output) = (Input::new(&mut reader), Output::new(&mut out));
    let frames = UniformFrames {
        size: 2,
        weave: false,
        key: None,
    };
    let answer = recut_uniform(alloc, &mut input, &mut output, Role::Server, limits, frames);
    expect_stopped(rt, &answer, &reader, limit, out.is_empty());
}

#[test]
fn an_input_without_an_end_stops_at_its_limit(rt: HostRuntime) {
    for unending in UNENDING.iter() {
        expect_each_stopped(&rt, rt.alloc(), unending);
    }
}
