//! What a caller of `Input` and `Output` sees after a read or write that failed, and an input of bytes in memory.

use crate::expecting::{expect, expect_of};
use crate::readers::Chopped;
use std::io::ErrorKind;
use wsn_canon::{Input, Output};

/// The error takes no byte, and the reader is called again for what comes after it.
#[test]
fn a_failed_read_stays_failed(rt: HostRuntime) {
    for kind in [ErrorKind::Interrupted, ErrorKind::Other] {
        let mut reader = Chopped::stumbling(b"ab", 2, 1, kind);
        let mut input = Input::new(&mut reader);
        let mut into = [0; 4];
        expect_of(
            &rt,
            input.read(&mut into) == Some(1) && !input.failed(),
            &into,
        );
        expect_of(&rt, input.read(&mut into) == None && input.failed(), &into);
        expect_of(
            &rt,
            input.read(&mut into) == Some(1) && input.failed(),
            &into,
        );
        expect_of(
            &rt,
            input.read(&mut into) == Some(0) && input.failed(),
            &into,
        );
        expect_of(&rt, into[0] == b'b', &into);
    }
}

#[test]
fn bytes_in_memory_never_fail(rt: HostRuntime) {
    let mut input = Input::lent(b"Hello".as_slice());
    let mut into = [0; 4];
    expect_of(
        &rt,
        input.read(&mut into) == Some(4) && into == *b"Hell",
        &into,
    );
    expect_of(
        &rt,
        input.read(&mut into) == Some(1) && into[0] == b'o',
        &into,
    );
    expect(&rt, input.read(&mut into) == Some(0) && !input.failed());
    expect(&rt, input.reader().is_none());
}

#[test]
fn a_failed_write_stays_failed(rt: HostRuntime) {
    let mut room = [0; 4];
    let mut full: &mut [u8] = &mut room;
    let mut output = Output::new(&mut full);
    expect(&rt, output.put(b"ab") && !output.failed());
    expect(&rt, !output.put(b"cdef") && output.failed());
    expect(&rt, output.put(b"") && output.failed());
    expect_of(&rt, room == *b"abcd", &room);
}
