//! The scanner: what each call consumes and finds.

use crate::expecting::{expect, expect_of};
use std::alloc::Global;
use std::process::Abort;
use wsn_canon::{Limits, Part, Role, Scan, Taken};

/// A call of a scanner: how many bytes it consumes, what it finds, and the payload of the part that it takes.
type Call = (usize, &'static str, &'static [u8]);

/// A chunk of a server's stream, the calls until it is consumed or refused, and one call more.
type Chunk = (&'static [u8], &'static [Call]);

/// Streams of a server in chunks.
static STREAMS: [(&str, &[Chunk]); 9] = [
    (
        "two fragments and a ping between them",
        &[(
            b"\x01\x03Hel\x89\x00\x80\x02lo",
            &[
                (5, "whole frame", b"Hel"),
                (2, "whole frame", b""),
                (4, "whole frame", b"lo"),
                (0, "more", b""),
            ],
        )],
    ),
    (
        "a Close and three bytes after it",
        &[(
            b"\x88\x02\x03\xe8\x81\x01A",
            &[
                (4, "whole frame", b"\x03\xe8"),
                (3, "closed", b""),
                (0, "closed", b""),
            ],
        )],
    ),
    (
        "a head that ends in its length",
        &[(b"\x82\x7e\x00", &[(3, "more", b""), (0, "more", b"")])],
    ),
    (
        "a reserved bit after a ping",
        &[(
            b"\x89\x00\xf0\x00",
            &[
                (2, "whole frame", b""),
                (1, "refused", b""),
                (0, "refused", b""),
            ],
        )],
    ),
    (
        "a bad byte before others of its frame",
        &[(
            b"\x81\x7e\x01\x00A\xffA",
            &[
                (4, "start of a frame", b""),
                (2, "refused", b""),
                (0, "refused", b""),
            ],
        )],
    ),
    (
        "a character that an empty fragment cuts off",
        &[(
            b"\x01\x01\xe2\x80\x00",
            &[
                (3, "whole frame", b"\xe2"),
                (2, "refused", b""),
                (0, "refused", b""),
            ],
        )],
    ),
    ("nothing", &[(b"", &[(0, "more", b"")])]),
    (
        "a frame in one chunk of two bytes and five of one",
        &[
            (
                b"\x82\x05",
                &[(2, "start of a frame", b""), (0, "more", b"")],
            ),
            (b"A", &[(1, "more of a frame", b"A"), (0, "more", b"")]),
            (b"B", &[(1, "more of a frame", b"B"), (0, "more", b"")]),
            (b"C", &[(1, "more of a frame", b"C"), (0, "more", b"")]),
            (b"D", &[(1, "more of a frame", b"D"), (0, "more", b"")]),
            (b"E", &[(1, "end of a frame", b"E"), (0, "more", b"")]),
        ],
    ),
    (
        "a frame in three chunks, and a ping",
        &[
            (
                b"\x82\x05AB",
                &[(4, "start of a frame", b"AB"), (0, "more", b"")],
            ),
            (b"CD", &[(2, "more of a frame", b"CD"), (0, "more", b"")]),
            (
                b"E\x89\x00",
                &[
                    (1, "end of a frame", b"E"),
                    (2, "whole frame", b""),
                    (0, "more", b""),
                ],
            ),
        ],
    ),
];

fn words_of(found: Taken, part: &Part) -> &'static str {
    match (found, part.begins, part.ends) {
        (Taken::More, _, _) => "more",
        (Taken::Closed, _, _) => "closed",
        (Taken::Refused, _, _) => "refused",
        (Taken::Part, true, true) => "whole frame",
        (Taken::Part, true, false) => "start of a frame",
        (Taken::Part, false, true) => "end of a frame",
        (Taken::Part, false, false) => "more of a frame",
    }
}

/// Fails unless the calls with a chunk consume and find what they should.
fn expect_calls(rt: &impl Abort, alloc: Global, scan: &mut Scan, chunk: &Chunk, name: &str) {
    let mut bytes = chunk.0.to_vec(alloc).expect(rt, "memory");
    let mut at = 0usize;
    for call in chunk.1.iter() {
        let from = at.min(bytes.len());
        let rest = &mut bytes[from..];
        expect(rt, rest.len() as u64 <= scan.room());
        let mut part = Part::new();
        let (taken, found) = scan.next(rest, &mut part);
        let words = words_of(found, &part);
        expect_of(rt, taken == call.0 && words == call.1, &(name, call, words));
        if let Taken::Part = found {
            let payload = rest.get(part.start..taken);
            expect_of(rt, payload == Some(call.2), &(name, call, payload));
        }
        at = at.saturating_add(taken);
    }
}

#[test]
fn each_call_consumes_what_it_can(rt: HostRuntime) {
    for (name, chunks) in STREAMS.iter() {
        let mut scan = Scan::new(Role::Server, Limits::greatest());
        for chunk in chunks.iter() {
            expect_calls(&rt, rt.alloc(), &mut scan, chunk, name);
        }
    }
}
