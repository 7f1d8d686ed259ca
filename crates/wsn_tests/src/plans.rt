//! Plans: the text that is written of a text's plan, and plans by a size of given events.

use crate::expecting::expect_of;
use wsn_canon::{
    Event, Form, Kind, Output, Role, Step, UniformFrames, read_plan, uniform, write_plan,
};

/// A text, and the text that is written of its plan.
static PLANS: [(&str, &str); 9] = [
    ("", ""),
    (
        "piece 3 -\ncontrol -\nlast -",
        "piece 3 -\ncontrol -\nlast -\n",
    ),
    ("last 37FA213D\n", "last 37fa213d\n"),
    ("piece 3 - two", "piece 3 - two\n"),
    ("last aBcDeF09 eight\n", "last abcdef09 eight\n"),
    ("piece 0 -\n", "piece 0 -\n"),
    (
        "piece 18446744073709551615 ffffffff eight\n",
        "piece 18446744073709551615 ffffffff eight\n",
    ),
    ("control 00000001\n", "control 00000001\n"),
    (
        "last -\nlast -\nlast -\nlast -\n",
        "last -\nlast -\nlast -\nlast -\n",
    ),
];

#[test]
fn plans_are_read_and_written(rt: HostRuntime) {
    for (text, expected) in PLANS.iter() {
        let plan = read_plan(rt.alloc(), text.as_bytes()).expect(&rt, "a plan's text");
        let mut written = Vec::new(rt.alloc());
        let answer = write_plan(&mut Output::new(&mut written), &plan);
        expect_of(
            &rt,
            answer == Ok(()) && written.as_slice() == expected.as_bytes(),
            text,
        );
    }
}

/// A size, whether to interleave, and the steps of a plan of a server's ping and "Hello", each without a key: a piece's
/// length, or `None` for the ping's step. The last step is `Last`.
static UNIFORM: [(u32, bool, &[Option<u64>]); 4] = [
    (3, true, &[Some(3), None]),
    (3, false, &[None, Some(3)]),
    (2, true, &[Some(2), None, Some(2)]),
    (5, true, &[None]),
];

/// A step without a key, in the shortest form.
fn step_of(length: &Option<u64>) -> Step {
    match *length {
        Some(len) => Step::Piece {
            len,
            key: None,
            form: Form::Shortest,
        },
        None => Step::Control { key: None },
    }
}

#[test]
fn events_are_planned_by_a_size(rt: HostRuntime) {
    let alloc = rt.alloc();
    let hello = b"Hello".to_vec(alloc).expect(&rt, "memory");
    let mut events: Vec<Event> = Vec::new(alloc);
    events
        .push(Event::Ping(Default::default()))
        .expect(&rt, "memory");
    events
        .push(Event::Message(Kind::Text, hello))
        .expect(&rt, "memory");
    for (size, weave, lengths) in UNIFORM {
        let frames = UniformFrames {
            size: size.max(1),
            weave,
            key: None,
        };
        let plan = uniform(alloc, events.as_slice(), Role::Server, frames).expect(&rt, "memory");
        let mut steps = Vec::new(alloc);
        for length in lengths.iter() {
            steps.push(step_of(length)).expect(&rt, "memory");
        }
        steps
            .push(Step::Last {
                key: None,
                form: Form::Shortest,
            })
            .expect(&rt, "memory");
        expect_of(&rt, plan.steps() == steps.as_slice(), &plan.steps());
    }
}
