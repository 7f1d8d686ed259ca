//! The steps of a plan, and why a plan doesn't fit.
use super::Entry;

/// The steps of a plan, and why a plan doesn't fit.
pub fn plan_entries() -> [&'static Entry; 13] {
    [
        &Entry {
            words: &["piece"],
            text: "\
piece N KEY: a step of a plan, for a frame without FIN that has N bytes of a
message. More of the message follows.
RFC 6455, 5.4: a message's fragments may be of any size, also 0. KEY is the
masking key in hexadecimal for a client, - for a server (5.1); after it, 'two'
or 'eight' is the form of a length in more bytes than it needs.
Next: 'wsn plan --role R < a.bin' prints the plan of a stream; 'wsn recut
--role R --plan a.plan < b.bin' splits another stream by it.
",
        },
        &Entry {
            words: &["last"],
            text: "\
last KEY: a step of a plan, for the frame with FIN that ends a message. It has
what the steps 'piece' before it left of the message, or all of it.
RFC 6455, 5.4: the last or only frame of a message has FIN. KEY is the masking
key for a client, - for a server; after it, 'two' or 'eight' is the form of a
length in more bytes than it needs.
Next: a plan has one 'last' for each message of the stream.
",
        },
        &Entry {
            words: &["control"],
            text: "\
control KEY: a step of a plan, for a ping, pong or Close.
RFC 6455, 5.4 and 5.5: a control frame is never fragmented; it may come between
the fragments of a message. KEY is the masking key for a client, - for a server.
Next: a plan has one 'control' for each ping, pong and Close of the stream, in
the order in which they come among its messages.
",
        },
        &Entry {
            words: &["fault"],
            text: "\
fault STEP WORD, from 'wsn recut': the plan doesn't fit the messages and control
frames of the stream, and nothing is written. STEP is the plan's line, counted
from 0, or the number of its lines if there are too few. WORD says why.
An event is a message, a ping, a pong or a Close. Events end in order: each
'last' ends the next message, each 'control' is the next control frame.
Usual causes: a plan made from another stream, or edited by hand.
Next: 'wsn explain WORD'. Line STEP + 1: sed -n '5p' a.plan for 'fault 4 ..'.
Compare with 'wsn normal --role R < FILE | wsn frames --role R', which prints a
line for each event.
",
        },
        &Entry {
            words: &["key-mismatch"],
            text: "\
key-mismatch: this step has a key and --role is server, or it has none (-) and
--role is client.
RFC 6455, 5.1: a client masks every frame, a server none.
Usual causes: the plan was made from the other side's stream; the wrong --role.
Next: to use a server's plan for a client, put a key into each line:
  sed 's/ -/ 00000000/' server.plan > client.plan
The other way round:
  sed -E 's/ [0-9a-fA-F]{8}( two| eight)?$/ -\\1/' client.plan > server.plan
",
        },
        &Entry {
            words: &["steps-left"],
            text: "\
steps-left: every event of the stream has its last step already, and the plan
goes on. STEP is the first line too many.
Usual causes: the plan was made from a longer stream; the end of this stream is
missing; a line was doubled by hand.
Next: count the events: 'wsn normal --role R < FILE | wsn frames --role R' has a
line for each. In the plan, count the lines 'last' and 'control':
  grep -c -v '^piece' a.plan
",
        },
        &Entry {
            words: &["no-message"],
            text: "\
no-message: this step is a 'piece' or 'last', which need a message, but only
control frames are left in the stream.
Usual causes: the plan was made from a stream with more messages; a line was
doubled by hand.
Next: 'wsn normal --role R < FILE | wsn frames --role R' lists the events, in
order: each needs its own 'last' (text, binary) or 'control'.
",
        },
        &Entry {
            words: &["piece-too-long"],
            text: "\
piece-too-long: this 'piece' has more bytes than are left of its message.
Usual causes: the plan was made from a stream with longer messages; a 'last' is
missing before this line, so that it counts for the message before.
Next: 'wsn normal --role R < FILE | wsn frames --role R' prints each message's
size. The sizes of its pieces together are at most that; the step 'last' has
the rest, which may be 0 bytes.
",
        },
        &Entry {
            words: &["too-many-pieces"],
            text: "\
too-many-pieces: with this 'piece' and its 'last' the message would have more
frames than --frames allows. Without --frames there is no maximum.
RFC 6455, 10.4: a receiver should limit what one message can cost it.
Next: raise --frames or leave it out; or split less: a larger --size, or fewer
lines 'piece' before this message's 'last'.
",
        },
        &Entry {
            words: &["not-a-control"],
            text: "\
not-a-control: this step is a 'control', but the next event of the stream is a
message.
RFC 6455, 5.4: a control frame may come between the fragments of a message. Then
it ends before the message does, so its event comes first.
Usual causes: the plan was made from another stream, with one more ping or pong
here.
Next: 'wsn normal --role R < FILE | wsn frames --role R' lists the events in
their order; the lines 'last' and 'control' of the plan must have the same.
",
        },
        &Entry {
            words: &["not-a-message"],
            text: "\
not-a-message: this step is a 'last', but the next event of the stream is a
ping, pong or Close.
RFC 6455, 5.4: a control frame that comes between the fragments of a message
ends before the message does, so its 'control' comes before the 'last'.
Usual causes: the plan was made from another stream, with one ping or pong fewer
here.
Next: 'wsn normal --role R < FILE | wsn frames --role R' lists the events in
their order; the lines 'last' and 'control' of the plan must have the same.
",
        },
        &Entry {
            words: &["wrong-form"],
            text: "\
wrong-form: the length of this step's frame may not be encoded as it says: 'two'
with more than 125 bytes, 'eight' with more than 65535, or either one without
--lengths any.
RFC 6455, 5.2: a length must be encoded in the fewest bytes.
Usual causes: 'wsn plan' ran with --lengths any and 'wsn recut' without it; the
plan was made from a stream with shorter messages.
Next: give both commands --lengths any, or remove 'two' or 'eight' here.
",
        },
        &Entry {
            words: &["events-left"],
            text: "\
events-left: the plan ends, and the stream has more messages or control frames.
STEP is the number of the plan's lines.
Usual causes: the plan was made from a shorter stream; its file is truncated.
Next: count the events: 'wsn normal --role R < FILE | wsn frames --role R' has a
line for each. In the plan, count the lines 'last' and 'control':
  grep -c -v '^piece' a.plan
",
        },
    ]
}
