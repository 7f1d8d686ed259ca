//! Verdicts and comparisons.
use super::Entry;

/// The words of verdicts.
pub fn verdict_entries() -> [&'static Entry; 5] {
    [
        &Entry {
            words: &["accepted"],
            text: "\
accepted USED tail TAIL unfinished SIZE: every frame keeps the rules, up to the
end of the input or to a Close. USED is the bytes up to the end of the last
frame, TAIL the bytes after a Close, and SIZE the bytes of a message that the
Close interrupts (- if there is none).
RFC 6455, 5.5.1: after its Close an endpoint sends no more data. wsn accepts a
stream without one, too; 'wsn closing' says which side sent one.
'accepted 0' is an empty input: nothing was recorded, or sed or tshark, before
wsn in the pipeline, let nothing through.
Next: if the session failed all the same, judge the other side's bytes, and run
'wsn closing' on a capture of both sides.
",
        },
        &Entry {
            words: &["cut"],
            text: "\
cut USED: valid so far, but incomplete. The input, of USED bytes, ends inside a
frame or between the fragments of a message. In a report: the side's direction
of the connection ended there.
RFC 6455, 5.2 and 5.4: the length says where a frame ends, FIN where a message.
Usual causes: the recording stopped or lost packets; the sender died while it
sent; a length is wrong, so that all that follows counts as payload, and a real
receiver waits forever.
Next: 'wsn show CAPTURE' prints what is unfinished, and how many bytes it lacks.
Is the length what the sender meant? 'wsn frames' lists its frames.
",
        },
        &Entry {
            words: &["refused"],
            text: "\
refused OFFSET REASON CODE: the stream breaks a rule. The byte at OFFSET,
counted from 0, is the first that proves it; no later byte can repair it.
RFC 6455, 7.1.7: the receiver must fail the connection and should send a Close;
CODE is the one that fits (7.4.1). Real receivers often send another or none:
Chromium closes with 1002 for bad text, too.
Usual causes: those of REASON. A refusal at offset 0 or 1 is mostly a matter of
the recording: compression, an HTTP head left on, the wrong --role.
Next: 'wsn explain REASON', for instance 'wsn explain reserved-bits'.
",
        },
        &Entry {
            words: &["tail"],
            text: "\
tail TAIL: the number of bytes after the Close. wsn counts them and doesn't read
them.
RFC 6455, 5.5.1: an endpoint sends no data frame after its Close; 1.4: the peer
discards what comes after it.
Usual causes: one task goes on sending while another closes; a handler answers a
message that it had read before; two places in a program each send a Close.
Next: 'wsn show CAPTURE' prints the first of these bytes (of a stream, tail -c
TAIL FILE | xxd). They harm no correct receiver, but their messages are lost:
stop or drain the senders before the Close.
",
        },
        &Entry {
            words: &["unfinished"],
            text: "\
unfinished SIZE, in a verdict: the Close interrupts a message, of which SIZE
bytes had come; - says that no message was open. In 'wsn show': 'wsn explain
lacks'. Alone, from 'wsn plan': there is no plan, because the Close interrupts a
message, and a plan has no step for that.
RFC 6455, 5.5.1: an endpoint may send the rest of its message before its Close;
it needn't. The receiver drops the fragments.
Usual causes: a program that streams a message and is stopped halfway; a task
that sends a Close while another sends fragments.
Next: 'wsn show CAPTURE' prints what came of the message, before the Close.
",
        },
    ]
}

/// The words of comparisons.
pub fn comparison_entries() -> [&'static Entry; 4] {
    [
        &Entry {
            words: &["equal"],
            text: "\
equal: both streams are accepted and mean the same: the same messages, pings,
pongs and Closes, in the same order, with the same payloads.
RFC 6455, 5.4: frames have no meaning of their own, and a proxy may split or
join them if no extension is in use; 5.3: masking keys are random. So fragments,
keys, encodings of lengths and the bytes after a Close don't count.
Next: to compare how they are framed, run diff on the output of 'wsn plan' (or
'wsn frames') for each.
",
        },
        &Entry {
            words: &["different"],
            text: "\
different K: both streams are accepted, and event K is the first that differs.
An event is a message, a ping, a pong or a Close; K counts from 0. One stream
may also have ended before event K.
Usual causes: a keepalive that came earlier or later in one run (--without
ping,pong leaves these out, and K counts the rest); a timestamp or an identifier
in a message; another close code or reason.
Next: run it again with --view 48: it shows event K of both, with the offset of
its first frame, and where they differ ('wsn explain differ-at'). To see all
differences, run diff on what 'wsn show --role R' prints of each stream.
",
        },
        &Entry {
            words: &["differ-at"],
            text: "\
differ-at PLACE VIEW VIEW: both streams have the event, and the byte at PLACE of
its payload, from 0, is the first that differs. If one payload is the beginning
of the other, PLACE is its length. Each VIEW is a payload from 8 bytes before
PLACE on: text quoted, all else in hexadecimal; '..' where bytes are left out.
Without this line only the kinds of event differ, or one stream has no event K.
Usual causes: those of 'different'. Characters that look alike: \\u043e is a
Cyrillic o. Invisible ones: \\u200b, or \\u0301 after a letter.
Next: 'wsn payload --at OFFSET' writes the whole payload.
",
        },
        &Entry {
            words: &["first", "second"],
            text: "\
first VERDICT, second VERDICT, from 'wsn same': that stream isn't accepted, so
there is nothing to compare. 'second' says that the first one is accepted.
first V, from 'wsn closing': whose Close came first, client or server; - if no
Close came. It is the order of the capture's lines: with a proxy or a pcap in
between, two Closes that crossed on the network may come in either order.
RFC 6455, 5.5.1: either side may begin; the other answers with a Close.
Next: explain the verdict's first word, such as 'wsn explain cut'. In a report:
the side that closed first has the reason, so read its log.
",
        },
    ]
}
