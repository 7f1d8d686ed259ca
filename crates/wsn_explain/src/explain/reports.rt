//! The words of a report on how a connection closed.
use super::Entry;

/// The words of a report, but for outcomes.
pub fn report_entries() -> [&'static Entry; 7] {
    [
        &Entry {
            words: &["client", "server"],
            text: "\
client V, server V: how the bytes that this endpoint sent end. V is one of
  closed CODE                 a Close with this code, or - without one
  refused OFFSET REASON CODE  they break a rule
  ended                       no Close; its direction ended between messages
  cut                         no Close; it ended inside a frame or a message
  running                     none of these: more may come
OFFSET counts this side's bytes alone, from 0. After 'first' it is the side that
closed first.
Next: explain the word, for instance 'wsn explain ended'.
",
        },
        &Entry {
            words: &["closed"],
            text: "\
closed CODE: what this side sent is accepted and has a Close with this code, or
- for a Close without one.
RFC 6455, 5.5.1: the other side answers with a Close if it hasn't sent one, and
this side sends no more data.
Next: 'wsn explain CODE', for instance 'wsn explain 1001'. 'wsn judge' counts
the bytes after the Close as the tail.
",
        },
        &Entry {
            words: &["ended"],
            text: "\
ended: what this side sent is accepted, it sent no Close, and its direction of
the TCP connection ended between two messages.
RFC 6455, 7.1.5: the other application sees 1006.
Usual causes: the process ended or was killed; a proxy or load balancer dropped
an idle connection; the program closed the socket instead of the WebSocket.
Next: 'wsn explain abnormal'.
",
        },
        &Entry {
            words: &["running"],
            text: "\
running: nothing is wrong with what this side sent, it sent no Close, and the
capture has no end mark for it (C. or S.).
Usual causes: the recording stopped before the session did; packets are missing
from here on; this side had nothing to send.
Next: 'wsn show CAPTURE' prints what this side said last and what is unfinished,
and the comments, where recipes/pcap2wsn (wsn-pcap) reports missing bytes.
",
        },
        &Entry {
            words: &["echo", "yes", "no"],
            text: "\
echo yes: both Closes have the same code, or both have none. echo no: the codes
differ. echo -: not both sides sent a Close that counts.
RFC 6455, 5.5.1: an endpoint typically echoes the code that it received. It
isn't required to, so 'no' breaks no rule.
Usual causes of 'no': both sides closed at the same time; a library that always
answers 1000, or without a code; an application with a code of its own.
Next: 'no' means that the two sides log different codes. client-sees and
server-sees have them; trust the side that closed first.
",
        },
        &Entry {
            words: &["client-sees", "server-sees"],
            text: "\
client-sees CODE, server-sees CODE: the close code that this endpoint's
application is given, such as event.code in a browser.
RFC 6455, 7.1.5: the code in the other side's Close; 1005 if that has none; 1006
if the connection ended without one. wsn also gives 1006 if the other side's
bytes are refused, and - as long as the other side may send more.
Next: if your log has another code, its library reports something else: the code
that it sent itself, or a failure of its own, such as a timeout.
",
        },
        &Entry {
            words: &["outcome"],
            text: "\
outcome WORD: how the connection closed, the first of these that fits:
  failed    a side is refused
  clean     both sides sent a Close, and both directions ended
  complete  both sides sent a Close
  abnormal  a direction ended without a Close
  half      one side sent a Close
  open      none of these
The status is 0 for clean and complete, 1 for the others.
Next: explain the word, for instance 'wsn explain half'.
",
        },
    ]
}

/// The outcomes, in their order.
pub fn outcome_entries() -> [&'static Entry; 6] {
    [
        &Entry {
            words: &["failed"],
            text: "\
outcome failed: a side sent bytes that the other must refuse.
RFC 6455, 7.1.7: the receiver fails the connection: it should send a Close with
a code and must not read on. wsn reports that its application sees 1006.
Usual causes: those of the reason. If a side is refused as reserved-bits where a
message begins, compression was on: recipes/inflate CAPTURE > inflated.capture.
If the client is refused at offset 1 as mask-missing, and the server as
mask-present, each has the other's lines.
Next: the line with 'refused' names side, offset and reason: 'wsn explain
REASON'. 'wsn show CAPTURE' prints what was said before it; to list the side's
frames: wsn frames --role server --capture CAPTURE (or --role client).
",
        },
        &Entry {
            words: &["clean"],
            text: "\
outcome clean: both sides sent a Close, and both directions then ended.
RFC 6455, 7.1.4: the connection was closed cleanly; a browser's wasClean is
true.
Next: if the session failed all the same, the codes say why: 1011 is an internal
error, 1008 a policy, 1012 a restart, and 3000 to 4999 are the application's.
'first' is the side that decided to close.
",
        },
        &Entry {
            words: &["complete"],
            text: "\
outcome complete: both sides sent a Close, and the end of at least one direction
isn't in the capture.
RFC 6455, 5.5.1 and 7.1.1: after both Closes the server ends the TCP connection
at once, and the client waits for that for a reasonable time.
Usual causes: the recording stopped or lost the last packets; the server keeps
the socket open and waits for the client, which waits for the server. Such
connections pile up.
Next: record for longer. If the end still doesn't come, look at the server.
",
        },
        &Entry {
            words: &["abnormal"],
            text: "\
outcome abnormal: a direction of the TCP connection ended without a Close, by a
FIN or a reset.
RFC 6455, 7.1.5: an application that waits for that side's Close sees 1006.
Usual causes: a process that crashed, was killed or redeployed; an idle timeout
of a proxy or load balancer (often 60 seconds); a network that went away; a
program that closes the socket instead of the WebSocket.
Next: which side is 'ended' or 'cut'? Read its log, then the proxies'. 'wsn show
CAPTURE' prints when it last said something. If the silence is the same each
time, it is a timeout: ping more often.
",
        },
        &Entry {
            words: &["half"],
            text: "\
outcome half: one side sent a Close; the other neither answered nor ended.
RFC 6455, 5.5.1: it must answer, and should as soon as it can; it may first send
the rest of its current message.
Usual causes: the recording stopped, or lost the answer; a peer that doesn't
read, because a handler blocks it; one that sends a long message first.
Next: record for longer. If no answer comes, 'wsn show CAPTURE' prints what the
silent side sent after the Close. After some seconds most libraries give up and
report 1006 to their application.
",
        },
        &Entry {
            words: &["open"],
            text: "\
outcome open: nothing is wrong, no side sent a Close, and no direction ended.
The session was alive, or hung, where the capture stops.
Usual causes: the recording stopped; packets are missing at its end; each side
waits for the other.
Next: if the session hung, look at the end of 'wsn show CAPTURE': of a message
that is 'unfinished' the receiver waits for the rest.
",
        },
    ]
}
