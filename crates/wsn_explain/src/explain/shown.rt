//! The words of what both sides said.
use super::Entry;

/// The words of what both sides said.
pub fn shown_entries() -> [&'static Entry; 5] {
    [
        &Entry {
            words: &["bad-character"],
            text: "\
OFFSET bad-character IN_PAYLOAD BYTES TEXT, from 'wsn show': the bad character
of the text that the line before refuses. It begins at OFFSET, perhaps in an
earlier fragment; its first byte is byte IN_PAYLOAD of the message's payload,
from 0. BYTES are its one to four bytes, the offending byte last. TEXT ends with
them, and begins with .. if some of the message before them is left out; of
frames before the refused one the last 48 bytes are shown at most.
  C - 18 bad-character 12 e920 \"{\\\"name\\\":\\\"Ren\\xe9\\x20\"
RFC 6455, 5.6 and 8.1: a text message is UTF-8, however its frames divide it.
Next: 'wsn payload --role R --at START' writes what came of the message that
begins at START, up to the offending byte. Causes: 'wsn explain text-bad'.
",
        },
        &Entry {
            words: &["lacks", "head"],
            text: "\
lacks, head, from 'wsn show': what has begun and isn't whole.
  unfinished KIND BYTES FRAMES lacks N VIEW
BYTES of its payload came, in FRAMES frames, and the last of these lacks N
bytes: 0 between two fragments, - if a part of the next head came.
  unfinished head 0 0 lacks - -
Only a part of a frame's head came, and no message was open.
RFC 6455, 5.2 and 5.4: the length says where a frame ends, FIN where a message.
Next: if N is large, is the length what the sender meant? If it is small, the
recording stopped, or the sender died while it sent. 'wsn explain cut'.
",
        },
        &Entry {
            words: &["unread"],
            text: "\
unread N HEX, from 'wsn show': the N bytes that this side sent after the byte
that refused its stream, and the first of them. wsn doesn't read them: where a
frame begins among them is unknown.
RFC 6455, 7.1.7: an endpoint that fails the connection must not process what
comes after that, not even a Close.
Next: the line 'refused' before it has the reason: 'wsn explain REASON'. If HEX
begins as a frame does (81, 82, 88 ..), perhaps only the frame before is wrong.
",
        },
        &Entry {
            words: &["end"],
            text: "\
end, from 'wsn show': this side's direction of the TCP connection ended (the
capture's line C. or S.). The number before it counts the bytes that it sent.
RFC 6455, 7.1.1: after both Closes the server ends the connection first, and the
client should wait for that.
Next: if this side sent no Close before it, 'wsn explain abnormal'. Without such
a line the capture doesn't say that the direction ended.
",
        },
        &Entry {
            words: &["ended-by", "reset"],
            text: "\
ended-by SIDE, ended-by SIDE reset, from 'wsn show': a direction of the TCP
connection ended without a Close, and SIDE's end mark (C. or S.) is the first.
reset: a comment '# reset by the SIDE' says that it reset the connection.
RFC 6455, 7.1.1: the server ends the connection, after both Closes.
Usual causes: those of 'abnormal'. A reset often means that a program ended or
closed its socket with bytes unread, or comes from a firewall or load balancer.
Next: a line 'unfinished' of SIDE says what it was sending, and how many bytes
are missing. Read its log, then the proxies'. 'wsn explain abnormal'.
",
        },
    ]
}
