//! The words of a frame's line.
use super::Entry;

/// The words of a frame's line.
pub fn frame_entries() -> [&'static Entry; 9] {
    [
        &Entry {
            words: &["fin", "more"],
            text: "\
fin, more: whether the frame's first byte has the FIN bit (hex 80).
RFC 6455, 5.2 and 5.4: FIN is on the last frame of a message, and on every
control frame. A message in one frame is 'fin text' or 'fin binary'. In
fragments it begins with 'more text' or 'more binary', goes on with 'more cont'
and ends with 'fin cont'; pings, pongs and a Close may come in between.
Usual causes of 'more': a program that streams a message; a proxy that splits
frames. Both are allowed, and a receiver that fails on them is at fault.
Next: 'wsn normal' writes the same messages in one frame each.
",
        },
        &Entry {
            words: &["cont"],
            text: "\
cont: a continuation (opcode 0), which is one more fragment of the open message.
RFC 6455, 5.4: its kind, text or binary, is that of the message's first frame.
'fin cont' ends the message.
Next: add up the lengths from 'more text' or 'more binary' to 'fin cont' for the
size of the message. 'wsn normal' writes it in one frame.
",
        },
        &Entry {
            words: &["text"],
            text: "\
text: a text frame (opcode 1), the first or only frame of a text message.
RFC 6455, 5.6: the payload of the whole message is UTF-8; a fragment may end
inside a character. LENGTH is in bytes, so it can exceed the characters.
In 'wsn show': text BYTES FRAMES \"..\", a whole message, unmasked.
Next: 'wsn show CAPTURE' prints the messages of both sides. Of a stream, xxd -s
OFFSET -l 64 FILE shows the frame; a client's payload is masked.
",
        },
        &Entry {
            words: &["binary"],
            text: "\
binary: a binary frame (opcode 2), the first or only frame of a binary message.
RFC 6455, 5.6: its bytes mean what both applications agree on.
In 'wsn show': binary BYTES FRAMES HEX, a whole message, unmasked.
Next: 'wsn show --view all CAPTURE' prints all its bytes. If a receiver
answers a binary message with 1003, it takes text alone.
",
        },
        &Entry {
            words: &["close"],
            text: "\
close: a Close frame (opcode 8). It is the last frame that is listed; a payload
of 0 bytes has no code, one of 2 a code alone, a longer one also a reason.
RFC 6455, 5.5.1: the other side answers with a Close, unless it sent one before;
7.1.1: then the server ends the TCP connection first.
Next: 'wsn show CAPTURE' prints the code and the reason, 'wsn closing CAPTURE'
the codes of both sides. 'wsn explain 1000' and its like explain them.
",
        },
        &Entry {
            words: &["ping"],
            text: "\
ping: a ping frame (opcode 9), usually a keepalive of a library or proxy. It may
come between the fragments of a message.
RFC 6455, 5.5.2: the receiver answers as soon as it can with a pong that has the
same payload, unless it already received a Close.
Usual causes of a missing pong: the peer reads nothing, because it is blocked in
a handler or waits for room to write; the network is gone.
Next: 'wsn show CAPTURE' prints pings and pongs of both sides, in order and with
the times that the capture has. One pong may answer several pings (5.5.3).
",
        },
        &Entry {
            words: &["pong"],
            text: "\
pong: a pong frame (opcode 10). It answers a ping with the ping's payload.
RFC 6455, 5.5.3: if several pings wait for an answer, a pong for the latest is
enough. A pong that answers no ping is allowed: some programs send it as a
keepalive, and nobody answers it.
Next: list the other side's frames: is there a ping of this length before it?
",
        },
        &Entry {
            words: &["two", "eight"],
            text: "\
two, eight: the frame's length is encoded in two or eight bytes and fits in
fewer. In a list of frames it needs --lengths any; in a plan it keeps that form.
RFC 6455, 5.2: a length must be encoded in the fewest bytes, so strict receivers
refuse such a frame.
Next: 'wsn explain length-not-minimal'. 'wsn normal --lengths any' writes each
length in the fewest bytes.
",
        },
        &Entry {
            words: &["-"],
            text: "\
-: there is no value in this field.
KEY - in a list of frames or a plan: the frame isn't masked, as a server's.
unfinished -: no message was open when the Close came.
closed -: the Close has no code. first -: neither side sent a Close.
echo -: only one side or none sent a Close that counts.
client-sees -, server-sees -: the other side may still send a Close.
In 'wsn show', the second field: the capture has no times; the last: there is
nothing to see; lacks -: a part of the next frame's head came.
",
        },
    ]
}
