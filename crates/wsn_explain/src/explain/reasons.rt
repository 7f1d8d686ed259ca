//! The reasons of a refusal, in their order.
use super::Entry;

/// The reasons of a refusal, in their order.
pub fn reason_entries() -> [&'static Entry; 17] {
    [
        &Entry {
            words: &["reserved-bits"],
            text: "\
reserved-bits, code 1002: a reserved bit (hex 40, 20 or 10) is set in the byte
where a frame should begin.
RFC 6455, 5.2: these bits are 0 unless an agreed extension gives them a meaning.
Usual causes: compression (permessage-deflate sets 40; RFC 7692). At offset 0:
no stream of frames but text (an HTTP head, a capture, hex), a pcap, TLS, gzip.
Later on: an earlier wrong length, missing bytes, text written into the socket.
Next: xxd -s OFFSET -l 32 FILE shows what it is. Compression: recipes/inflate
CAPTURE, or record with recipes/record --plain. A pcap: recipes/pcap2wsn or
wsn-pcap. A capture: add --capture. An HTTP head: LC_ALL=C sed '1,/^\\r$/d' FILE.
7 of 36 implementations accept it (Poco, em-websocket): see docs/PEERS.md.
",
        },
        &Entry {
            words: &["reserved-opcode"],
            text: "\
reserved-opcode, code 1002: the opcode, the low four bits of a frame's first
byte, is 3 to 7 or 11 to 15.
RFC 6455, 5.2: these have no meaning yet; a receiver must fail the connection.
Usual causes: no frame begins here, because an earlier length is wrong, bytes
are missing, or two threads wrote at once; a line end (0d 0a) after a frame,
from a program that writes lines. Real uses of these opcodes are rare.
Next: 'wsn frames' lists the frame before this one. Is its length what the
sender meant? See the bytes around: xxd -s OFFSET -l 32 FILE.
5 of 36 implementations accept it (Mojolicious, civetweb): see docs/PEERS.md.
",
        },
        &Entry {
            words: &["control-not-final"],
            text: "\
control-not-final, code 1002: a Close, ping or pong (opcode 8, 9 or 10) without
FIN, so its first byte is hex 08, 09 or 0a.
RFC 6455, 5.5: a control frame must not be fragmented.
Usual causes: a sender or proxy that fragments every frame; a home-made sender
that forgets FIN (hex 80). Or no frame begins here: 0a is a line feed, so an
empty line in the stream looks like this, and so does a pcapng file at offset 0.
Next: look: xxd -s OFFSET -l 32 FILE. If it is text, a program writes to the
socket past its WebSocket library. For a pcapng file, run recipes/pcap2wsn or
wsn-pcap.
6 of 36 implementations accept some (Poco, Mojolicious): see docs/PEERS.md.
",
        },
        &Entry {
            words: &["nothing-to-continue"],
            text: "\
nothing-to-continue, code 1002: a continuation (opcode 0), but no message is
open.
RFC 6455, 5.4: the first frame of a message has opcode 1 or 2, the others have
opcode 0, and only the last has FIN.
Usual causes: a sender that sets FIN on the first fragment already; two threads
that send at once; a first fragment that a proxy or the recording lost; zeros,
which some tools write for missing bytes.
Next: 'wsn show CAPTURE' prints this side's message before it, 'wsn frames' its
frames. If that message is incomplete and goes on here, its FIN is wrong.
6 of 36 implementations accept it (Mojolicious, Poco): see docs/PEERS.md.
",
        },
        &Entry {
            words: &["message-open"],
            text: "\
message-open, code 1002: a text or binary frame begins a message, but the
message before it has no final frame yet.
RFC 6455, 5.4: only control frames may come between the fragments of a message.
Usual causes: two threads or tasks send on one connection without a lock; a
message was given up halfway (an exception, a timeout) and the next one sent; a
sender that repeats the opcode in each fragment, where the later ones need 0.
Next: 'wsn show CAPTURE' prints the open message, as 'unfinished', just before
'refused'. If this frame continues it, the opcode is wrong; if it belongs to
something else, the lock is missing.
6 of 36 implementations accept some (aiohttp, Mojolicious): see docs/PEERS.md.
",
        },
        &Entry {
            words: &["mask-missing"],
            text: "\
mask-missing, code 1002: a client's frame without a masking key: the top bit of
its second byte is 0.
RFC 6455, 5.1: a client masks every frame; a server must close the connection on
one that isn't masked.
Usual causes: --role names the wrong side (then OFFSET is 1); a whole capture
that went through xxd -r -p, so both sides' bytes; a home-made client, or a
server's library used as a client; a tool that recorded unmasked frames.
Next: --role is the endpoint that sent the bytes: try --role server. Of a
capture, add --capture and leave xxd out. Else the client is at fault.
15 of 32 servers accept it (aiohttp, Tornado, Qt): see docs/PEERS.md.
",
        },
        &Entry {
            words: &["mask-present"],
            text: "\
mask-present, code 1002: a server's frame with a masking key: the top bit of its
second byte is 1.
RFC 6455, 5.1: a server masks no frame; a client must close the connection on a
masked one.
Usual causes: --role names the wrong side (then OFFSET is 1); a relay that
passes on a client's frames unchanged; a client's library used in a server.
Next: --role is the endpoint that sent the bytes: try --role client. If the
server did send them, its frames' keys are the client's if they were passed on:
sed -n 's/^S //p' CAPTURE | xxd -r -p | wsn frames --role client lists them.
19 of 34 clients accept it (Firefox, aiohttp, Qt): see docs/PEERS.md.
",
        },
        &Entry {
            words: &["control-too-long"],
            text: "\
control-too-long, code 1002: a Close, ping or pong whose length field, the low
seven bits of its second byte, is 126 or 127.
RFC 6455, 5.5: the payload of a control frame has at most 125 bytes. An empty
ping as 89 7f and eight zeros has this reason, too, though it breaks 5.2 alone.
Usual causes: a whole error message as a Close's reason, which may have 123
bytes; a ping that carries data. Or no frame begins here: bytes are missing.
Next: 'wsn show CAPTURE' ends the line 'refused' with the frame's two bytes: 88
is a Close, 89 a ping, 8a a pong. Shorten a reason between two characters.
9 of 36 implementations accept over 125 bytes (Poco, em-websocket), 16 of 36 a
longer encoding of fewer (Jetty, Tomcat): see docs/PEERS.md.
",
        },
        &Entry {
            words: &["close-one-byte"],
            text: "\
close-one-byte, code 1002: a Close with a payload of one byte.
RFC 6455, 5.5.1: the payload is empty, or begins with a code in two bytes.
Usual causes: the code was written as one byte (1000 is hex 03e8, which leaves
e8); a reason of one character without a code; a payload that was truncated.
Next: find where the sender builds its Close: the code's high byte, its low
byte, then the reason in UTF-8. For no code, send no payload at all; the other
application then sees 1005.
9 of 36 implementations accept it (Firefox, gorilla): see docs/PEERS.md.
",
        },
        &Entry {
            words: &["length-top-bit"],
            text: "\
length-top-bit, code 1002: a length in eight bytes has its highest bit set, so
it is 2^63 or more. OFFSET is the last of the eight bytes.
RFC 6455, 5.2: that bit must be 0.
Usual causes: no frame begins here, because bytes are missing, an earlier length
is wrong, or two threads wrote at once; a negative number at the sender (ff ff
..); a length that was written lowest byte first.
Next: see the eight bytes: xxd -s $((OFFSET - 7)) -l 8 FILE. If they make sense
when read backwards, it is the byte order. If not, look at the frame before this
one in 'wsn frames'.
8 of 36 implementations accept it (em-websocket, lua-http): see docs/PEERS.md.
",
        },
        &Entry {
            words: &["length-not-minimal"],
            text: "\
length-not-minimal, code 1002: a length is encoded in two or eight bytes and
fits in fewer. OFFSET is its last byte.
RFC 6455, 5.2: a length must be encoded in the fewest bytes.
Usual causes: a small or embedded sender that leaves room for a head of fixed
size before it knows the length; a proxy that rewrites heads.
Next: 'wsn frames --lengths any' reads on, marks such frames 'two' or 'eight',
and finds what else is wrong. Correct the sender: up to 125 use one byte, up to
65535 the field 126 and two bytes.
24 of 36 implementations accept it (ws, gorilla, Tomcat): see docs/PEERS.md.
",
        },
        &Entry {
            words: &["message-too-big"],
            text: "\
message-too-big, code 1009: with this frame's length the message exceeds the
limit. OFFSET is the last byte of the length. The limit is wsn's own: --limit
BYTES, by default 16777216, which is the maximum.
RFC 6455, 10.4: a receiver should limit the size of a message; 7.4.1: 1009 is
the code for one that is too big.
Usual causes: an upload or a whole table in one message; a wrong length, which
shows as an absurd number.
Next: set --limit to your receiver's limit to find the message that it refuses.
Fragments don't help, since they count together: send several messages.
",
        },
        &Entry {
            words: &["close-code"],
            text: "\
close-code, code 1002: a Close has a code that may not be sent. OFFSET is the
code's second byte.
RFC 6455, 7.4: 1000 to 1003, 1007 to 1011 and 3000 to 4999 may be sent, and by
IANA's registry 1012 to 1014. 1005, 1006 and 1015 are for logs alone.
Usual causes: a relay that closes with the 1005 or 1006 that it was given; 0, or
an HTTP status such as 500; the low byte first (e803 is 59395); no code before
the reason, so that its first two letters are read as one.
Next: 'wsn show CAPTURE' ends the line 'refused' with the code, unmasked, in hex
(03ee is 1006). In a relay, send no code for 1005, and 1001 or 1011 for 1006.
13 of 36 accept some (Chromium, Firefox), 15 of 36 over 4999: see docs/PEERS.md.
",
        },
        &Entry {
            words: &["close-reason"],
            text: "\
close-reason, code 1007: the reason in a Close isn't UTF-8. OFFSET is its first
bad byte, or the frame's last byte if the reason ends inside a character.
RFC 6455, 5.5.1: what follows the code is text in UTF-8.
Usual causes: a reason that was cut to 123 bytes inside a character; an error
message of the system in another encoding (Latin-1, GBK, Shift JIS).
Next: 'wsn show CAPTURE' ends the line 'refused' with the code and the reason up
to that byte, in hex. At the sender, convert the reason to UTF-8 first, then
shorten it between two characters. A short reason in ASCII is the safest.
12 of 36 implementations accept some (nhooyr, wslay): see docs/PEERS.md.
",
        },
        &Entry {
            words: &["text-bad"],
            text: "\
text-bad, code 1007: the offending byte is the first that can't follow what came
before in UTF-8. It is the last byte of the bad character, and may be innocent:
in Latin-1, \"Ren\\xe9 \" is refused at the space; the bad character is e9 20.
RFC 6455, 5.6: the payload of a text message is UTF-8; 8.1: if it isn't, who
reads it as text must fail the connection.
Usual causes: Latin-1 or Windows-1252 (92 is an apostrophe); binary data as text
(gzip: 1f 8b); lone surrogates (ed a0 ..); c0 80, from Java; a key but no mask.
Next: the line 'bad-character' of 'wsn show' has it, with the text before it:
'wsn explain bad-character'. Convert it where it is made, or send it as binary.
9 of 36 implementations accept it (gorilla, libwebsockets): see docs/PEERS.md.
",
        },
        &Entry {
            words: &["text-cut"],
            text: "\
text-cut, code 1007: a text message ends inside a character. OFFSET is the last
byte of its last frame.
RFC 6455, 5.6 and 8.1: a fragment may end inside a character, a message may not.
Usual causes: text that is read in blocks (of a file, a process, a socket) and
sent block by block as messages; a buffer that truncates; a length in characters
where bytes are meant.
Next: in 'wsn show CAPTURE' 'unread' begins with the next frame. If its text
begins with a byte from 80 to bf, both are one text. Send the blocks as
fragments of one message, or keep a begun character for the next block.
12 of 36 implementations accept some (Boost.Beast, gorilla): see docs/PEERS.md.
",
        },
        &Entry {
            words: &["too-many-frames"],
            text: "\
too-many-frames, code 1008: a continuation, but its message already has as many
frames as --frames allows. Without --frames there is no maximum.
RFC 6455, 10.4: a long stream of small fragments can be an attack, and a
receiver should set limits. The RFC names no code for it; wsn takes 1008, policy
(7.4.1).
Usual causes: a sender that makes a frame of each small write; such an attack.
Next: 'wsn frames' without --frames lists all the fragments. To try a receiver
with the same messages in large frames: wsn recut --role R --size 65536 < FILE.
",
        },
    ]
}
