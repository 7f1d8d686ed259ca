//! Close codes.
use super::Entry;

/// Close codes.
pub fn code_entries() -> [&'static Entry; 18] {
    [
        &Entry {
            words: &["1000"],
            text: "\
1000, normal closure: the session did what it was made for.
RFC 6455, 7.4.1.
Usual causes: the application closed with 1000; a library's default for close()
without a code, or when a program ends its connection in the usual way.
Next: if it came unexpectedly, the side in the line 'first' of 'wsn closing'
decided to close: read its log.
",
        },
        &Entry {
            words: &["1001"],
            text: "\
1001, going away: a server that goes down, or a browser that leaves the page.
RFC 6455, 7.4.1.
Usual causes: a reload, another page or a closed tab; a deployment or restart of
the server; some proxies and servers also send it after an idle time.
Next: if a server sends it, compare the time with its restarts. Clients should
connect again after a random delay, so that they don't all come at once.
",
        },
        &Entry {
            words: &["1002"],
            text: "\
1002, protocol error: the other side broke a rule of the framing.
RFC 6455, 7.4.1. In a refusal it is the code with which a receiver may close.
Usual causes: each reason of a refusal whose code is 1002, such as compression
without agreement, a wrong mask, or two threads that write at once.
Next: if an endpoint closed with 1002, judge the bytes of the other one: wsn
finds the offset and the reason. If they are accepted, the fault may be of the
one that closed: its decoder, or an extension that it expects.
",
        },
        &Entry {
            words: &["1003"],
            text: "\
1003, unsupported data: the sender of this Close got a kind of message that it
can't accept, such as binary where it takes text alone.
RFC 6455, 7.4.1.
Usual causes: a client that sends a Blob or an ArrayBuffer, or a library that
sends bytes as binary, to a server that expects JSON in text.
Next: 'wsn show CAPTURE' prints the other side's last message before the Close,
'text' or 'binary', and the reason in the Close.
",
        },
        &Entry {
            words: &["1004"],
            text: "\
1004, reserved: this code has no meaning, so no endpoint may send it.
RFC 6455, 7.4.1 reserves it: a meaning may be defined in the future. IANA's
registry has none either.
wsn refuses a Close with it: close-code, code 1002, at the code's second byte.
Usual causes: an application that counts its own codes from 1000; a library that
sends any number that it is given; a wrong number for 1003 or 1009.
Next: 'wsn show CAPTURE' ends the line 'refused' with the code, in hexadecimal
03ec. Correct the sender: its own codes are from 4000 to 4999.
",
        },
        &Entry {
            words: &["1005"],
            text: "\
1005, no status: the Close that an application received has no code.
RFC 6455, 7.1.5 and 7.4.1: this code is only reported, never sent.
Usual causes: close() was called without a code, which is allowed. Browsers send
an empty Close for it. Nothing is wrong.
Next: if your relay sends 1005 on, that is the fault close-code: answer with a
Close without a code. 'wsn frames' shows an empty Close as 'fin close KEY 0'.
",
        },
        &Entry {
            words: &["1006"],
            text: "\
1006, abnormal closure: an application got no Close that counts. The connection
ended without one, or what came before had to be refused.
RFC 6455, 7.1.5 and 7.4.1: this code is only reported, never sent. It doesn't
say why. wsn refuses a Close with it: close-code, code 1002.
Usual causes: those of 'wsn explain abnormal'; bytes that the library refused; a
handshake or TLS that failed, of which a capture shows nothing.
Next: run 'wsn closing' on a capture. If a side is refused, that is why. If one
ended first, read its log, then those of the proxies between.
",
        },
        &Entry {
            words: &["1007"],
            text: "\
1007, invalid data: a message's content doesn't fit its kind, usually text that
isn't UTF-8.
RFC 6455, 7.4.1 and 8.1.
Usual causes: text in another encoding; binary data sent as text; a message that
ends inside a character. Some servers also send it for malformed JSON.
Next: judge the bytes of the other side: text-bad, text-cut and close-reason
give the offset. If they are accepted, the application means its own format.
",
        },
        &Entry {
            words: &["1008"],
            text: "\
1008, policy violation: a message broke a rule of the receiver's own; the code
for a refusal that no other code fits.
RFC 6455, 7.4.1. wsn gives it for too-many-frames alone.
Usual causes: a login that is missing or has expired; a rate limit; an origin
that isn't allowed; a subscription that was refused.
Next: 'wsn show CAPTURE' prints the reason in the Close and what was said before
it. Then read that side's log.
",
        },
        &Entry {
            words: &["1009"],
            text: "\
1009, message too big: a message exceeds what the receiver can process.
RFC 6455, 7.4.1 and 10.4. wsn gives it for message-too-big.
Usual causes: a receiver's default limit (1 MiB in some libraries, 64 KiB in
others) and one large upload or answer.
Next: judge the other side's bytes with --limit set to the receiver's limit: the
refusal is at the message. Raise the limit, or send several messages; fragments
of one message count together.
",
        },
        &Entry {
            words: &["1010"],
            text: "\
1010, mandatory extension: a client ends the connection because the server
didn't agree on an extension that it requires.
RFC 6455, 7.4.1: only a client sends it; the reason should list the extensions.
Usual causes: a proxy that removes Sec-WebSocket-Extensions from the handshake,
as recipes/record --plain does; a server without compression.
Next: record without --plain: the capture's comment '# extensions: ..' has what
the server agreed on; without it, nothing. Most clients require no extension.
",
        },
        &Entry {
            words: &["1011"],
            text: "\
1011, internal error: the sender of this Close met an unexpected condition.
RFC 6455, 7.4.1 names a server; IANA's registry and real clients use it for both
sides.
Usual causes: an exception in a message handler; a library whose ping got no
pong in time (python-websockets: 'keepalive ping timeout').
Next: read that side's log at this time. 'wsn show CAPTURE' prints the reason in
the Close, which message came last, and whether each ping got a pong.
",
        },
        &Entry {
            words: &["1012"],
            text: "\
1012, service restart: the server restarts, and clients may connect again.
It isn't in RFC 6455; IANA's registry has it, so it may be sent.
Usual causes: a deployment; a worker that is replaced.
Next: connect again after a random delay, so that not all clients come at once.
A library older than the registry's entry may refuse it with 1002.
",
        },
        &Entry {
            words: &["1013"],
            text: "\
1013, try again later: the server is overloaded, and asks clients to wait or to
use another server.
It isn't in RFC 6455; IANA's registry has it, so it may be sent.
Usual causes: a limit on connections or on memory; a full queue.
Next: connect again after a delay that grows with each attempt. Look at the
server's load at this time.
",
        },
        &Entry {
            words: &["1014"],
            text: "\
1014, bad gateway: a gateway or proxy got an invalid answer from the upstream
server, like HTTP's 502.
It isn't in RFC 6455; IANA's registry has it, so it may be sent.
Next: read the upstream server's log, and record between gateway and server: let
the gateway connect to recipes/record instead of the server.
",
        },
        &Entry {
            words: &["1015"],
            text: "\
1015, TLS handshake: an application is given this code where the TLS handshake
failed.
RFC 6455, 7.4.1: this code is only reported, never sent: without TLS there is no
WebSocket connection on which a Close could be sent.
wsn refuses a Close with it: close-code, code 1002, at the code's second byte.
Usual causes: a certificate that has expired, or is for another host name; most
browsers report 1006 instead. In a Close: a relay that passes on what it got.
Next: openssl s_client -connect HOST:443 -servername HOST shows the certificate
and what is wrong with it. In a relay, send 1001 or 1011 instead.
",
        },
        &Entry {
            words: &["3000"],
            text: "\
3000 to 3999: codes of libraries, frameworks and applications, which IANA
registers: 3000 unauthorized, 3003 forbidden, 3008 timeout, for instance.
RFC 6455, 7.4.2.
Next: look the code up in IANA's WebSocket Close Code Number Registry, or in the
documents of the library that sent it; many codes in use aren't registered.
",
        },
        &Entry {
            words: &["4000"],
            text: "\
4000 to 4999: codes for private use: they mean what the two applications agreed
on.
RFC 6455, 7.4.2.
Next: look in the service's documentation. The reason in the Close, if it has
one, says more: 'wsn show CAPTURE' prints it after the code.
",
        },
    ]
}
