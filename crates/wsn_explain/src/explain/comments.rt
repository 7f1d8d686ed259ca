//! The words of comments that the recipes write into captures, of the handshake and of a reset.
use super::Entry;

/// The words of comments.
pub fn comment_entries() -> [&'static Entry; 3] {
    [
        &Entry {
            words: &["accept is wrong"],
            text: "\
# accept is wrong: the Sec-WebSocket-Accept in the answer to the handshake isn't
the one for the request's Sec-WebSocket-Key, or is missing.
RFC 6455, 4.1: the client must fail the connection. It ends it without a Close:
the outcome is usually abnormal, and 'show' prints 'ended-by client'.
Usual causes: a server that leaves out the GUID of 1.3, or encodes the hash in
hexadecimal; a proxy or cache that answers from another connection.
Next: compute it as 4.2.2 says; connect to the server without the proxy.
",
        },
        &Entry {
            words: &["was not offered"],
            text: "\
# subprotocol NAME was not offered, # extension NAME was not offered: the answer
to the handshake chose what the request doesn't offer.
RFC 6455, 4.1: the client must fail the connection. It ends it without a Close:
the outcome is usually abnormal, and 'show' prints 'ended-by client'.
Usual causes: a server that always answers with its subprotocol, or compresses
whatever was asked; a proxy that removes the offer; other capitals in the name
of a subprotocol.
Next: let the client offer it, or the server leave it out.
",
        },
        &Entry {
            words: &["reset by the client", "reset by the server"],
            text: "\
# reset by the client, # reset by the server: this side reset the TCP connection
or the stream of HTTP/2, which ended both directions.
RFC 6455, 7.1.5: without a Close before it, both applications see 1006.
Usual causes: a process that was killed, or that closed its socket before it
read everything; a load balancer or firewall, in that side's name.
Next: 'show' prints 'ended-by SIDE reset': 'wsn explain ended-by'.
",
        },
    ]
}
