ghost use Rattle.std.specs.Prelude.{◌≤◌, length};

use crate::charge::Charge;
use wsn_wire::Role;

/// An everyday mistake: what an input is by its first bytes, where a command reads something else.
#[derive(Clone, Copy)]
pub enum Hint {
    /// No byte came.
    Empty,
    /// The head of an HTTP request or response (RFC 9112 section 2.1).
    HttpHead,
    /// A capture of both sides, as text.
    Capture,
    /// A capture of both sides, where `show --role` reads the stream of one.
    CaptureToShow,
    /// Hexadecimal digits.
    Hexadecimal,
    /// A hexadecimal dump, as `xxd` prints it.
    HexDump,
    /// A dump of single bytes after offsets, as `hexdump -C` and `od -t x1` print it.
    OffsetDump,
    /// A pcap file.
    Pcap,
    /// A pcapng file.
    PcapNg,
    /// A file that gzip compressed (RFC 1952 section 2.3.1).
    Gzip,
    /// TLS records (RFC 8446 section 5.1).
    Tls,
    /// A text with a byte order mark in UTF-8 in front.
    ByteOrderMark,
    /// A compressed frame (RFC 7692 section 6).
    Compressed,
    /// Text in ASCII that is nothing else.
    Text,
    /// Frames as this endpoint sends them, and not the one that was named (RFC 6455 section 5.1).
    OtherRole(Role),
    /// The bytes that one endpoint sent, where a capture of both is read.
    Stream,
    /// JSON, such as a HAR file.
    Json,
    /// A capture whose lines begin with `c` and `s`.
    SmallLetters,
    /// A capture with blanks or colons between the digits.
    Blanks,
    /// Text in ASCII that is nothing else, where a capture is read.
    OtherText,
    /// A file that is no text in ASCII or UTF-8, where a capture is read.
    Binary,
    /// A capture with a side that is refused where a compressed frame would begin, and no comment that says so.
    MaybeCompressed,
    /// A capture with a side that is refused where a compressed frame would begin, though its handshake is known and
    /// agrees on no compression (RFC 7692 section 5).
    NotAgreed,
    /// A capture in which each side has the frames of the other.
    Exchanged,
    /// A capture with a masked text that isn't UTF-8, but is a text as it was sent (RFC 6455 section 5.3).
    NeverMasked,
    /// A capture with a text that isn't UTF-8.
    NotUtf8,
    /// A capture in which this endpoint sent bytes after its Close (RFC 6455 section 5.5.1).
    AfterClose(Role),
    /// A capture in which this endpoint's Close accuses the other one, whose stream isn't refused (RFC 6455 section 7.4.1).
    Accuses(Role, Charge),
    /// A capture with an answer to the handshake for which the client must fail the connection (RFC 6455 section 4.1).
    WrongHandshake,
}

impl Hint {
    /// The line that is printed, without its LF: at most 80 bytes.
    pub fn line(&self) -> &'static str
        ensures { length result.now ≤ 80 }
    {
        match self {
            Hint::Empty => {
                "hint: no byte came: is FILE empty, or the output of the command before the pipe?"
            }
            Hint::HttpHead => {
                "hint: this begins with an HTTP head: remove it, LC_ALL=C sed '1,/^\\r$/d' FILE"
            }
            Hint::Capture => "hint: this looks like a capture of both sides: add --capture",
            Hint::CaptureToShow => {
                "hint: this looks like a capture of both sides: leave out --role"
            }
            Hint::Hexadecimal => {
                "hint: these are hexadecimal digits: make bytes of them, xxd -r -p FILE"
            }
            Hint::HexDump => "hint: this is a dump by xxd: make bytes of it, xxd -r FILE",
            Hint::OffsetDump => {
                "hint: a dump by hexdump or od: sed 's/^[^ ]*//; s/[|>].*//' FILE | xxd -r -p"
            }
            Hint::Pcap => {
                "hint: a pcap file; recipes/pcap2wsn FILE 0 or wsn-pcap FILE 0 makes a capture"
            }
            Hint::PcapNg => {
                "hint: a pcapng file; recipes/pcap2wsn FILE 0 or wsn-pcap FILE 0 makes a capture"
            }
            Hint::Gzip => "hint: this is compressed by gzip: unpack it, gzip -dc FILE",
            Hint::Tls => {
                "hint: this is TLS: recipes/pcap2wsn (or wsn-pcap) PCAP 0 KEYLOG decrypts it"
            }
            Hint::ByteOrderMark => {
                "hint: this begins with a byte order mark: remove it, tail -c +4 FILE"
            }
            Hint::Compressed => {
                "hint: compressed: recipes/inflate CAPTURE or wsn-inflate CAPTURE; record --plain"
            }
            Hint::Text => {
                "hint: this looks like text; wsn reads bytes as an endpoint sent them: 'wsn help'"
            }
            Hint::OtherRole(Role::Client) => {
                "hint: masked, as a client's frames are: did a client send this? --role client"
            }
            Hint::OtherRole(Role::Server) => {
                "hint: not masked, as a server's frames: did a server send this? --role server"
            }
            Hint::Stream => {
                "hint: this is what one endpoint sent, and no capture: wsn judge --role R FILE"
            }
            Hint::Json => {
                "hint: JSON; a HAR file has messages, not frames: record with recipes/record"
            }
            Hint::SmallLetters => {
                "hint: a line begins with a capital C or S: sed 's/^c/C/; s/^s/S/' FILE"
            }
            Hint::Blanks => {
                "hint: blanks between digits: sed '/^[CS] /{s/[ :]//g;s/^./& /;}' FILE"
            }
            Hint::OtherText => {
                "hint: text, but no capture, whose lines are 'C HEX' or 'S HEX': 'wsn help show'"
            }
            Hint::Binary => {
                "hint: binary, or text in UTF-16; a capture is plain text: is FILE the right one?"
            }
            Hint::MaybeCompressed => {
                "hint: compressed? recipes/inflate --extensions permessage-deflate CAPTURE"
            }
            Hint::NotAgreed => {
                "hint: compressed, not agreed on: sender's fault; recipes/inflate --extensions .."
            }
            Hint::Exchanged => {
                "hint: the sides are exchanged: sed 's/^C/X/; s/^S/C/; s/^X/S/' FILE swaps them"
            }
            Hint::NeverMasked => {
                "hint: as it was sent, the text is plain ASCII under a key: was it never masked?"
            }
            Hint::NotUtf8 => {
                "hint: a text isn't UTF-8: is it in Latin-1, or binary? 'wsn explain text-bad'"
            }
            Hint::AfterClose(Role::Client) => {
                "hint: the client sent bytes after its Close: 'wsn show' lists them"
            }
            Hint::AfterClose(Role::Server) => {
                "hint: the server sent bytes after its Close: 'wsn show' lists them"
            }
            Hint::Accuses(Role::Client, Charge::Protocol) => {
                "hint: the client says 1002; the server's bytes break no rule: 'wsn explain 1002'"
            }
            Hint::Accuses(Role::Server, Charge::Protocol) => {
                "hint: the server says 1002; the client's bytes break no rule: 'wsn explain 1002'"
            }
            Hint::Accuses(Role::Client, Charge::Content) => {
                "hint: the client says 1007; the server's bytes break no rule: 'wsn explain 1007'"
            }
            Hint::Accuses(Role::Server, Charge::Content) => {
                "hint: the server says 1007; the client's bytes break no rule: 'wsn explain 1007'"
            }
            Hint::Accuses(Role::Client, Charge::Size) => {
                "hint: the client says 1009; is its limit below --limit? 'wsn explain 1009'"
            }
            Hint::Accuses(Role::Server, Charge::Size) => {
                "hint: the server says 1009; is its limit below --limit? 'wsn explain 1009'"
            }
            Hint::WrongHandshake => {
                "hint: the handshake's answer is wrong: the client had to fail (RFC 6455, 4.1)"
            }
        }
    }

    /// What the hint says of one of two inputs, after the input's name: at most 68 bytes, so that `hint: SECOND` and
    /// this are at most 80.
    pub fn after_name(&self) -> &'static str
        ensures { length result.now ≤ 68 }
    {
        match self {
            Hint::Empty => " is empty: check it, or the command before the pipe",
            Hint::HttpHead => " begins with an HTTP head: remove it, LC_ALL=C sed '1,/^\\r$/d'",
            Hint::Capture => " looks like a capture of both sides: add --capture",
            Hint::CaptureToShow => " looks like a capture of both sides: leave out --role",
            Hint::Hexadecimal => " is in hexadecimal digits: make bytes of them, xxd -r -p",
            Hint::HexDump => " is a dump by xxd: make bytes of it, xxd -r",
            Hint::OffsetDump => {
                " is a dump with offsets: sed 's/^[^ ]*//; s/[|>].*//' | xxd -r -p"
            }
            Hint::Pcap => " is a pcap file: recipes/pcap2wsn or wsn-pcap makes a capture",
            Hint::PcapNg => " is a pcapng file: recipes/pcap2wsn or wsn-pcap makes a capture",
            Hint::Gzip => " is compressed by gzip: unpack it, gzip -dc",
            Hint::Tls => " is TLS: recipes/pcap2wsn or wsn-pcap decrypts it, from its pcap",
            Hint::ByteOrderMark => " begins with a byte order mark: remove it, tail -c +4",
            Hint::Compressed => " is compressed: recipes/inflate or wsn-inflate, on its capture",
            Hint::Text => " looks like text; wsn reads bytes as an endpoint sent them",
            Hint::OtherRole(Role::Client) => " is masked: did a client send it? --role client",
            Hint::OtherRole(Role::Server) => " isn't masked: did a server send it? --role server",
            Hint::Stream => " is what one endpoint sent, and no capture: leave out --capture",
            Hint::Json => " is JSON; a HAR file has messages, not frames: use recipes/record",
            Hint::SmallLetters => " needs capital letters C and S: sed 's/^c/C/; s/^s/S/'",
            Hint::Blanks => " has blanks between digits: sed '/^[CS] /{s/[ :]//g;s/^./& /;}'",
            Hint::OtherText => " is text, but no capture, whose lines are 'C HEX' or 'S HEX'",
            Hint::Binary => " is binary, or text in UTF-16; a capture is plain text",
            Hint::MaybeCompressed => " seems compressed: recipes/inflate --extensions undoes it",
            Hint::NotAgreed => " has compressed frames, which its handshake doesn't allow",
            Hint::Exchanged => " has its sides exchanged: sed 's/^C/X/; s/^S/C/; s/^X/S/'",
            Hint::NeverMasked => " has a text that was perhaps never masked, though it has a key",
            Hint::NotUtf8 => " has a text that isn't UTF-8: 'wsn explain text-bad'",
            Hint::AfterClose(Role::Client) => {
                " has bytes after the client's Close: 'wsn show' lists them"
            }
            Hint::AfterClose(Role::Server) => {
                " has bytes after the server's Close: 'wsn show' lists them"
            }
            Hint::Accuses(Role::Client, Charge::Protocol) => {
                " has a client that says 1002; the server's bytes break no rule"
            }
            Hint::Accuses(Role::Server, Charge::Protocol) => {
                " has a server that says 1002; the client's bytes break no rule"
            }
            Hint::Accuses(Role::Client, Charge::Content) => {
                " has a client that says 1007; the server's bytes break no rule"
            }
            Hint::Accuses(Role::Server, Charge::Content) => {
                " has a server that says 1007; the client's bytes break no rule"
            }
            Hint::Accuses(Role::Client, Charge::Size) => {
                " has a client that says 1009: 'wsn explain 1009'"
            }
            Hint::Accuses(Role::Server, Charge::Size) => {
                " has a server that says 1009: 'wsn explain 1009'"
            }
            Hint::WrongHandshake => " has a wrong answer to its handshake",
        }
    }
}
