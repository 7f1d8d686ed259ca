//! Help texts of the commands that read captures: `show`, `closing` and `redact`.

pub const SHOW: &str = "\
Show what both sides of a capture said, in order, and how they closed";

pub const SHOW_DETAILS: &str = "\
Reads a capture, as closing does ('wsn help closing'), and prints what each line
completes, as the lines come; then closing's report:
  SIDE TIME OFFSET KIND BYTES FRAMES VIEW
            an event, with its last byte; OFFSET is where its first frame
            begins, KIND is text, binary, ping, pong or close, BYTES are those
            of its payload, FRAMES the number of its frames
  SIDE TIME OFFSET refused PLACE REASON CODE SEEN
            a refused frame, with the offending byte, which is at offset PLACE
            and the last of SEEN
  SIDE TIME OFFSET bad-character IN_PAYLOAD BYTES TEXT
            the bad character of a text that is refused: it begins at OFFSET,
            byte IN_PAYLOAD of the message's payload, from 0; its bytes, the
            offending one last; the text with them at its end, as \\x and two
            digits, after .. if some of the message before is left out
  SIDE TIME OFFSET unfinished KIND BYTES FRAMES lacks N VIEW
            what has begun where the stream ends or where a Close or a refusal
            interrupts it: its bytes so far; its last frame lacks N bytes, or -
            if a part of the next frame's head came
  SIDE TIME OFFSET unread N HEX
            N bytes after a refusal
  SIDE TIME OFFSET tail N HEX
            N bytes after a Close
  SIDE TIME OFFSET end
            the direction ended after OFFSET bytes
  # TEXT    a comment
  ended-by V
            before the report, if a direction ended without a Close: V, client
            or server, ended first; then reset, if a comment '# reset by the V'
            says so
    SIDE    C for the client, S for the server
    TIME    of the last comment '# SECONDS' before, such as # 0.001356, or -
            without one; at the capture's end, before the last bytes of SIDE
    OFFSET  in the stream of that side, from 0
    VIEW    the first bytes of the payload: a quoted text, or hexadecimal
            digits; of a Close its code and reason; - if there is nothing;
            then .. if bytes are left out
With --view all each payload is printed whole; of an unfinished text, its whole
characters. SEEN, HEX and the TEXT of bad-character are as with --view 4096: so
a text that is refused isn't printed whole, and 'wsn payload --at OFFSET' writes
it. Memory is allocated before anything is read, twice --limit for each side
that is shown: 64 MiB for a capture by default, 32 MiB with --role.
With --wire it prints frames, after SIDE and TIME as frames lists them, in place
of events. With --role the input is one stream, without TIME; the verdict's line
is last, and a refusal ends the reading.
With --layout people entries are in columns, a text is without quotation marks,
and a refusal is a sentence; after the report sentences say what it means, and
'Next:' what to type. That is the default on a terminal with colours, and the
lines above in a pipe, even with --color always.
With --json each entry is an object in one line, with the capture's line if the
entry is of one; \"truncated\":true if bytes are left out:
  {\"type\":\"event\",\"line\":1,\"side\":\"client\",\"time\":0.001356,\"offset\":0,
  \"event\":\"text\",\"bytes\":5,\"frames\":1,\"text\":\"Hello\"}
\"hex\" is in place of \"text\" for other bytes; a Close has \"code\" and \"reason\".
A refused text has \"character\", its bad character, an object with offset,
in_payload, hex and before, the text before it.
The other types are refused, unfinished, unread, tail, end, comment, ended-by
(with side and reset) and report, with --wire also frame.

Example: a client says \"Hello\" in two frames, and sends half a ping
  $ printf 'C 01830000000048656c\\nC 8082000000006c6f89\\n' | wsn show | head -n 2
  C - 0 text 5 2 \"Hello\"
  C - 17 unfinished head 0 0 lacks - -";

pub const CLOSING: &str = "\
Report how a connection closed, from a capture of both sides";

pub const CLOSING_DETAILS: &str = "\
Reads a capture, lines in the order in which bytes passed:
  C HEX     bytes that the client sent, at most 8192 digits
  S HEX     bytes that the server sent
  C.  S.    the client's or the server's direction ended (its FIN, or a reset)
Empty lines and lines that begin with # are ignored. The limits apply to each
side. Prints seven lines:
  client V, server V
            how the endpoint's stream ended: closed CODE, or closed - for a
            Close without a code; refused OFFSET REASON CODE; ended, between
            messages and without a Close; cut, inside a frame or message;
            running, if more may come
  first V   whose Close came first: client, server or -
  echo V    whether both Closes have the same code: yes, no, or - unless both
            sides sent one
  client-sees V, server-sees V
            the close code that each application is given, by the other
            side's stream: 1005 for a Close without a code, 1006 if it is
            refused or ended without a Close; - if more may come
  outcome V the first of these that applies:
            failed    a side is refused
            clean     both sent a Close, and both directions ended
            complete  both sent a Close
            abnormal  a direction ended without a Close
            half      one side sent a Close
            open      none of these
With --json it prints an object: {\"type\":\"report\",\"client\":{\"state\":\"closed\",
\"code\":1000},\"server\":{\"state\":\"ended\"},\"first\":\"client\",\"echo\":null,
\"client_sees\":1006,\"server_sees\":1000,\"outcome\":\"abnormal\"}, in one line; - is
null, and a refused side has offset, reason and code.
Of several FILEs, or with --each, it prints a line for each: its name, the
outcome, and how the client's and the server's stream ended, between tabs; with
--json the object, which begins with a member file. A FILE without an answer is
reported on standard error after its name, and the next one is read. The status
is the greatest of all.
A malformed line gives status 2, and line N: WORD on standard error, with N
from 1 and WORD too-many-lines, too-long, bad-form, bad-hex, after-end or
input-limit.

Example: the client closes with 1000, and the server echoes it
  $ printf 'C 88820000000003e8\\nS 880203e8\\nS.\\nC.\\n' | wsn closing
  client closed 1000
  server closed 1000
  first client
  echo yes
  client-sees 1000
  server-sees 1000
  outcome clean";

pub const REDACT: &str = "\
Write a capture or stream without what was said, to be shared";

pub const REDACT_DETAILS: &str = "\
Reads a capture, as closing does ('wsn help closing'), and writes the same one
without what was said: each byte in its place, all framing as it was, the same
report. With --role it does so with the stream that this endpoint sent: from the
input itself, or with --capture from a capture, as bytes.
  head, key, close code     as it is
  text, close reason        a to z as x, A to Z as X, 0 to 9 as 0, other ASCII
                            as it is, any other character as one of as many
                            bytes
  binary, ping, pong        zeros
  after an offending byte   zeros; the offending byte itself as it is, or as x,
  or after a Close          X or 0 if it is a letter or digit of a payload
  comment                   a time and '# reset by the client' (or server) as
                            they are; '# extensions:' without the values of
                            parameters; any other as # alone
A masked payload is masked again, with the same key. What is written still tells
lengths, times, spaces and punctuation, so the form of JSON, and where a stream
went wrong. A compressed session is refused at its first frame: inflate it
first.

Unlike 'wsn normal' it prints no verdict: closing, and for a stream judge, print
the same before and after, and the status is 0 whatever they print. At a stop,
what came before it is written, and the status is 2: so of a capture with a
malformed line the lines before it.

Example: a server's message and Close, and a comment
  $ printf '# by Ann\\nS 8105416e6e2039\\nS 880603e862796521\\n' | wsn redact
  #
  S 81055878782030
  S 880603e878787821";
