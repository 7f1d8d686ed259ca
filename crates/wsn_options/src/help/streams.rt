//! Help texts of the commands that read streams: `judge`, `frames`, `payload`, `normal` and `same`.

pub const JUDGE: &str = "\
Report whether a stream is accepted, cut or refused, where and why";

pub const JUDGE_DETAILS: &str = "\
Reads a stream and prints its verdict in one line.

With --json it prints an object, of an accepted stream
  {\"type\":\"verdict\",\"verdict\":\"accepted\",\"used\":6,\"tail\":0,\"unfinished\":null,
  \"frames\":1,\"messages\":0,\"pings\":0,\"pongs\":0,\"close\":null}
in one line; close is {\"code\":1000} or {\"code\":null} if there is a Close. Of a
cut stream tail and close are missing; a refusal has offset, reason and code.

Example: a server's frame with a masking key, and a client's from a capture
  $ printf '\\201\\205' | wsn judge --role server
  refused 1 mask-present 1002
  $ printf 'C 8180\\nS 8100\\nC 01020304\\n' > both
  $ wsn judge --role client --capture both
  accepted 6 tail 0 unfinished -";

pub const FRAMES: &str = "\
List a stream's frames, then its verdict";

pub const FRAMES_DETAILS: &str = "\
Prints a line for each frame whose head is complete and valid, then the verdict:
  OFFSET fin OPCODE KEY LENGTH     'more' instead of 'fin' if FIN isn't set
    OFFSET  the offset of the frame's first byte, from 0
    OPCODE  cont, text, binary, close, ping or pong
    KEY     the masking key in hexadecimal, or - if there is none
    LENGTH  the bytes of the payload; then 'two' or 'eight' if the length is
            encoded in two or eight bytes and needs fewer

With --json each frame is an object, and then the verdict ('wsn help judge'):
  {\"type\":\"frame\",\"offset\":0,\"fin\":true,\"opcode\":\"text\",\"key\":\"37fa213d\",
  \"length\":5,\"form\":\"shortest\"}

Example: a server's message in two fragments, and a ping between them
  $ printf '\\001\\003Hel\\211\\000\\200\\002lo' | wsn frames --role server
  0 more text - 3
  5 fin ping - 0
  7 fin cont - 2
  accepted 11 tail 0 unfinished -";

pub const PAYLOAD: &str = "\
Write the payload of one message, ping, pong or Close";

pub const PAYLOAD_DETAILS: &str = "\
Writes the payload of the event whose first frame begins at the offset that show
and frames print: unmasked, joined from its frames, and nothing else, as its
bytes come. Bytes after the event aren't read. If the event isn't complete, what
came of it is written, up to the offending byte if it is refused; the verdict's
line goes to standard error, and the status is 1. If no event begins there,
nothing is written, the status is 2, and this line goes to standard error:
  nothing begins at OFFSET; it is in the KIND at START
            the offset is in a frame of the text, binary, ping, pong or close
            that begins at START
  nothing begins at OFFSET but a head: VERDICT
            the stream ends in the head of a frame that begins there, or is
            refused in it
  nothing begins at OFFSET; it is in the head at START: VERDICT
            the same, of the head that begins at START
  nothing begins at OFFSET: VERDICT
            all that came ends before it, or a Close does

Example: a message in two fragments, and where its second one is
  $ printf '\\001\\003Hel\\200\\002lo' > stream
  $ wsn payload --role server --at 0 stream; echo
  Hello
  $ wsn payload --role server --at 5 stream 2>&1
  nothing begins at 5; it is in the text at 0";

pub const NORMAL: &str = "\
Write a stream's normal form: one frame for each message or control";

pub const NORMAL_DETAILS: &str = "\
Reads a stream and writes its normal form, as bytes: for each message, ping,
pong and Close one final frame, its length encoded in the fewest bytes, with a
key of zeros for a client and none for a server. Each is written as soon as the
frame that ends it has come. The bytes after a Close and a message that a Close
interrupts are left out. If the stream isn't accepted, the verdict's line goes
to standard error.

Example: a client's \"Hello\"
  $ printf '\\201\\205\\067\\372\\041\\075\\177\\237\\115\\121\\130' |
      wsn normal --role client | od -An -tx1
   81 85 00 00 00 00 48 65 6c 6c 6f";

pub const SAME: &str = "\
Report whether two streams mean the same, however framed and masked";

pub const SAME_DETAILS: &str = "\
Reads two streams, both sent by endpoints of the given role, and prints one
line:
  equal           both are accepted and mean the same
  different K     both are accepted, and event K (a message, ping, pong or
                  Close), counted from 0, is the first that differs
  first VERDICT   the first isn't accepted
  second VERDICT  the second isn't accepted, and the first is
Either FIRST or SECOND may be -, which is standard input; ./- is a file named -.
--without ping,pong leaves pings and pongs out of both: so a keepalive that came
a message later is no difference. K then counts what is left.
--view BYTES shows what differs. Lines follow 'different K':
  first EVENT     event K of the first stream, as 'wsn show --role' prints it
  second EVENT    that of the second; - in place of EVENT where a stream has no
                  event K
  differ-at PLACE VIEW VIEW
                  if both have one and their payloads differ: the first byte
                  that does, from 0, and both payloads from 8 bytes before it
                  on: a text in ASCII, with other characters as \\u and four
                  digits; all else in hexadecimal; .. where bytes are left out
With --json it prints an object: {\"type\":\"comparison\",\"answer\":\"equal\"}, or with
\"answer\":\"different\" and \"event\":K, or with \"answer\":\"first\" or \"second\" and the
verdict as \"verdict\" ('wsn help judge'). With --view the objects of both events,
or null, follow K as \"first\" and \"second\" ('wsn help show'), and then
\"differ_at\": null, or PLACE as \"in_payload\" and the views as \"first\" and
\"second\", each with \"from\", the place where it begins, \"text\" or \"hex\", and
\"truncated\":true if bytes follow (null if BYTES is 0).

Example: one frame, and the same message in two
  $ printf '\\201\\002Hi' > one; printf '\\001\\001H\\200\\001i' > two
  $ wsn same --role server one two
  equal";
