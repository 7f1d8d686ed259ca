//! Help texts of the commands on plans: `plan` and `recut`.

pub const PLAN: &str = "\
Print how a stream is split into frames, as a plan for recut";

pub const PLAN_DETAILS: &str = "\
Reads a stream and prints its plan, a line for each frame:
  piece N KEY     a message's frame without FIN, with N bytes of payload
  last KEY        a message's frame with FIN, with the rest of the message
  control KEY     a ping, pong or Close
    KEY     the masking key in hexadecimal, or - for a server; then, for a
            message's frame, 'two' or 'eight' if its length is encoded in two
            or eight bytes and needs fewer
Each line ends in a line feed alone. The normal form and the plan together hold
all of a stream, up to the end of its Close: recut rebuilds the stream from
them. If the stream isn't accepted, the verdict's line goes to standard error.
If a Close interrupts a message, there is no plan, and the line 'unfinished'
goes there. The status is 1 in both cases.

Example: a server's message in two fragments, and a ping between them
  $ printf '\\001\\003Hel\\211\\000\\200\\002lo' | wsn plan --role server
  piece 3 -
  control -
  last -";

pub const RECUT: &str = "\
Write what a stream means, split into other frames";

pub const RECUT_DETAILS: &str = "\
Reads a stream and writes what it means in other frames, by a plan or by size:
  wsn recut --role R --plan PLAN [FILE]
  wsn recut --role R --size BYTES [--weave] [--key HEX] [FILE]
Either --plan or --size is required. --weave and --key require --size, and
--key requires --role client. 'wsn help plan' explains a plan's lines. PLAN may
be -, standard input, if FILE isn't.

Nothing is written until the stream and the plan are read to their ends. If the
stream isn't accepted, the verdict's line goes to standard error. If the plan
doesn't fit what the stream means, this line goes there:
  fault STEP WORD
    STEP    the plan's line, counted from 0, or the number of lines if there
            are too few
    WORD    key-mismatch, steps-left, no-message, piece-too-long,
            too-many-pieces, not-a-control, not-a-message, wrong-form or
            events-left
A plan file that is unreadable or malformed gives status 2, and the stream isn't
read: cannot read PLAN: WHY, plan file too long (more than 64 MiB), or plan line
N: WORD, with N from 1 and WORD bad-form, bad-number, bad-key or bad-length.
Lines end in a line feed alone, which the last may lack; a carriage return
before it is reported as bad-key, or as bad-length after 'two' or 'eight'.
The plan of some five to ten million frames, as 'wsn plan' prints it, is too
long. The bytes after a Close and a message that a Close interrupts are left
out.

Example: \"Hello\" in frames of two bytes; a stream rebuilt by its own plan
  $ printf '\\201\\005Hello' | wsn recut --role server --size 2 | od -An -tx1
   01 02 48 65 00 02 6c 6c 80 01 6f
  $ printf '\\001\\003Hel\\211\\000\\200\\002lo' > stream
  $ wsn normal --role server < stream > normal
  $ wsn plan --role server < stream > plan
  $ wsn recut --role server --plan plan < normal | cmp - stream && echo the same
  the same";
