//! Help texts, at most 80 columns wide: of the program, of `explain`, and, in a file for what they read, of the other
//! commands.

pub mod captures;
pub mod plans;
pub mod streams;

/// What `--version` prints after the program's name: the version, and what it was proved with. The version is also in
/// `include/wsn.h` and `python/wsn.py`; `tests/program` compares the three.
pub const VERSION: &str = "0.1.0\nproved with rattle's logic dac8208d650f15bf";

pub const PROGRAM: &str = "\
Read what one endpoint of a WebSocket connection sent (RFC 6455)";

/// What a stream is and where it comes from.
pub const PROGRAM_DETAILS: &str = "\
A stream is the bytes that one endpoint sent after the opening handshake, with
no extension in use, so without compression. A command reads it from FILE; from
standard input if FILE is missing or -. With --capture the input is a capture of
both sides, as closing reads it, and the stream is what --role's endpoint sent.

'wsn help COMMAND' lists a command's options, explains its output and gives an
example. 'wsn explain WORD' explains a printed word, such as reserved-bits: what
usually causes it, and what to do next.";

pub const EXPLAIN: &str = "\
Explain a word that wsn prints, or list the words";

pub const EXPLAIN_DETAILS: &str = "\
Prints what a word means: what was seen, what RFC 6455 says, usual causes and
what to do next. Without a word it lists all words, in groups: the reasons of
refusals, the other words of verdicts and reports, close codes, also those that
are never sent, the faults of plans and captures, and errors, such as 'read
failed'. The status is 2 for any other word.

Example: why a plan doesn't fit
  $ wsn explain no-message | head -n 2
  no-message: this step is a 'piece' or 'last', which need a message, but only
  control frames are left in the stream.";

/// Appended to the help of every command.
pub const SHARED: &str = "
The verdict's line:
  accepted USED tail TAIL unfinished SIZE
    USED    the bytes up to the end of the last frame
    TAIL    the bytes after a Close
    SIZE    the bytes so far of the message that a Close interrupts, or -
  cut USED  valid so far; the input, of USED bytes, ends inside a frame or a
            message
  refused OFFSET REASON CODE
    OFFSET  the offset of the offending byte, from 0
    REASON  the rule that is broken, such as mask-missing: 'wsn explain REASON'
    CODE    the close code that an endpoint would send

A line 'hint: TEXT' on standard error says what an input looks like, such as a
pcap, or what a refusal usually means, and what to do. It changes no answer.

Exit status:
  0  accepted; for same, equal; for plan, there is one; for recut, done; for
     payload, all of it is written; for redact, all of it, whatever the verdict;
     for closing and show, clean or complete
  1  any other verdict, answer or outcome
  2  no answer; a line on standard error says why: read failed, write failed,
     input limit (more than 2^40 bytes came), out of memory, cannot read FILE:
     WHY, line N: WORD (a malformed line of a capture: 'wsn help closing'),
     nothing begins at OFFSET (payload), usage: WHY; or several lines, if the
     command line is wrong; or none, if the reader of standard output has ended,
     as head does
";
