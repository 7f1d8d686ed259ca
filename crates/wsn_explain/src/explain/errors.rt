//! The lines on standard error of a command that has no answer; its status is 2.
use super::Entry;

/// The lines of a command that has no answer.
pub fn error_entries() -> [&'static Entry; 8] {
    [
        &Entry {
            words: &["usage"],
            text: "\
usage: TEXT: the words of the command line don't go together, or one isn't
UTF-8; TEXT says what is wrong.
Usual causes, at recut: neither or both of --plan and --size; --weave or --key
with --plan; --key with --role server; a key that isn't 8 hexadecimal digits.
At same and recut: two inputs that are both standard input. At show, closing and
redact: --capture without --role, since they read a capture as it is. At any
command: a number with a sign (+5); a file name with bytes that aren't UTF-8.
Next: 'wsn help recut' has an example of each form. A file of any name can be
given by its descriptor: wsn same --role R /dev/fd/3 b.bin 3< \"$file\"
",
        },
        &Entry {
            words: &["read failed"],
            text: "\
read failed: the system reported an error while wsn read its input; what was
printed before is right for the bytes that came.
Usual causes: standard input is a directory, or is closed (<&-); a network file
system or a disk that fails; a terminal that went away.
Next: try cat FILE > /dev/null, which names the system's error. A pipe whose
writer ends is no failure, but the end of the input.
",
        },
        &Entry {
            words: &["write failed"],
            text: "\
write failed: the system accepted no more of the output, which is incomplete.
Usual causes: a full disk or quota; standard output is closed (>&-). A reader in
the pipeline that ended, such as head, isn't reported: wsn just ends, with
status 2.
Next: df -h . for the disk. Don't use the output: run the command again.
",
        },
        &Entry {
            words: &["input limit"],
            text: "\
input limit: the input has more than 2^40 bytes (1 TiB), and wsn reads no more.
Usual causes: an endless input, such as a device; a pipeline that repeats
itself.
Next: judge a part: head -c 1000000000 FILE | wsn judge --role R. A part that
begins with a message can be judged alone; 'wsn frames' prints the offsets.
",
        },
        &Entry {
            words: &["out of memory"],
            text: "\
out of memory: the system refused to give wsn memory.
judge, frames, payload, closing and show need little; but show --view all takes
twice --limit for each side that is shown: 64 MiB for a capture by default, 32
MiB with --role. normal and same hold one message, at most --limit bytes; plan a
step for each frame; recut the whole meaning of the stream, and its plan.
Usual causes: a limit on the process (ulimit -v, a container's); a recut of a
very large stream.
Next: for show use --view 4096, and 'wsn payload' for the one payload that is
needed; else raise the limit. For recut, cut the stream between two messages,
where 'wsn frames' prints offsets. A lower --limit refuses longer messages.
",
        },
        &Entry {
            words: &["cannot read"],
            text: "\
cannot read FILE: WHY: the file can't be opened, or is a folder. WHY is missing
if the system gives another reason, or if reading a plan fails (of other files
that is 'read failed').
Usual causes: a misspelt name; the file is in another folder (no such file);
another user's file (no permission).
Next: ls -l FILE. In the printed name, \\x1b and the like are control characters,
\\u202e and the like are characters that change how a terminal shows text.
",
        },
        &Entry {
            words: &["nothing begins at"],
            text: "\
nothing begins at OFFSET: no message, ping, pong or Close has its first frame
there, so payload writes nothing. After it: the event in whose frames the offset
lies; 'but a head' or 'it is in the head at START', and the stream's verdict, if
the stream ends in a frame's head, or is refused in it; or the verdict alone, if
all that came ends before the offset, or a Close does.
Usual causes: the offset of a message's second frame, of a byte inside a frame,
or of a refusal's PLACE; a stream that is cut short; the other side's offset, so
the other --role; a capture without --capture.
Next: give the offset that the line names, or one that show prints behind SIDE
and TIME.
",
        },
        &Entry {
            words: &["hint"],
            text: "\
hint: TEXT, on standard error: the input looks like an everyday mistake, and
TEXT says what to do. Output and status are as without it.
Each command has one for a stream that is empty, or refused at offset 0 or 1;
for a capture that is empty, or has a malformed line and begins like another
file, or a side that looks compressed, exchanged or in another encoding; at show
and closing for a wrong handshake, at closing for bytes after a Close; recut for
a plan with a byte order mark. Of two inputs it names FIRST or SECOND. With
--json none comes.
Next: do what it says, and run the command again. It is a guess by the first 16
bytes (xxd -l 32 FILE shows them), of a capture by comments in the first 65,536.
",
        },
    ]
}
