//! The faults of a capture's line, and of a plan's.
use super::Entry;

/// The faults of a capture's line, and of a plan's.
pub fn line_entries() -> [&'static Entry; 12] {
    [
        &Entry {
            words: &["line"],
            text: "\
line N: WORD, from 'wsn show', 'wsn closing' or with --capture: line N of the
capture, counted from 1, is malformed. Reading ends there; the status is 2.
A line is 'C HEX' or 'S HEX' (bytes that the client or the server sent), 'C.' or
'S.' (its direction ended), empty, or a comment that begins with #.
Next: see the line: sed -n 'Np' FILE | cut -c 1-80 (N is the number). Then 'wsn
explain WORD'.
",
        },
        &Entry {
            words: &["plan line"],
            text: "\
plan line N: WORD, from 'wsn recut': line N of the plan file, counted from 1, is
malformed. The stream isn't read, and the status is 2.
A line is 'piece N KEY', 'last KEY' or 'control KEY'; ' two' or ' eight' may
follow the key of a message's frame. There are no comments and no empty lines.
Next: see the line: sed -n 'Np' a.plan | cat -vet (N is the number; a line feed
shows as $, a carriage return as ^M). Then 'wsn explain WORD'.
",
        },
        &Entry {
            words: &["bad-form"],
            text: "\
bad-form, in 'line N': the line of a capture has none of the forms 'C HEX', 'S
HEX', 'C.', 'S.', empty, or # and a comment.
bad-form, in 'plan line N': the line of a plan hasn't the fields of a step, each
after one space: piece N KEY, last KEY, control KEY.
Usual causes: lower-case c or s; blanks or tabs in front; a header or a time in
the line; a byte order mark in line 1 (ef bb bf); an empty line or a comment in
a plan; two spaces; a file of another kind, such as a pcap or a raw stream.
Next: look at the line: sed -n 'Np' FILE | xxd | head (N is the number).
",
        },
        &Entry {
            words: &["bad-hex"],
            text: "\
bad-hex: what follows 'C ' or 'S ' isn't pairs of hexadecimal digits.
Usual causes: an odd number of digits; spaces or colons between the bytes; a
prefix 0x; no digits at all; a second space, or a blank at the end of the line;
a line that the recorder was writing when it stopped.
Next: look at the line's end: sed -n 'Np' FILE | cat -vet (N is the number). If
it is the last line of a file that still grows, ignore it. To remove separators:
  sed '/^[CS] /{s/[ :]//g;s/^./& /;}' FILE
",
        },
        &Entry {
            words: &["after-end"],
            text: "\
after-end: a line has bytes of a side, or its end mark, after that side's end
mark (C. or S.).
RFC 6455, 7.1.1: a Close alone doesn't end a direction. The mark is for the end
of the TCP connection: a FIN ends one direction, a reset both.
Usual causes: two connections in one file; a recorder that writes the mark for a
Close; lines in another order than the bytes passed.
Next: one capture for each connection: split the file after the first C. and S.,
or move the mark to the end.
",
        },
        &Entry {
            words: &["too-long"],
            text: "\
too-long: the line has more than 8194 bytes: a letter, a space and 8192 digits
are the maximum, and a comment counts, too.
Usual causes: a recorder that writes each read of any size in one line; line
ends that were lost or are CR alone; a file that is no capture.
Next: write at most 4096 bytes into a line; bytes of one side may be split
anywhere. To split the lines of a file:
  awk '/^[CS] / { for (i = 3; i <= length($0); i += 8192)
    print substr($0, 1, 2) substr($0, i, 8192); next } 1' FILE
",
        },
        &Entry {
            words: &["too-many-lines"],
            text: "\
too-many-lines: the capture has more than 1000000 lines, of any kind.
Usual causes: a recording of many hours; a recorder that writes a line for each
few bytes.
With --capture the maximum is the same.
Next: split the session's bytes into longer lines, of up to 4096 bytes each. Or
judge each side's bytes as a stream, which has no such maximum:
  sed -n 's/^S //p' FILE | xxd -r -p | wsn judge --role server
",
        },
        &Entry {
            words: &["input-limit"],
            text: "\
input-limit, in 'line N': with this line the side has more bytes than wsn reads
of one stream, 2^40.
It can't come from a capture of 1000000 lines, whose bytes are fewer; library
users can set a lower limit.
Next: 'input limit', in two words, is the line of the other commands: 'wsn
explain input limit'.
",
        },
        &Entry {
            words: &["bad-number"],
            text: "\
bad-number, in 'plan line N': the size in 'piece N KEY' isn't a decimal number
below 2^64 without leading zeros.
Usual causes: a sign, a fraction, hexadecimal digits, 03 for 3, a separator as
in 65,536.
Next: correct the line by hand, for instance 'piece 100 -' for a server.
",
        },
        &Entry {
            words: &["bad-key"],
            text: "\
bad-key, in 'plan line N': the key is neither - nor eight hexadecimal digits.
Usual causes: a carriage return at the line's end, from a file with line ends of
Windows; 0x in front, colons between the bytes; fewer than eight digits, from a
program that drops leading zeros.
Next: sed -n 'Np' a.plan | cat -vet shows a carriage return as ^M. To remove
them: tr -d '\\r' < a.plan > b.plan. A server's key is -.
",
        },
        &Entry {
            words: &["bad-length"],
            text: "\
bad-length, in 'plan line N': the field after the key is neither 'two' nor
'eight', the forms of a length in more bytes than it needs.
Usual causes: a carriage return after 'two' or 'eight', from a file with line
ends of Windows; a comment or a second number after the key.
Next: for the shortest encoding leave the field out. To remove carriage returns:
tr -d '\\r' < a.plan > b.plan.
",
        },
        &Entry {
            words: &["plan file too long"],
            text: "\
plan file too long: the plan file has more than 67108864 bytes (64 MiB), which
is some ten million frames. The stream isn't read, and the status is 2.
Usual causes: --plan names the wrong file, such as the recording itself; a
stream of very many small frames.
Next: look at it: head -n 3 FILE. A plan's lines begin with piece, last or
control. For frames of one size use --size instead of a plan.
",
        },
    ]
}
