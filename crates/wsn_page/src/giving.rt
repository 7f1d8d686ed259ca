ghost use Rattle.std.specs.Prelude.{◌≡◌};
ghost use Rattle.wsn_page.specs.Calls.{call, redacted_message, shown_message, stream_message};
ghost use Rattle.wsn_job.specs.Calls.{Gives, fitted};
ghost use Rattle.wsn_job.specs.Closings.{closing_status};
ghost use Rattle.wsn_job.specs.Diagnostics.{capture_stop_line};
ghost use Rattle.wsn_job.specs.Redactions.{redact_status};
ghost use Rattle.wsn_print.specs.Statuses.{verdict_status};

use crate::answer::Answer;
use wsn_capture::{CaptureReport, CaptureStop};
use wsn_io::Stop;
use wsn_print::{line_of_line_fault, line_of_stop, status_of_outcome, status_of_verdict};
use wsn_redact::RedactStop;
use wsn_rules::Verdict;
use wsn_show::ShowStop;

/// Gives what was shown of a capture, and how that ended.
pub(crate) fn give_shown(
    done: Result<CaptureReport, ShowStop>,
    text: &[u8],
    output: &mut [u8],
    message: &mut [u8],
) -> Answer
    ensures { Gives (call output.old output.new message.old message.new result) text.now (shown_message done)
        (closing_status done) }
{
    match done {
        Ok(read) => give(
            status_of_outcome(read.report.outcome),
            text,
            b"",
            output,
            message,
        ),
        Err(ShowStop::Capture(stop)) => give_capture_stop(stop, text, output, message),
        Err(ShowStop::Write) => {
            give(2, text, line_of_stop(Stop::Write).bytes(), output, message)
        }
    }
}

/// Gives what was shown of a stream, and how that ended.
pub(crate) fn give_stream(
    done: Result<Verdict, Stop>,
    text: &[u8],
    output: &mut [u8],
    message: &mut [u8],
) -> Answer
    ensures { Gives (call output.old output.new message.old message.new result) text.now (stream_message done)
        (verdict_status done) }
{
    let status = status_of_verdict(done);
    match done {
        Ok(_) => give(status, text, b"", output, message),
        Err(stop) => give(status, text, line_of_stop(stop).bytes(), output, message),
    }
}

/// Gives what was written of a capture's redaction, and how that ended.
pub(crate) fn give_redacted(
    done: Result<(), RedactStop>,
    text: &[u8],
    output: &mut [u8],
    message: &mut [u8],
) -> Answer
    ensures { Gives (call output.old output.new message.old message.new result) text.now (redacted_message done)
        (redact_status done) }
{
    match done {
        Ok(()) => give(0, text, b"", output, message),
        Err(RedactStop::Capture(stop)) => give_capture_stop(stop, text, output, message),
        Err(RedactStop::Write) => {
            give(2, text, line_of_stop(Stop::Write).bytes(), output, message)
        }
    }
}

/// Gives what was written of a stream's redaction, and how that ended.
pub(crate) fn give_redacted_stream(
    done: Result<Verdict, Stop>,
    text: &[u8],
    output: &mut [u8],
    message: &mut [u8],
) -> Answer
    ensures { Gives (call output.old output.new message.old message.new result) text.now (stream_message done)
        (redact_status done) }
{
    match done {
        Ok(_) => give(0, text, b"", output, message),
        Err(stop) => give(2, text, line_of_stop(stop).bytes(), output, message),
    }
}

/// Gives what was printed of a capture before a line that isn't accepted, or a read that failed.
fn give_capture_stop(
    stop: CaptureStop,
    text: &[u8],
    output: &mut [u8],
    message: &mut [u8],
) -> Answer
    ensures { Gives (call output.old output.new message.old message.new result) text.now (capture_stop_line stop) 2 }
{
    match stop {
        CaptureStop::Line { number, fault } => {
            let line = line_of_line_fault(number, fault.word());
            give(2, text, line.bytes(), output, message)
        }
        CaptureStop::Read => give(2, text, line_of_stop(Stop::Read).bytes(), output, message),
    }
}

/// Puts a text and a message into the caller's rooms.
fn give(status: u8, text: &[u8], said: &[u8], output: &mut [u8], message: &mut [u8]) -> Answer
    ensures { Gives (call output.old output.new message.old message.new result) text.now said.now status }
{
    put_front(text, output);
    put_front(said, message);
    Answer {
        output: text.len(),
        message: said.len(),
        status,
    }
}

/// Puts as much of a text at a room's front as fits.
fn put_front(text: &[u8], room: &mut [u8])
    ensures { room.new ≡ fitted text.now room.old }
{
    let count = text.len().min(room.len());
    room[..count].copy_from_slice(&text[..count]);
}
