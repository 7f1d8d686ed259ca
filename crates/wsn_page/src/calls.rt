ghost use Rattle.wsn_command.specs.declared.job.Job.TheVariants.{Redact, RedactCapture, Show, ShowStream};
ghost use Rattle.wsn_page.specs.Asking.{limits_asked, role_asked};
ghost use Rattle.wsn_page.specs.Calls.{GivesRun, GivesShown, call};

use crate::answer::Answer;
use crate::giving::{give_redacted, give_redacted_stream, give_shown, give_stream};
use crate::room::Room;
use crate::settings::Settings;
use wsn_io::{Input, Output};
use wsn_print::VIEW_MAX;
use wsn_redact::{redact, redact_capture};
use wsn_show::{show, show_stream};

/// The most bytes of a payload that are shown.
const PAYLOAD_MAX: usize = VIEW_MAX as usize;

/// Shows what both sides of a capture said, in order, as `wsn show` does. The role counts for nothing. The text is
/// composed in `scratch`. If it doesn't fit there, the call gives what fits, and the message `write failed`.
#[unsafe(no_mangle)]
pub extern "C" fn wsn_page_show(
    settings: &Settings,
    capture: &[u8],
    scratch: &mut [u8],
    output: &mut [u8],
    message: &mut [u8],
) -> Answer
    ensures { GivesShown settings.now (λ style. Show (limits_asked settings.now) style) capture.now
        (call output.old output.new message.old message.new result) }
{
    let mut printed = Output::new(Room::new(scratch));
    let mut client = [0; PAYLOAD_MAX];
    let mut server = [0; PAYLOAD_MAX];
    let done = show(
        &mut Input::lent(capture),
        &mut printed,
        settings.limits(),
        settings.style(),
        &mut client,
        &mut server,
    );
    give_shown(done, printed.into_writer().text(), output, message)
}

/// Shows what the stream of one endpoint says, in order, and its verdict, as `wsn show --role` does. The text is composed
/// in `scratch`; a write that doesn't fit there fails.
#[unsafe(no_mangle)]
pub extern "C" fn wsn_page_show_stream(
    settings: &Settings,
    stream: &[u8],
    scratch: &mut [u8],
    output: &mut [u8],
    message: &mut [u8],
) -> Answer
    ensures { GivesShown settings.now
        (λ style. ShowStream (role_asked settings.now) (limits_asked settings.now) style) stream.now
        (call output.old output.new message.old message.new result) }
{
    let mut printed = Output::new(Room::new(scratch));
    let mut memory = [0; PAYLOAD_MAX];
    let done = show_stream(
        &mut Input::lent(stream),
        &mut printed,
        settings.role(),
        settings.limits(),
        settings.style(),
        &mut memory,
    );
    give_stream(done, printed.into_writer().text(), output, message)
}

/// Writes a capture without what was said, as `wsn redact` does: its redaction. Role and detail count for nothing. The
/// text is composed in `scratch`; a write that doesn't fit there fails.
#[unsafe(no_mangle)]
pub extern "C" fn wsn_page_redact(
    settings: &Settings,
    capture: &[u8],
    scratch: &mut [u8],
    output: &mut [u8],
    message: &mut [u8],
) -> Answer
    ensures { GivesRun (RedactCapture (limits_asked settings.now)) capture.now
        (call output.old output.new message.old message.new result) }
{
    let mut written = Output::new(Room::new(scratch));
    let done = redact_capture(&mut Input::lent(capture), &mut written, settings.limits());
    give_redacted(done, written.into_writer().text(), output, message)
}

/// Writes the stream of one endpoint without what was said, as `wsn redact --role` does: its redaction. Detail counts for
/// nothing. The bytes are composed in `scratch`; a write that doesn't fit there fails.
#[unsafe(no_mangle)]
pub extern "C" fn wsn_page_redact_stream(
    settings: &Settings,
    stream: &[u8],
    scratch: &mut [u8],
    output: &mut [u8],
    message: &mut [u8],
) -> Answer
    ensures { GivesRun (Redact (role_asked settings.now) (limits_asked settings.now)) stream.now
        (call output.old output.new message.old message.new result) }
{
    let mut written = Output::new(Room::new(scratch));
    let done = redact(
        &mut Input::lent(stream),
        &mut written,
        settings.role(),
        settings.limits(),
    );
    give_redacted_stream(done, written.into_writer().text(), output, message)
}
