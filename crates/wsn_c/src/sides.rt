ghost use Rattle.wsn_c.specs.Sides.{IsSent, GivesSent};
ghost use Rattle.wsn_c.specs.Calls.{call};

use crate::answer::Answer;
use crate::options::Options;
use crate::running::{give, give_usage};
use std::alloc::Global;
use std::io::Read;
use wsn_capture::{CaptureStop, SideReader};
use wsn_io::Stop;
use wsn_print::{line_of_line_fault, line_of_stop};
use wsn_wire::Role;

/// Gives the bytes that an endpoint sent in a capture, joined: what the commands read with `--capture`.
#[unsafe(no_mangle)]
pub extern "C" fn wsn_sent(
    alloc: Global,
    options: &Options,
    capture: &[u8],
    output: &mut [u8],
    message: &mut [u8],
) -> Answer
    ensures { IsSent options.now capture.now (call output.old output.new message.old message.new result) }
{
    match options.asked() {
        Some(asked) => give_sent(alloc, asked.role, capture, output, message),
        None => give_usage(output, message),
    }
}

/// Gives the bytes of a side, up to a faulty line if there is one.
fn give_sent(
    alloc: Global,
    role: Role,
    capture: &[u8],
    output: &mut [u8],
    message: &mut [u8],
) -> Answer
    ensures { GivesSent role capture.now (call output.old output.new message.old message.new result) }
{
    let mut side = SideReader::new(capture, role);
    let mut sent = Vec::new(alloc);
    if side.read_to_end(&mut sent).is_ok() {
        return give(0, sent.as_slice(), b"", output, message);
    }
    match side.stop() {
        Some(CaptureStop::Line { number, fault }) => {
            let line = line_of_line_fault(number, fault.word());
            give(2, sent.as_slice(), line.bytes(), output, message)
        }
        Some(CaptureStop::Read) | None => {
            let line = line_of_stop(Stop::Memory);
            give(2, b"", line.bytes(), output, message)
        }
    }
}
