ghost use Rattle.std.specs.Prelude.{◌≡◌, length};
ghost use Rattle.wsn_command.specs.Jobs.{MayRun};
ghost use Rattle.wsn_job.specs.Calls.{Gives, fitted};
ghost use Rattle.wsn_c.specs.Calls.{GivesRun, GivesUsage, call};

use crate::answer::Answer;
use crate::text::Text;
use std::alloc::Global;
use wsn_io::{Input, Output};
use wsn_job::{Job, run};

/// Does a command's work over bytes in memory.
pub(crate) fn run_over(
    alloc: Global,
    job: &Job,
    bytes: &[u8],
    output: &mut [u8],
    message: &mut [u8],
) -> Answer
    requires may_run { MayRun job.now }
    ensures { GivesRun job.now bytes.now (call output.old output.new message.old message.new result) }
{
    let mut printed = Output::new(Text::new(alloc));
    let mut said = Output::new(Text::new(alloc));
    let ran = run(alloc, job, &mut Input::lent(bytes), &mut printed, &mut said);
    give(
        ran.status,
        printed.into_writer().as_slice(),
        said.into_writer().as_slice(),
        output,
        message,
    )
}

/// Reports that an option or an argument of a call is out of range.
pub(crate) fn give_usage(output: &mut [u8], message: &mut [u8]) -> Answer
    ensures { GivesUsage (call output.old output.new message.old message.new result) }
{
    give(2, b"", b"usage\n", output, message)
}

/// Puts a text and a message into the caller's rooms.
pub(crate) fn give(
    status: u8,
    text: &[u8],
    said: &[u8],
    output: &mut [u8],
    message: &mut [u8],
) -> Answer
    ensures { Gives (call output.old output.new message.old message.new result) text.now said.now status }
{
    put_front(text, output);
    put_front(said, message);
    Answer {
        output: text.len(),
        message: said.len(),
        status,
    }
}

/// Puts as much of a text at a room's front as fits.
fn put_front(text: &[u8], room: &mut [u8])
    ensures { room.new ≡ fitted text.now room.old }
{
    let count = text.len().min(room.len());
    room[..count].copy_from_slice(&text[..count]);
}
