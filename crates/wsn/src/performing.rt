ghost use Rattle.wsn_command.specs.Jobs.{MayRun};
ghost use Rattle.wsn_cli.specs.Requests.{IsOwnSide};

use std::alloc::{Allocator, Global};
use std::cell::RefCell;
use std::io::{self, Read, Write};
use std::rt::Runtime;
use wsn_capture::SideReader;
use wsn_cli::canvas::Canvas;
use wsn_cli::named_input::open;
use wsn_cli::pipe::Pipe;
use wsn_cli::printed_hints::give_hint;
use wsn_cli::stdio::{FAULT, OneLine, diagnose_stop, finish};
use wsn_cli::terminals::Colors;
use wsn_cli::{Job, hint_on_run};
use wsn_io::{BlockReader, BlockWriter, FirstBytes, Input, Output, Stop, TiedReader, TiedWriter};
use wsn_job::{Ran, run, run_on_side};
use wsn_wire::Role;

/// A job, and with a side that its input is a capture, of which the job reads what this endpoint sent.
#[derive(Drop)]
pub struct SidedJob<'a, A: Allocator = Global> {
    pub job: &'a Job<A>,
    pub side: Option<Role>,
}

/// Does a command's work over the file with this name, or over standard input, and returns the exit status.
pub fn perform<R: Runtime + AllocGlobal>(
    rt: &R,
    asked: &SidedJob<'_>,
    file: &Option<String>,
    colors: Colors,
) -> u8
    requires may_run { MayRun asked.now.job.now }
    requires own { IsOwnSide asked.now.job.now asked.now.side }
{
    match open(rt, file) {
        Ok(input) => perform_on(rt, asked, input, colors),
        Err(status) => status,
    }
}

/// Does a command's work over an input and standard output, and returns the exit status. Nothing is reported if nobody
/// reads standard output.
pub fn perform_on<R: Runtime + AllocGlobal, S: Read + Drop>(
    rt: &R,
    asked: &SidedJob<'_>,
    input: S,
    colors: Colors,
) -> u8
    requires may_run { MayRun asked.now.job.now }
    requires own { IsOwnSide asked.now.job.now asked.now.side }
{
    let mut first = FirstBytes::new(input);
    let mut diagnosed = OneLine::new();
    let mut output = Pipe::new(io::writer(rt));
    let done = work_in(
        rt.alloc(),
        asked,
        &mut first,
        Canvas::new(&mut output, colors.answer),
        &mut diagnosed,
    );
    if output.has_no_reader() {
        return FAULT;
    }
    match done {
        Some(ran) => {
            finish(rt, &diagnosed);
            let hint = hint_on_run(asked.job, asked.side, first.kept(), ran.answer);
            give_hint(rt, hint, colors.hints);
            ran.status
        }
        None => diagnose_stop(rt, Stop::Write),
    }
}

/// Does a command's work as [`work`] does, and then flushes the output.
fn work_in<A: Allocator + Copy, R: Read + Drop, W: Write + Drop>(
    alloc: A,
    asked: &SidedJob<'_, A>,
    input: R,
    mut output: Canvas<W>,
    diagnosed: &mut OneLine,
) -> Option<Ran>
    requires may_run { MayRun asked.now.job.now }
    requires own { IsOwnSide asked.now.job.now asked.now.side }
{
    let ran = work(alloc, asked, input, &mut output, diagnosed);
    output.flush().ok().and(ran)
}

/// Does a command's work over an input and an output; the output is flushed before each read. Returns the exit status and
/// the answer, and puts what is to be printed on standard error into the given line; `None` if the output failed.
fn work<A: Allocator + Copy, R: Read + Drop, W: Write + Drop>(
    alloc: A,
    asked: &SidedJob<'_, A>,
    input: R,
    output: W,
    diagnosed: &mut OneLine,
) -> Option<Ran>
    requires may_run { MayRun asked.now.job.now }
    requires own { IsOwnSide asked.now.job.now asked.now.side }
{
    let output = RefCell::new(BlockWriter::new(output));
    let mut reader = BlockReader::new(TiedReader::new(input, &output));
    let mut writer = TiedWriter::new(&output);
    let mut printed = Output::new(&mut writer);
    let mut errors = Output::new(diagnosed);
    let ran = match asked.side {
        None => run(
            alloc,
            asked.job,
            &mut Input::new(&mut reader),
            &mut printed,
            &mut errors,
        ),
        Some(role) => {
            let side = SideReader::new(&mut reader, role);
            run_on_side(
                alloc,
                asked.job,
                &mut Input::new(side),
                &mut printed,
                &mut errors,
            )
        }
    };
    writer.flush().is_ok().then_some(ran)
}
