use std::alloc::Allocator;
use std::cell::RefCell;
use std::io::{self, Read, Write};
use std::rt::Runtime;
use wsn_capture::SideReader;
use wsn_cli::named_input::{hold_standard_input, open};
use wsn_cli::pipe::Pipe;
use wsn_cli::printed_hints::print_hint;
use wsn_cli::stdio::{FAULT, OneLine, diagnose_stop, finish};
use wsn_cli::{ComparedHint, Comparison, hint_on_sides, hint_on_streams};
use wsn_io::{BlockReader, BlockWriter, FirstBytes, Input, Output, Stop, TiedWriter};
use wsn_job::{ComparedStreams, Ran, run_same, run_same_on_sides};
use wsn_wire::Role;

/// A comparison, and with a side that its inputs are captures, of which it reads what this endpoint sent.
#[derive(Clone, Copy)]
pub struct SidedComparison {
    pub comparison: Comparison,
    pub side: Option<Role>,
}

/// How a comparison ended.
#[derive(Drop)]
struct Ended {
    ran: Ran,
    /// Whether a read of the first input failed, as it does at a line of a capture that isn't accepted.
    first_failed: bool,
    /// What is to be printed on standard error.
    diagnosed: OneLine,
}

/// Compares the streams in two files and returns the exit status. Both are opened before either is read.
pub fn compare<R: Runtime + AllocGlobal>(
    rt: &R,
    asked: &SidedComparison,
    first: &Option<String>,
    second: &Option<String>,
    hints_in_colors: bool,
) -> u8 {
    let _held = hold_standard_input(rt);
    let first = match open(rt, first) {
        Ok(input) => input,
        Err(status) => return status,
    };
    match open(rt, second) {
        Ok(second) => compare_on(rt, asked, first, second, hints_in_colors),
        Err(status) => status,
    }
}

/// Compares the streams on two inputs, and returns the exit status. Nothing is reported if nobody reads standard output.
fn compare_on<R: Runtime + AllocGlobal, A: Read + Drop, B: Read + Drop>(
    rt: &R,
    asked: &SidedComparison,
    first: A,
    second: B,
    hints_in_colors: bool,
) -> u8 {
    let mut first = FirstBytes::new(first);
    let mut second = FirstBytes::new(second);
    let mut output = Pipe::new(io::writer(rt));
    let ended = compare_inputs(rt.alloc(), &mut first, &mut second, asked, &mut output);
    if output.has_no_reader() {
        return FAULT;
    }
    match ended {
        Some(ended) => {
            finish(rt, &ended.diagnosed);
            let hint = hint_on(asked, first.kept(), second.kept(), &ended);
            if let Some(hint) = hint {
                print_hint(rt, hint, hints_in_colors);
            }
            ended.ran.status
        }
        None => diagnose_stop(rt, Stop::Write),
    }
}

/// The hint on a comparison of inputs with these first bytes, if there is one.
fn hint_on(
    asked: &SidedComparison,
    first: &[u8],
    second: &[u8],
    ended: &Ended,
) -> Option<ComparedHint> {
    match asked.side {
        None => hint_on_streams(asked.comparison, first, second, ended.ran.answer),
        Some(_) => {
            let failed = if ended.first_failed { first } else { second };
            hint_on_sides(
                asked.comparison,
                failed,
                !ended.first_failed,
                ended.ran.answer,
            )
        }
    }
}

/// Compares the streams on two inputs, or one side of the captures on them, and prints the answer; `None` if the output
/// failed.
fn compare_inputs<A: Allocator + Copy, R: Read + Drop, S: Read + Drop, W: Write + Drop>(
    alloc: A,
    first: R,
    second: S,
    asked: &SidedComparison,
    output: W,
) -> Option<Ended> {
    let output = RefCell::new(BlockWriter::new(output));
    let mut writer = TiedWriter::new(&output);
    let ended = match asked.side {
        None => compare_streams(alloc, first, second, asked.comparison, &mut writer),
        Some(side) => {
            let first = SideReader::new(BlockReader::new(first), side);
            let second = SideReader::new(BlockReader::new(second), side);
            compare_sides(alloc, first, second, asked.comparison, &mut writer)
        }
    };
    writer.flush().is_ok().then_some(ended)
}

/// Compares two streams, and prints the answer.
fn compare_streams<A: Allocator + Copy, R: Read + Drop, S: Read + Drop, W: Write + Drop>(
    alloc: A,
    first: R,
    second: S,
    comparison: Comparison,
    writer: W,
) -> Ended {
    let mut streams = ComparedStreams {
        first: Input::new(BlockReader::new(first)),
        second: Input::new(BlockReader::new(second)),
    };
    let mut printed = Output::new(writer);
    let mut diagnosed = OneLine::new();
    let mut errors = Output::new(&mut diagnosed);
    let ran = run_same(alloc, &mut streams, comparison, &mut printed, &mut errors);
    Ended {
        ran,
        first_failed: streams.first.failed(),
        diagnosed,
    }
}

/// Compares two sides of captures, and prints the answer.
fn compare_sides<A: Allocator + Copy, R: Read + Drop, S: Read + Drop, W: Write + Drop>(
    alloc: A,
    first: SideReader<R>,
    second: SideReader<S>,
    comparison: Comparison,
    writer: W,
) -> Ended {
    let mut sides = ComparedStreams {
        first: Input::new(first),
        second: Input::new(second),
    };
    let mut printed = Output::new(writer);
    let mut diagnosed = OneLine::new();
    let mut errors = Output::new(&mut diagnosed);
    let ran = run_same_on_sides(alloc, &mut sides, comparison, &mut printed, &mut errors);
    Ended {
        ran,
        first_failed: sides.first.failed(),
        diagnosed,
    }
}
