use std::cell::RefCell;
use std::io::{self, Read, Write};
use std::rt::Runtime;
use std::str;
use wsn_cli::canvas::Canvas;
use wsn_cli::named_input::{hold_standard_input, open_named};
use wsn_cli::pipe::Pipe;
use wsn_cli::stdio::{FAULT, OneLine, diagnose_stop};
use wsn_cli::{Escaped, Format, Layout};
use wsn_io::{BlockReader, BlockWriter, Input, Output, Stop, TiedWriter};
use wsn_job::{NamedClosing, run_named_closing};
use wsn_rules::Limits;

/// Judges the captures in these files, prints a line or an object for each, and returns the exit status: the greatest of
/// those of all. A file without an answer is reported on standard error, and the next one is read. The lines are coloured by
/// their layout.
pub fn judge_each<R: Runtime + AllocGlobal>(
    rt: &R,
    limits: Limits,
    format: Format,
    files: &[String],
    layout: Option<Layout>,
) -> u8 {
    let _held = hold_standard_input(rt);
    let mut output = Pipe::new(io::writer(rt));
    let canvas = Canvas::new(&mut output, layout);
    let printed = print_each_in(rt, limits, format, files, canvas);
    match printed {
        Some(status) => status,
        None if output.has_no_reader() => FAULT,
        None => diagnose_stop(rt, Stop::Write),
    }
}

/// Prints a line or an object for each of the captures, and then flushes the output; `None` if it failed.
fn print_each_in<R: Runtime + AllocGlobal, W: Write + Drop>(
    rt: &R,
    limits: Limits,
    format: Format,
    files: &[String],
    mut output: Canvas<W>,
) -> Option<u8> {
    let status = print_each(rt, limits, format, files, &mut output);
    output.flush().ok().and(status)
}

/// Prints a line or an object for each of the captures; `None` if the output failed.
fn print_each<R: Runtime + AllocGlobal, W: Write + Drop>(
    rt: &R,
    limits: Limits,
    format: Format,
    files: &[String],
    output: W,
) -> Option<u8> {
    let output = RefCell::new(BlockWriter::new(output));
    let mut writer = TiedWriter::new(&output);
    let mut status = 0;
    for file in files {
        let closing = NamedClosing {
            name: file.as_str(),
            limits,
            format,
        };
        let one = match open_named(rt, closing.name) {
            Ok(input) => print_one(rt, &closing, input, &mut writer)?,
            Err(status) => status,
        };
        status = status.max(one);
    }
    writer.flush().is_ok().then_some(status)
}

/// Prints the line or object of one capture, and returns its exit status; `None` if the output failed. A stop is reported
/// on standard error, after the file's name.
fn print_one<R: Runtime, S: Read + Drop, W: Write + Drop>(
    rt: &R,
    closing: &NamedClosing<'_>,
    input: S,
    writer: W,
) -> Option<u8> {
    let mut diagnosed = OneLine::new();
    let mut printed = Output::new(writer);
    let status = run_named_closing(
        closing,
        &mut Input::new(BlockReader::new(input)),
        &mut printed,
        &mut Output::new(&mut diagnosed),
    );
    if printed.failed() {
        return None;
    }
    if !diagnosed.is_empty() {
        report(rt, closing.name, &diagnosed);
    }
    Some(status)
}

/// Prints what is said of a file on standard error, after its name.
fn report<R: Eprint>(rt: &R, name: &str, diagnosed: &OneLine) {
    if let Ok(line) = str::from_utf8(diagnosed.as_slice()) {
        let name = Escaped::new(name);
        let _ = eprint!(rt; "{name}: {line}");
    }
}
