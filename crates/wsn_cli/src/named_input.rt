ghost use Rattle.std.specs.Prelude.{◌≡◌, IfErr};
ghost use Rattle.wsn_cli.specs.Inputs.{input_name};

use crate::stdio::FAULT;
use crate::unread::{Unread, UnreadFile};
use std::fs::{self, OpenFile};
use std::io::{self, Read};
use std::rt::Runtime;

/// An input that a command line names: standard input or a file.
#[derive(Drop)]
pub enum NamedInput<I: Read, F: Read> {
    StandardInput(I),
    File(F),
}

impl<I: Read, F: Read> Read for NamedInput<I, F> {
    fn read(&mut self, into: &mut [u8]) -> io::Result<usize> {
        match self {
            NamedInput::StandardInput(input) => input.read(into),
            NamedInput::File(file) => file.read(into),
        }
    }
}

/// Opens an input: the file with this name, or standard input. The error is the exit status for a file that can't be
/// opened, or is a folder, which is reported as `cannot read` with its name and why.
pub fn open<R: Runtime>(rt: &R, file: &Option<String>) -> Result<NamedInput<R::Reader, R::File>, u8>
    ensures { IfErr result (λ status. status ≡ 2) }
{
    open_named(rt, name_of(file))
}

/// Opens the input with this name, as [`open`] does: `-` is standard input.
pub fn open_named<R: Runtime>(rt: &R, name: &str) -> Result<NamedInput<R::Reader, R::File>, u8>
    ensures { IfErr result (λ status. status ≡ 2) }
{
    if name == "-" {
        return Ok(NamedInput::StandardInput(rt.reader()));
    }
    match fs::open(rt, name) {
        Ok(file) => {
            if is_folder(&file) {
                Err(diagnose_unread(rt, name, Unread::Folder))
            } else {
                Ok(NamedInput::File(file))
            }
        }
        Err(error) => Err(diagnose_unread(rt, name, Unread::of(error.kind()))),
    }
}

/// Whether an open file is a folder, whose reading would fail.
fn is_folder<F: OpenFile>(file: &F) -> bool {
    match file.metadata() {
        Ok(metadata) => metadata.is_dir(),
        Err(_) => false,
    }
}

/// Keeps standard input that is closed from being read as a file that is opened: the system would give the file its
/// descriptor, and now gives it to a folder, whose reading fails.
pub fn hold_standard_input<R: Runtime>(rt: &R) -> io::Result<R::File> {
    fs::open(rt, "/")
}

/// The name of an input: of a file, or `-`.
pub fn name_of(file: &Option<String>) -> &str
    ensures { result.now ≡ input_name file.now }
{
    match file {
        Some(name) => name.as_str(),
        None => "-",
    }
}

/// Reports a file that can't be read, and returns the exit status for a fault.
pub fn diagnose_unread<R: Eprint>(rt: &R, name: &str, why: Unread) -> u8
    ensures { result ≡ 2 }
{
    let file = UnreadFile::new(name, why);
    let _ = eprintln!(rt; "{file}");
    FAULT
}
