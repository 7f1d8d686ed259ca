ghost use Rattle.std.specs.Prelude.{◌≡◌};
ghost use Rattle.wsn_command.specs.Jobs.{MayRun, job_role};
ghost use Rattle.wsn_cli.specs.Requests.{CanBeDone, job_limits};
ghost use Rattle.wsn_cli.specs.Colors.{asked_layout, asked_on, format_for_people, format_layout, is_for_people, job_for_people, job_layout, request_for_people, request_layout, style_for_people};

use crate::mistake::Mistake;
use std::alloc::{AllocError, AllocFailed};
use wsn_color::{ColorChoice, Layout, Terminal};
use wsn_command::{Comparison, Job};
use wsn_print::{Format, Style};
use wsn_rules::Limits;
use wsn_wire::Role;

/// What the words of a command line ask for. An input is the file with this name, or standard input for `None`; of two
/// inputs at most one is standard input. With a `side`, an input is a capture, and its stream is what this endpoint sent.
#[derive(Drop)]
pub enum Request {
    /// Do this work over the file.
    Run {
        job: Job,
        file: Option<String>,
        side: Option<Role>,
    },
    /// Recut the stream in a file by the plan in another.
    RecutBy(PlannedRecut),
    /// Compare the streams in two files.
    Same {
        comparison: Comparison,
        first: Option<String>,
        second: Option<String>,
        side: Option<Role>,
    },
    /// Print how the connection closed in each of these captures: files, or standard input for `-`, which is at most one.
    Closings {
        limits: Limits,
        format: Format,
        files: Vec<String>,
    },
    /// Print this text: help, the version or an explanation.
    Help(String),
}

/// A recut of the stream in a file by the plan in another.
#[derive(Drop)]
pub struct PlannedRecut {
    /// The endpoint that sent the stream.
    pub role: Role,
    /// The limits for reading the stream.
    pub limits: Limits,
    /// The file with the plan.
    pub plan: Option<String>,
    /// The file with the stream.
    pub file: Option<String>,
    /// With a side the file is a capture.
    pub side: Option<Role>,
}

/// How entries of `show` are laid out.
#[derive(Clone, Copy)]
pub enum EntryLayout {
    /// For people on a terminal where they are coloured, and otherwise as lines.
    Auto,
    /// As lines of words.
    Lines,
    /// In columns, for people.
    People,
}

/// A request, when its answer is coloured, and how its entries are laid out.
#[derive(Drop)]
pub struct Asked {
    pub request: Request,
    pub color: ColorChoice,
    pub entries: EntryLayout,
}

impl Asked {
    /// What is asked for where the answer is printed there: with entries for people, if they are for people there.
    pub fn on(self, terminal: Terminal) -> Asked
        ensures is { result ≡ asked_on self terminal }
        ensures done { CanBeDone self.request → CanBeDone result.request }
    {
        if self.is_for_people(terminal) {
            Asked {
                request: request_for_people(self.request),
                color: self.color,
                entries: self.entries,
            }
        } else {
            self
        }
    }

    /// Whether entries are for people where they are printed there.
    fn is_for_people(&self, terminal: Terminal) -> bool
        ensures { result ≡ is_for_people self.now.entries self.now.color terminal }
    {
        match self.entries {
            EntryLayout::Auto => terminal.is_terminal && self.color.paints(terminal),
            EntryLayout::Lines => false,
            EntryLayout::People => true,
        }
    }

    /// Which lines of the answer are coloured where it is printed there; `None` for an answer in one colour.
    pub fn layout(&self, terminal: Terminal) -> Option<Layout>
        ensures { result ≡ asked_layout self.now terminal }
    {
        if self.color.paints(terminal) {
            self.request.layout()
        } else {
            None
        }
    }
}

impl Request {
    /// Which lines of the answer may be coloured; `None` for JSON, and for an answer that has no lines.
    fn layout(&self) -> Option<Layout>
        ensures { result ≡ request_layout self.now }
    {
        match self {
            Request::Run { job, .. } => layout_of_job(job),
            Request::Closings {
                format: Format::Text,
                ..
            } => Some(Layout::Table),
            Request::Help(_) => Some(Layout::Explanation),
            _ => None,
        }
    }
}

/// The request with entries for people; the same if it asks for no entries, or for JSON.
fn request_for_people(request: Request) -> Request
    ensures is { result ≡ request_for_people request }
    ensures done { CanBeDone request → CanBeDone result }
{
    match request {
        Request::Run { job, file, side } => Request::Run {
            job: job_for_people(job),
            file,
            side,
        },
        other => other,
    }
}

fn job_for_people(job: Job) -> Job
    ensures is { result ≡ job_for_people job }
    ensures may_run { MayRun job → MayRun result }
    ensures limits { job_limits result ≡ job_limits job }
    ensures role { job_role result ≡ job_role job }
{
    match job {
        Job::ShowStream(role, limits, style) => {
            Job::ShowStream(role, limits, style_for_people(style))
        }
        Job::Show(limits, style) => Job::Show(limits, style_for_people(style)),
        other => other,
    }
}

fn style_for_people(style: Style) -> Style
    ensures { result ≡ style_for_people style }
{
    Style {
        view: style.view,
        detail: style.detail,
        format: format_for_people(style.format),
    }
}

fn format_for_people(format: Format) -> Format
    ensures { result ≡ format_for_people format }
{
    match format {
        Format::Text | Format::People => Format::People,
        Format::Json => Format::Json,
    }
}

/// Which lines of a job's answer may be coloured.
fn layout_of_job(job: &Job) -> Option<Layout>
    ensures { result ≡ job_layout job.now }
{
    match job {
        Job::Judge(_, _, format) | Job::Frames(_, _, format) | Job::Closing(_, format) => {
            layout_of_format(*format)
        }
        Job::ShowStream(_, _, style) | Job::Show(_, style) => layout_of_format(style.format),
        _ => None,
    }
}

/// Which lines of an answer in this format may be coloured.
fn layout_of_format(format: Format) -> Option<Layout>
    ensures { result ≡ format_layout format }
{
    match format {
        Format::Text => Some(Layout::Answer),
        Format::People => Some(Layout::People),
        Format::Json => None,
    }
}

/// Why the words of a command line make no request.
#[derive(Drop)]
pub enum Usage {
    /// They break a rule of the command line; the text says which.
    Clap(String),
    /// They break a rule that clap doesn't check.
    Own(Mistake),
    /// An allocation failed.
    Memory,
}

impl From<AllocError> for Usage {
    ghost use Rattle.std.specs.Prelude.{◌≡◌};
    ghost use Rattle.wsn_cli.specs.declared.request.Usage.TheVariants.{Memory};

    ghost from_gives = { λ _ usage. usage ≡ Memory };

    fn from(_: AllocError) -> Self {
        Usage::Memory
    }
}

impl<T: Drop> From<AllocFailed<T>> for Usage {
    ghost use Rattle.std.specs.Prelude.{◌≡◌};
    ghost use Rattle.wsn_cli.specs.declared.request.Usage.TheVariants.{Memory};

    ghost from_gives = { λ _ usage. usage ≡ Memory };

    fn from(_: AllocFailed<T>) -> Self {
        Usage::Memory
    }
}
