use crate::argument::with_arguments;
use crate::help;
use crate::help::{captures, plans, streams};
use crate::taken::{Takes, arguments_of};
use clap::Command;
use std::alloc::{AllocError, Global};

/// A command: its name, its help texts, and which arguments it takes.
struct Described {
    name: &'static str,
    about: &'static str,
    details: &'static str,
    takes: Takes,
}

/// The commands, in the order in which help lists them. Each is borrowed by itself: proving what reads a static takes a
/// time that grows with the square of its bytes.
fn commands() -> [&'static Described; 11] {
    [
        &Described {
            name: "show",
            about: captures::SHOW,
            details: captures::SHOW_DETAILS,
            takes: Takes::Show,
        },
        &Described {
            name: "judge",
            about: streams::JUDGE,
            details: streams::JUDGE_DETAILS,
            takes: Takes::Verdict,
        },
        &Described {
            name: "frames",
            about: streams::FRAMES,
            details: streams::FRAMES_DETAILS,
            takes: Takes::Verdict,
        },
        &Described {
            name: "payload",
            about: streams::PAYLOAD,
            details: streams::PAYLOAD_DETAILS,
            takes: Takes::Payload,
        },
        &Described {
            name: "normal",
            about: streams::NORMAL,
            details: streams::NORMAL_DETAILS,
            takes: Takes::Stream,
        },
        &Described {
            name: "same",
            about: streams::SAME,
            details: streams::SAME_DETAILS,
            takes: Takes::Same,
        },
        &Described {
            name: "plan",
            about: plans::PLAN,
            details: plans::PLAN_DETAILS,
            takes: Takes::Stream,
        },
        &Described {
            name: "recut",
            about: plans::RECUT,
            details: plans::RECUT_DETAILS,
            takes: Takes::Recut,
        },
        &Described {
            name: "redact",
            about: captures::REDACT,
            details: captures::REDACT_DETAILS,
            takes: Takes::Redact,
        },
        &Described {
            name: "closing",
            about: captures::CLOSING,
            details: captures::CLOSING_DETAILS,
            takes: Takes::Closing,
        },
        &Described {
            name: "explain",
            about: help::EXPLAIN,
            details: help::EXPLAIN_DETAILS,
            takes: Takes::Explain,
        },
    ]
}

/// Describes a command for clap.
fn command<'a>(alloc: Global, described: &Described) -> Result<Command<'a>, AllocError> {
    let command = Command::new(alloc, described.name)
        .about(described.about)
        .after_help(described.details);
    with_arguments(alloc, command, arguments_of(described.takes))
}

/// All commands, described for clap.
pub fn program<'a>(alloc: Global) -> Result<Command<'a>, AllocError> {
    let mut program = Command::new(alloc, "wsn")
        .about(help::PROGRAM)
        .after_help(help::PROGRAM_DETAILS)
        .version(help::VERSION)
        .subcommand_required(true);
    for described in &commands() {
        program = program.subcommand(command(alloc, described)?)?;
    }
    Ok(program)
}
