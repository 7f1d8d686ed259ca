//! What describes an argument of a command, and how clap is given it.

use clap::builder::ValueParser;
use clap::{Arg, ArgAction, Command};
use std::alloc::{AllocError, Global};

/// An argument of a command.
#[derive(Clone, Copy)]
pub struct Argument {
    /// The name by which it is read. An option's follows `--`.
    pub name: &'static str,
    pub form: Form,
    pub is_required: bool,
    /// The option that can't be there with it.
    pub conflict: Option<&'static str>,
    pub help: &'static str,
}

/// What stands on the command line for an argument. `value` is what help calls a value.
#[derive(Clone, Copy)]
pub enum Form {
    /// An option without a value.
    Flag,
    /// An option with a value.
    Option { value: &'static str, kind: Kind },
    /// A value alone, such as the name of a file.
    One { value: &'static str },
    /// Any number of values.
    Several { value: &'static str },
}

/// What an option's value is. Its help says itself which words it may be, and which one is the default.
#[derive(Clone, Copy)]
pub enum Kind {
    /// Any text.
    Any,
    /// A number, at least the first of these and at most the second.
    Number(i64, i64),
    /// One of these words.
    OneOf(&'static [&'static str]),
    /// One of these words; this one, if the option is missing.
    OneOfOr(&'static [&'static str], &'static str),
    /// Some of these words, between commas.
    SomeOf(&'static [&'static str]),
}

/// Adds these arguments to a command, in this order, in which help lists its options.
pub fn with_arguments<'a>(
    alloc: Global,
    command: Command<'a>,
    arguments: &'a [Argument],
) -> Result<Command<'a>, AllocError> {
    let mut command = command;
    for argument in arguments {
        command = command.arg(described(alloc, argument)?)?;
    }
    Ok(command)
}

/// Describes an argument for clap.
fn described<'a>(alloc: Global, argument: &'a Argument) -> Result<Arg<'a>, AllocError> {
    let arg = of_form(alloc, argument);
    match argument.conflict {
        Some(other) => arg.conflicts_with(other),
        None => Ok(arg),
    }
}

/// Describes an argument, but for its conflict.
fn of_form<'a>(alloc: Global, argument: &'a Argument) -> Arg<'a> {
    let arg = Arg::new(alloc, argument.name)
        .required(argument.is_required)
        .help(argument.help);
    match argument.form {
        Form::Flag => arg.long(argument.name).action(ArgAction::SetTrue),
        Form::Option { value, kind } => of_kind(arg.long(argument.name), value, kind),
        Form::One { value } => one(arg, value),
        Form::Several { value } => several(arg, value),
    }
}

/// An argument with one value, which help calls `value`.
fn one<'a>(arg: Arg<'a>, value: &'a str) -> Arg<'a> {
    arg.action(ArgAction::Set).value_name(value)
}

/// An argument with any number of values.
fn several<'a>(arg: Arg<'a>, value: &'a str) -> Arg<'a> {
    arg.action(ArgAction::Append)
        .num_args(0..)
        .value_name(value)
}

/// An option with a value of this kind, which help calls `value`.
fn of_kind<'a>(option: Arg<'a>, value: &'a str, kind: Kind) -> Arg<'a> {
    let option = one(option, value);
    match kind {
        Kind::Any => option,
        Kind::Number(least, most) => option.value_parser(ValueParser::signed(least, most)),
        Kind::OneOf(words) => one_of(option, words),
        Kind::OneOfOr(words, default) => one_of(option, words)
            .default_value(default)
            .hide_default_value(true),
        Kind::SomeOf(words) => one_of(option, words).value_delimiter(','),
    }
}

/// An option whose value is one of these words.
fn one_of<'a>(option: Arg<'a>, words: &'a [&'a str]) -> Arg<'a> {
    option
        .value_parser(ValueParser::Names(words))
        .hide_possible_values(true)
}
