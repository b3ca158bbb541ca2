//! The words of the command line, read with clap: the commands, what each takes, and their help.

pub(crate) mod rows;

use clap::{Arg, ArgMatches, Command, Error};
use rows::{ASKING, ArgumentRow, COMMON, CommandRow, Form, JOINING, MAKING};
use std::alloc::{AllocError, Global};

const ABOUT: &str = "Builds, checks, merges and queries TopoJSON topologies on whole-number grids

A topology stores each border of a map once, as an arc, and each geometry as a
list of arc numbers. The same features get the same bytes, whatever the order
of the files.";

const AFTER: &str = "FILE is the name of a file, or - for standard input, which can be read once.

Example: topotool build --grid 1,1,0,0 districts=east.json districts=west.json

docs/FAULTS.md says what to do about each fault that a text is refused for, and
the manual page docs/topotool.1 has all of this: man docs/topotool.1
Status: 0 done, 1 `check` says no or `diff` finds a difference, 2 wrong usage,
3 a file can't be read, 4 an input is refused, 5 out of memory,
6 the output failed";

/// What `--version` prints behind the program's name.
const VERSION: &str = "0.1.0";

/// Lets no value through but these words, which help does not list.
fn among<'a>(argument: Arg<'a>, words: &'a [&'a str]) -> Arg<'a> {
    argument.value_parser(words).hide_possible_values(true)
}

/// An argument with its name, where the words give it by that, and what help calls its value.
fn with_name<'a>(argument: Arg<'a>, name: &'a str, form: Form) -> Arg<'a> {
    if form.is_by_place() {
        return argument;
    }
    match form.value_name() {
        Some(called) => argument.long(name).value_name(called),
        None => argument.long(name),
    }
}

/// An argument with the letter that stands for its name.
fn with_letter<'a>(argument: Arg<'a>, form: Form) -> Arg<'a> {
    match form {
        Form::Lettered(letter, _) | Form::LetteredFlag(letter) => argument.short(letter),
        _ => argument,
    }
}

/// An argument with how many values it takes, and which.
fn with_values<'a>(argument: Arg<'a>, form: Form) -> Arg<'a> {
    match form {
        Form::Words => argument.num_args(1..),
        Form::OptionalWith(..) => {
            argument
                .num_args(0..=1)
                .require_equals(true)
                .default_missing_value("")
        }
        Form::OneOf(_, words) => {
            among(argument, words).default_value(words.first().copied().unwrap_or(""))
        }
        Form::AnyOf(_, words) => among(argument, words),
        _ => argument,
    }
}

/// An argument that does not go with others.
fn without<'a>(argument: Arg<'a>, others: &[&'a str]) -> Result<Arg<'a>, AllocError> {
    let mut argument = argument;
    for other in others {
        argument = argument.conflicts_with(*other)?;
    }
    Ok(argument)
}

/// An argument with what its form says of others.
fn with_other<'a>(argument: Arg<'a>, form: Form) -> Result<Arg<'a>, AllocError> {
    match form {
        Form::NeededWithout(_, other) => argument.required_unless_present(other),
        Form::ValueNotWith(_, other) => argument.conflicts_with(other),
        Form::ValueWith(_, other, others) => without(argument.requires_arg(other)?, others),
        Form::OptionalWith(_, other) | Form::FlagWith(other) => argument.requires_arg(other),
        Form::FlagNotWith(others) => without(argument, others),
        _ => Ok(argument),
    }
}

/// An argument before its name is there.
fn without_name<'a>(alloc: Global, row: &ArgumentRow) -> Arg<'a> {
    Arg::new(alloc, row.name)
        .help(row.help)
        .required(row.form.is_needed())
        .action(row.form.action())
}

fn argument<'a>(alloc: Global, row: &ArgumentRow) -> Result<Arg<'a>, AllocError> {
    let argument = with_name(without_name(alloc, row), row.name, row.form);
    let argument = with_values(with_letter(argument, row.form), row.form);
    with_other(argument, row.form)
}

/// A command of what its help prints in front and behind, without arguments.
pub(crate) fn with_title<'a>(
    alloc: Global,
    name: &'a str,
    about: &'a str,
    after: &'a str,
) -> Command<'a> {
    Command::new(alloc, name).about(about).after_help(after)
}

fn command<'a>(alloc: Global, row: &CommandRow) -> Result<Command<'a>, AllocError> {
    let command = with_title(alloc, row.name, row.about, row.after);
    with_arguments(
        alloc,
        with_arguments(alloc, command, row.arguments)?,
        COMMON,
    )
}

/// A command with further arguments.
pub(crate) fn with_arguments<'a>(
    alloc: Global,
    mut command: Command<'a>,
    rows: &[ArgumentRow],
) -> Result<Command<'a>, AllocError> {
    for row in rows {
        command = command.arg(argument(alloc, row)?)?;
    }
    Ok(command)
}

/// The program without its commands.
fn program<'a>(alloc: Global) -> Command<'a> {
    with_title(alloc, "topotool", ABOUT, AFTER)
        .version(VERSION)
        .subcommand_required(true)
        .arg_required_else_help(true)
}

/// A program with further commands.
fn with_commands<'a>(
    alloc: Global,
    mut program: Command<'a>,
    rows: &[CommandRow],
) -> Result<Command<'a>, AllocError> {
    for row in rows {
        program = program.subcommand(command(alloc, row)?)?;
    }
    Ok(program)
}

/// The commands that make a topology of files, or validate them.
fn with_making<'a>(alloc: Global, program: Command<'a>) -> Result<Command<'a>, AllocError> {
    with_commands(alloc, program, MAKING)
}

/// The commands that take several topologies.
fn with_joining<'a>(alloc: Global, program: Command<'a>) -> Result<Command<'a>, AllocError> {
    with_commands(alloc, program, JOINING)
}

/// The commands that ask about a topology.
fn with_asking<'a>(alloc: Global, program: Command<'a>) -> Result<Command<'a>, AllocError> {
    with_commands(alloc, program, ASKING)
}

fn topotool<'a>(alloc: Global) -> Result<Command<'a>, AllocError> {
    let program = with_making(alloc, program(alloc))?;
    with_asking(alloc, with_joining(alloc, program)?)
}

/// What the words ask for. The first word is the program's name.
pub fn parse<'a>(alloc: Global, words: &'a [String]) -> Result<ArgMatches<'a>, Error> {
    topotool(alloc)?.try_get_matches_from(words)
}
