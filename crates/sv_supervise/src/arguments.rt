//! What the words say.
ghost use Rattle.std.specs.Prelude.{◌≡◌, ◌∷◌, Some, IfOk, List, codes, map, true};
ghost use Rattle.clap.specs.Words.{FailsBy, app_of, fault_of, first_of, found_of, matches_of};
ghost use Rattle.clap.specs.Words.{rows_of, with_rule};
ghost use Rattle.sv_supervise.specs.Arguments.{arguments_of, command_line, flag_of, is_set};
ghost use Rattle.sv_supervise.specs.Arguments.{option_of, short_flag_of, values_in, with_name};

use clap::error::ErrorKind;
use clap::{Arg, ArgAction, ArgMatches, Command, Error};
use std::alloc::{AllocError, Global};
use sv_base::Text;

/// What the daemon is told by its words.
#[derive(Drop)]
pub struct Arguments {
    /// The configuration file, `-c` or `--configuration`.
    pub file: Text,
    /// Whether a journal is written, `--journal`.
    pub journal: bool,
}

/// What the words after the program's name say; none exactly where the command line refuses them: without a configuration file,
/// with an unknown word, with an option that is given twice or has no value, and with one that asks for help. `-n` and
/// `--nodaemon` are taken and say nothing.
pub fn arguments_of(alloc: Global, words: &[Text]) -> Result<Option<Arguments>, AllocError>
    ensures { IfOk result (λ arguments. arguments ≡ arguments_of words.now) }
{
    let words = with_name(alloc, words)?;
    match matches_of(alloc, words.as_slice()) {
        Ok(matches) => Ok(Some(values_in(alloc, &matches)?)),
        Err(error) => match error.kind() {
            ErrorKind::OutOfMemory => Err(AllocError),
            _ => Ok(None),
        },
    }
}

/// The words after the program's name.
fn with_name<'a>(alloc: Global, words: &'a [Text]) -> Result<Vec<&'a str>, AllocError>
    ensures { IfOk result (λ all. map (λ word. word.now) all.items ≡ with_name words.now) }
{
    let mut all = Vec::new(alloc);
    all.push("supervisord")?;
    let mut left = words;
    while let [word, rest @ ..] = left {
        all.push(word.as_str())?;
        left = rest;
    }
    Ok(all)
}

/// What the command line makes of words.
fn matches_of<'a>(alloc: Global, words: &'a [&'a str]) -> Result<ArgMatches<'a>, Error>
    ensures matches { IfOk result (λ matches.
        rows_of (found_of matches)
        ≡ matches_of command_line (map (λ word. word.now) words.entry.now)) }
    ensures fails { FailsBy
        (fault_of command_line (map (λ word. word.now) words.entry.now)) result }
{
    command_line(alloc)?.try_get_matches_from(words)
}

fn command_line<'a>(alloc: Global) -> Result<Command<'a>, AllocError>
    ensures { IfOk result (λ command. app_of command ≡ command_line) }
{
    let command = Command::new(alloc, "supervisord");
    let command = with_option(alloc, command, "file", 'c', "configuration")?;
    let command = with_flag(alloc, command, "journal")?;
    with_short_flag(alloc, command, "nodaemon", 'n')
}

/// The command line with one more option, of one letter or of its long form, which has to be there and takes a value.
fn with_option<'a>(
    alloc: Global,
    command: Command<'a>,
    name: &'a str,
    letter: char,
    long: &'a str,
) -> Result<Command<'a>, AllocError>
    ensures { IfOk result (λ more. app_of more
        ≡ with_rule (app_of command.entry) (option_of name.entry.now letter long.entry.now)) }
{
    command.arg(
        Arg::new(alloc, name)
            .short(letter)
            .long(long)
            .required(true),
    )
}

/// The command line with one more flag, whose name is its long form.
fn with_flag<'a>(
    alloc: Global,
    command: Command<'a>,
    name: &'a str,
) -> Result<Command<'a>, AllocError>
    ensures { IfOk result (λ more.
        app_of more ≡ with_rule (app_of command.entry) (flag_of name.entry.now)) }
{
    command.arg(Arg::new(alloc, name).long(name).action(ArgAction::SetTrue))
}

/// The command line with one more flag, of one letter or of its long form, which is its name.
fn with_short_flag<'a>(
    alloc: Global,
    command: Command<'a>,
    name: &'a str,
    letter: char,
) -> Result<Command<'a>, AllocError>
    ensures { IfOk result (λ more. app_of more
        ≡ with_rule (app_of command.entry) (short_flag_of name.entry.now letter)) }
{
    let flag = Arg::new(alloc, name).long(name).action(ArgAction::SetTrue);
    command.arg(flag.short(letter))
}

fn values_in<'a>(alloc: Global, matches: &ArgMatches<'a>) -> Result<Arguments, AllocError>
    ensures { IfOk result (λ arguments. arguments ≡ values_in (rows_of (found_of matches.now))) }
{
    Ok(Arguments {
        file: value_of(alloc, matches, "file")?.unwrap_or(Text::fixed("")),
        journal: is_set(matches, "journal"),
    })
}

#[tactic(auto, using(crate::proofs::Values::first_in_rows))]
fn value_of<'a>(
    alloc: Global,
    matches: &ArgMatches<'a>,
    name: &str,
) -> Result<Option<Text>, AllocError>
    ensures { IfOk result (λ value. value ≡ first_of name.now (rows_of (found_of matches.now))) }
{
    match matches.get_str(name) {
        Some(value) => Ok(Some(Text::from_str(alloc, value)?)),
        None => Ok(None),
    }
}

#[tactic(auto, using(crate::proofs::Values::first_in_rows))]
fn is_set<'a>(matches: &ArgMatches<'a>, name: &str) -> bool
    ensures { result ≡ is_set (first_of name.now (rows_of (found_of matches.now))) }
{
    match matches.get_str(name) {
        Some(value) => value == "true",
        None => false,
    }
}
