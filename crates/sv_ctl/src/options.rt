//! What the options say.
ghost use Rattle.std.specs.Prelude.{◌≡◌, ◌∷◌, Some, IfOk, List, codes, map, true};
ghost use Rattle.std.specs.Option.{option_map};
ghost use Rattle.clap.specs.Words.{FailsBy, HasMatchesOf, app_of, fault_of, first_of, found_of};
ghost use Rattle.clap.specs.Words.{matches_of, rows_of, with_rule};
ghost use Rattle.sv_ctl.specs.Options.{command_line, option_of, options_of, values_in};
ghost use Rattle.sv_ctl.specs.Options.{with_name};

use clap::error::ErrorKind;
use clap::{Arg, ArgMatches, Command, Error};
use std::alloc::{AllocError, Global};
use sv_base::Text;

/// The values of the client's options.
#[derive(Drop)]
pub struct Options {
    /// The configuration file, `-c`.
    pub file: Option<Text>,
    /// The server's URL, `-s`.
    pub url: Option<Text>,
    /// `-u`.
    pub username: Option<Text>,
    /// `-p`.
    pub password: Option<Text>,
}

/// What the options say; none exactly where they are refused: an unknown one, one that is given twice or has no value, and
/// those that ask for help.
pub fn options_of(alloc: Global, words: &[Text]) -> Result<Option<Options>, AllocError>
    ensures { IfOk result (λ options. options ≡ options_of words.now) }
{
    let words = with_name(alloc, words)?;
    match matches_of(alloc, words.as_slice()) {
        Ok(matches) => Ok(Some(values_in(alloc, &matches)?)),
        Err(error) => match error.kind() {
            ErrorKind::OutOfMemory => Err(AllocError),
            _ => Ok(None),
        },
    }
}

/// The words after the program's name.
fn with_name<'a>(alloc: Global, words: &'a [Text]) -> Result<Vec<&'a str>, AllocError>
    ensures { IfOk result (λ all. map (λ word. word.now) all.items ≡ with_name words.now) }
{
    let mut all = Vec::new(alloc);
    all.push("supervisorctl")?;
    let mut left = words;
    while let [word, rest @ ..] = left {
        all.push(word.as_str())?;
        left = rest;
    }
    Ok(all)
}

/// What the command line makes of words.
fn matches_of<'a>(alloc: Global, words: &'a [&'a str]) -> Result<ArgMatches<'a>, Error>
    ensures matches { IfOk result (λ matches.
        rows_of (found_of matches)
        ≡ matches_of command_line (map (λ word. word.now) words.entry.now)) }
    ensures fails { FailsBy
        (fault_of command_line (map (λ word. word.now) words.entry.now)) result }
{
    command_line(alloc)?.try_get_matches_from(words)
}

fn command_line<'a>(alloc: Global) -> Result<Command<'a>, AllocError>
    ensures { IfOk result (λ command. app_of command ≡ command_line) }
{
    let command = Command::new(alloc, "supervisorctl");
    let command = with_option(alloc, command, "file", 'c')?;
    let command = with_option(alloc, command, "url", 's')?;
    let command = with_option(alloc, command, "username", 'u')?;
    with_option(alloc, command, "password", 'p')
}

/// The command line with one more option, of one letter, which takes a value.
fn with_option<'a>(
    alloc: Global,
    command: Command<'a>,
    name: &'a str,
    letter: char,
) -> Result<Command<'a>, AllocError>
    ensures { IfOk result (λ more.
        app_of more ≡ with_rule (app_of command.entry) (option_of name.entry.now letter)) }
{
    command.arg(Arg::new(alloc, name).short(letter))
}

fn values_in<'a>(alloc: Global, matches: &ArgMatches<'a>) -> Result<Options, AllocError>
    ensures { IfOk result (λ options. options ≡ values_in (rows_of (found_of matches.now))) }
{
    Ok(Options {
        file: value_of(alloc, matches, "file")?,
        url: value_of(alloc, matches, "url")?,
        username: value_of(alloc, matches, "username")?,
        password: value_of(alloc, matches, "password")?,
    })
}

#[tactic(auto, using(crate::proofs::Values::first_in_rows))]
fn value_of<'a>(
    alloc: Global,
    matches: &ArgMatches<'a>,
    name: &str,
) -> Result<Option<Text>, AllocError>
    ensures { IfOk result (λ value. value ≡ first_of name.now (rows_of (found_of matches.now))) }
{
    match matches.get_str(name) {
        Some(value) => Ok(Some(Text::from_str(alloc, value)?)),
        None => Ok(None),
    }
}
