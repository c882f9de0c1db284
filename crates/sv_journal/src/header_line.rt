//! Reading a header line, part by part.
ghost use Rattle.std.specs.Prelude.{◌≡◌, ◌≤◌};
ghost use Rattle.sv_journal.specs.Reading.{Gives, token_at};
ghost use Rattle.sv_letters.specs.declared.letters.Letters.{Letters};
ghost use Rattle.sv_journal.specs.ReadingLines.{codes_at, restart_at, start_at, program_at, env_at};
ghost use Rattle.sv_journal.specs.ReadingLines.{size_at, include_at, header_of, header_at};

use crate::exit_codes::exit_codes;
use crate::header::{Header, Program, Version};
use crate::input_line::moment;
use crate::number::number;
use crate::program_name::ProgramName;
use crate::stop::Stop;
use crate::token::{bytes_of_line, rest_of_line, token};
use crate::word::{end, keyword, word};
use crate::words::{AUTORESTARTS, OPENINGS, Opening, SIGNALS};
use std::alloc::Global;
use sv_base::moment::MOMENT_LIMIT;
use sv_base::number::{Retries, Seconds};
use sv_base::state::Autorestart;
use sv_letters::Letters;

/// The most seconds or retries of a program.
const PROGRAM_LIMIT: u64 = 1_000_000;

/// Reads a header line as the grammar has it, however long it is.
#[tactic(auto, unfolding(crate::specs::ReadingLines::header_at))]
pub fn header(alloc: Global, bytes: &[u8]) -> Result<Header, Stop>
    ensures { Gives (λ x. x) result (header_at bytes.now) }
{
    let (opening, rest) = keyword(&OPENINGS, bytes)?;
    header_of(alloc, opening, rest)
}

#[tactic(auto, unfolding(crate::specs::ReadingLines::header_of))]
fn header_of(alloc: Global, opening: Opening, bytes: &[u8]) -> Result<Header, Stop>
    ensures { Gives (λ x. x) result (header_of opening bytes.now) }
{
    match opening {
        Opening::Short => Ok(end(Header::Journal(Version::new(0).unwrap()), bytes)?),
        Opening::Long => Ok(end(Header::Journal(Version::new(1).unwrap()), bytes)?),
        Opening::Program => program(alloc, bytes),
        Opening::Host => {
            let name = rest_of_line(alloc, bytes)?;
            Ok(Header::Host(name))
        }
        Opening::Here => {
            let directory = rest_of_line(alloc, bytes)?;
            Ok(Header::Here(directory))
        }
        Opening::Pid => {
            let (pid, rest) = number(0, u64::from(u32::MAX), bytes)?;
            Ok(end(Header::Pid(pid as u32), rest)?)
        }
        Opening::Env => environment(alloc, bytes),
        Opening::Size => size(alloc, bytes),
        Opening::Conf => {
            let text = bytes_of_line(alloc, bytes)?;
            Ok(Header::Conf(text))
        }
        Opening::Include => include(alloc, bytes),
        Opening::Go => {
            let (milliseconds, rest) = number(0, MOMENT_LIMIT, bytes)?;
            Ok(end(Header::Go(moment(milliseconds)), rest)?)
        }
    }
}

/// Reads a name in the environment and its value.
#[tactic(auto, unfolding(crate::specs::ReadingLines::env_at))]
fn environment(alloc: Global, bytes: &[u8]) -> Result<Header, Stop>
    ensures { Gives (λ x. x) result (env_at bytes.now) }
{
    match token(alloc, Letters::OfText, bytes) {
        Ok((name, rest)) => {
            let rest = word(b" ", rest)?;
            let value = rest_of_line(alloc, rest)?;
            Ok(Header::Env(name, value))
        }
        Err(stop) => Err(stop),
    }
}

/// Reads a log file and its size.
#[tactic(auto, unfolding(crate::specs::ReadingLines::size_at))]
fn size(alloc: Global, bytes: &[u8]) -> Result<Header, Stop>
    ensures { Gives (λ x. x) result (size_at bytes.now) }
{
    match token(alloc, Letters::OfText, bytes) {
        Ok((file, rest)) => {
            let rest = word(b" ", rest)?;
            let (size, rest) = number(0, u64::MAX, rest)?;
            Ok(end(Header::Size(file, size), rest)?)
        }
        Err(stop) => Err(stop),
    }
}

/// Reads the name of an included file and its text.
#[tactic(auto, unfolding(crate::specs::ReadingLines::include_at))]
fn include(alloc: Global, bytes: &[u8]) -> Result<Header, Stop>
    ensures { Gives (λ x. x) result (include_at bytes.now) }
{
    match token(alloc, Letters::OfText, bytes) {
        Ok((name, rest)) => {
            let rest = word(b" ", rest)?;
            let text = bytes_of_line(alloc, rest)?;
            Ok(Header::Include(name, text))
        }
        Err(stop) => Err(stop),
    }
}

fn seconds(number: u64) -> Seconds
    requires { number ≤ 1000000 }
    ensures { result ≡ number }
{
    Seconds::new(number as u32).unwrap()
}

/// Reads the name of a program.
fn program_name(alloc: Global, bytes: &[u8]) -> Result<(ProgramName, &[u8]), Stop>
    ensures { Gives (λ x. (x.0, x.1.now)) result (token_at Letters.OfName bytes.now) }
{
    match token(alloc, Letters::OfName, bytes) {
        Ok((name, rest)) => Ok((ProgramName::new(name).unwrap(), rest)),
        Err(stop) => Err(stop),
    }
}

/// Reads a program's name and keys.
#[tactic(auto, unfolding(crate::specs::ReadingLines::program_at))]
fn program(alloc: Global, bytes: &[u8]) -> Result<Header, Stop>
    ensures { Gives (λ x. x) result (program_at bytes.now) }
{
    match program_name(alloc, bytes) {
        Ok((name, rest)) => {
            let rest = word(b" ", rest)?;
            program_from_startsecs(alloc, name, rest)
        }
        Err(stop) => Err(stop),
    }
}

/// Reads a program's keys from `startsecs` on.
#[tactic(auto, unfolding(crate::specs::ReadingLines::start_at))]
fn program_from_startsecs(alloc: Global, name: ProgramName, bytes: &[u8]) -> Result<Header, Stop>
    ensures { Gives (λ x. x) result (start_at name bytes.now) }
{
    let (startsecs, rest) = number(0, PROGRAM_LIMIT, bytes)?;
    let rest = word(b" ", rest)?;
    let (startretries, rest) = number(0, PROGRAM_LIMIT, rest)?;
    let rest = word(b" ", rest)?;
    program_from_autorestart(alloc, name, seconds(startsecs), seconds(startretries), rest)
}

/// Reads a program's keys from `autorestart` on.
#[tactic(auto, unfolding(crate::specs::ReadingLines::restart_at))]
fn program_from_autorestart(
    alloc: Global,
    name: ProgramName,
    startsecs: Seconds,
    startretries: Retries,
    bytes: &[u8],
) -> Result<Header, Stop>
    ensures { Gives (λ x. x) result (restart_at name startsecs startretries bytes.now) }
{
    let (autorestart, rest) = keyword(&AUTORESTARTS, bytes)?;
    let rest = word(b" ", rest)?;
    program_from_exitcodes(alloc, name, startsecs, startretries, autorestart, rest)
}

/// Reads a program's keys from `exitcodes` on.
#[tactic(auto, unfolding(crate::specs::ReadingLines::codes_at))]
fn program_from_exitcodes(
    alloc: Global,
    name: ProgramName,
    startsecs: Seconds,
    startretries: Retries,
    autorestart: Autorestart,
    bytes: &[u8],
) -> Result<Header, Stop>
    ensures { Gives (λ x. x) result (codes_at name startsecs startretries autorestart bytes.now) }
{
    match exit_codes(alloc, bytes) {
        Ok((exitcodes, rest)) => {
            let rest = word(b" ", rest)?;
            let (stopsignal, rest) = keyword(&SIGNALS, rest)?;
            let rest = word(b" ", rest)?;
            let (stopwaitsecs, rest) = number(0, PROGRAM_LIMIT, rest)?;
            Ok(end(
                Header::Program(Program {
                    name,
                    startsecs,
                    startretries,
                    autorestart,
                    exitcodes,
                    stopsignal,
                    stopwaitsecs: seconds(stopwaitsecs),
                }),
                rest,
            )?)
        }
        Err(stop) => Err(stop),
    }
}
