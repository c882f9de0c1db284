//! Writing the lines of a header.
ghost use Rattle.std.specs.Prelude.{◌≡◌, ◌++◌, IfOk, OnOk, List, ℕ, codes, string_bytes};
ghost use Rattle.std.specs.List.{flat_map};
ghost use Rattle.std.specs.Fmt.{decimal};
ghost use Rattle.sv_journal.specs.Commas.{then_number};
ghost use Rattle.sv_journal.specs.Spelling.{comma_list, token};
ghost use Rattle.sv_journal.specs.JournalLine.{FitsHeader, header_line, program_line};

use crate::fits::header_fits;
use crate::header::{Header, Program};
use crate::program_name::ProgramName;
use crate::word::Spelled;
use crate::write::{put_counted, put_number, put_spelled, put_token};
use std::alloc::{AllocError, Global};
use sv_base::text::Text;

/// The line of this header, without its line feed.
pub fn write_header(alloc: Global, header: &Header) -> Result<Text, AllocError>
    ensures line { IfOk result (λ line. line ≡ header_line header.now) }
    ensures fits { FitsHeader header.now }
{
    header_fits(header);
    let mut line = String::new(alloc);
    put_header(&mut line, header)?;
    Ok(Text::from_string(line))
}

fn put_header(line: &mut String, header: &Header) -> Result<(), AllocError>
    ensures { OnOk result (string_bytes line.new
        ≡ string_bytes line.old ++ header_line header.now) }
{
    match header {
        Header::Journal(version) => put_counted(
            line,
            "supervisor-journal ",
            u64::from(version.get()),
        ),
        Header::Program(program) => put_program(line, program),
        Header::Host(name) => put_spelled(line, "host ", name.as_str().as_bytes()),
        Header::Here(directory) => put_spelled(line, "here ", directory.as_str().as_bytes()),
        Header::Pid(pid) => put_counted(line, "pid ", u64::from(*pid)),
        Header::Env(name, value) => put_two(line, "env ", name, value.as_str().as_bytes()),
        Header::Size(file, size) => put_size(line, file, *size),
        Header::Conf(text) => put_spelled(line, "conf ", text.as_slice()),
        Header::Include(name, text) => put_two(line, "include ", name, text.as_slice()),
        Header::Go(at) => put_counted(line, "go ", at.milliseconds()),
    }
}

/// Adds a word, a text, and bytes after a space.
#[tactic(auto, using(crate::proofs::Lists::joined))]
fn put_two(line: &mut String, word: &str, text: &Text, bytes: &[u8]) -> Result<(), AllocError>
    ensures { OnOk result (string_bytes line.new
        ≡ string_bytes line.old ++ (word.now ++ token text.now ++ codes " " ++ token bytes.now)) }
{
    put_spelled(line, word, text.as_str().as_bytes())?;
    put_spelled(line, " ", bytes)
}

/// Adds a log file and its size.
#[tactic(auto, using(crate::proofs::Lists::joined))]
fn put_size(line: &mut String, file: &Text, size: u64) -> Result<(), AllocError>
    ensures { OnOk result (string_bytes line.new
        ≡ string_bytes line.old ++ (codes "size " ++ token file.now ++ codes " " ++ decimal size)) }
{
    put_spelled(line, "size ", file.as_str().as_bytes())?;
    put_counted(line, " ", size)
}

#[tactic(auto, using(crate::proofs::Lists::joined))]
fn put_program(line: &mut String, program: &Program) -> Result<(), AllocError>
    ensures { OnOk result (string_bytes line.new
        ≡ string_bytes line.old ++ program_line program.now) }
{
    put_name(line, &program.name)?;
    put_counted(line, " ", u64::from(program.startsecs.get()))?;
    put_counted(line, " ", u64::from(program.startretries.get()))?;
    line.push_str(" ")?;
    line.push_str(program.autorestart.spelling())?;
    line.push_str(" ")?;
    put_codes(line, program.exitcodes.as_slice())?;
    line.push_str(" ")?;
    line.push_str(program.stopsignal.name())?;
    put_counted(line, " ", u64::from(program.stopwaitsecs.get()))
}

/// Adds the name of a program after its word.
fn put_name(line: &mut String, name: &ProgramName) -> Result<(), AllocError>
    ensures { OnOk result (string_bytes line.new
        ≡ string_bytes line.old ++ (codes "program " ++ token name.now)) }
{
    put_spelled(line, "program ", name.as_text().as_str().as_bytes())
}

/// Adds numbers with commas between them.
fn put_codes(line: &mut String, codes: &[u8]) -> Result<(), AllocError>
    ensures { OnOk result (string_bytes line.new ≡ string_bytes line.old ++ comma_list codes.now) }
{
    let [first, others @ ..] = codes else {
        return Ok(());
    };
    put_number(line, u64::from(*first))?;
    put_others(line, others)
}

/// Adds each of these numbers after a comma.
#[tactic(auto, using(crate::proofs::Lists::joined))]
fn put_others(line: &mut String, others: &[u8]) -> Result<(), AllocError>
    ensures { OnOk result (string_bytes line.new
        ≡ string_bytes line.old ++ flat_map then_number others.now) }
{
    for code in others {
        put_counted(line, ",", u64::from(*code))?;
    }
    Ok(())
}
