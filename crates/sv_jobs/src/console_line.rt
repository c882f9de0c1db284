//! The lines of the console.
ghost use Rattle.std.specs.Prelude.{◌≡◌, IfOk};
ghost use Rattle.std.specs.Option.{option_map};
ghost use Rattle.sv_jobs.specs.ConsoleLines.{asked, note_of, parted, signalled};

use crate::notes::Note;
use std::alloc::{AllocError, Global};
use sv_base::{DaemonSignal, Signal, Text};

/// The most bytes of a line that is read.
const LINE_LIMIT: usize = 4_096;

/// What a line asks for: `signal NAME`, `start NAME` or `stop NAME`; any other line asks for nothing.
pub(crate) fn note_of(alloc: Global, line: &[u8]) -> Result<Option<Note>, AllocError>
    ensures { IfOk result (λ note. note ≡ note_of line.now) }
{
    if line.len() > LINE_LIMIT {
        return Ok(None);
    }
    match str::from_utf8(line) {
        Ok(text) => asked(alloc, text),
        Err(_) => Ok(None),
    }
}

/// What a text asks for.
fn asked(alloc: Global, text: &str) -> Result<Option<Note>, AllocError>
    ensures { IfOk result (λ note. note ≡ asked (parted text.now)) }
{
    let Some((word, name)) = parted(text) else {
        return Ok(None);
    };
    if word == "signal" {
        return Ok(signalled(name).map(Note::Signal));
    }
    if name.is_empty() {
        return Ok(None);
    }
    if word == "start" {
        return Ok(Some(Note::Start(Text::from_str(alloc, name)?)));
    }
    if word == "stop" {
        return Ok(Some(Note::Stop(Text::from_str(alloc, name)?)));
    }
    Ok(None)
}

/// What stands before and after the first space.
fn parted(text: &str) -> Option<(&str, &str)>
    ensures { option_map (λ parts. (parts.0.now, parts.1.now)) result ≡ parted text.now }
{
    text.split_once(' ')
}

/// The signal of a name, of those that the daemon can be sent.
fn signalled(name: &str) -> Option<DaemonSignal>
    ensures { result ≡ signalled name.now }
{
    match name {
        "TERM" => DaemonSignal::new(Signal::Term),
        "INT" => DaemonSignal::new(Signal::Int),
        "QUIT" => DaemonSignal::new(Signal::Quit),
        "KILL" => DaemonSignal::new(Signal::Kill),
        "USR1" => DaemonSignal::new(Signal::Usr1),
        "USR2" => DaemonSignal::new(Signal::Usr2),
        _ => None,
    }
}
