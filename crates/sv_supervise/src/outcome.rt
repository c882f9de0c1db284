//! The outcomes, with their statuses and lines.
ghost use Rattle.std.specs.Prelude.{◌≡◌, ◌++◌, ◌∷◌, [], IfOk, string_bytes};
ghost use Rattle.sv_supervise.specs.Outcomes.{Tells, report_of, status_of};

use std::alloc::{AllocError, Global};
use sv_base::Text;
use sv_out::sink::{Sink, write_all};

/// What became of a daemon.
#[derive(Drop)]
pub enum Outcome {
    /// The words are refused.
    Usage,
    /// There is no configuration file of this name.
    NoFile(Text),
    /// The configuration has a fault, which has this text.
    Refused(Text),
    /// The shelf failed at this name or pattern.
    Unreadable(Text),
    /// Memory was refused.
    NoMemory,
    /// The journal couldn't be written.
    Unwritten,
    /// The machine halted, and all its orders were handed over.
    Halted,
    /// The world failed to give an input.
    WorldFailed,
    /// The world has no input left, and the machine didn't halt.
    InputEnded,
    /// 2^64 - 1 inputs were taken.
    Full,
    /// The input of this number, counted from 1, isn't accepted.
    Misplaced(u64),
}

impl Outcome {
    /// The status, if its line can be written.
    pub fn status(&self) -> u8
        ensures { result ≡ status_of self.now }
    {
        match self {
            Outcome::Halted => 0,
            Outcome::Usage | Outcome::NoFile(_) | Outcome::Refused(_) => 2,
            Outcome::NoMemory => 3,
            Outcome::WorldFailed => 4,
            Outcome::InputEnded => 5,
            Outcome::Full => 6,
            Outcome::Unwritten => 7,
            Outcome::Unreadable(_) => 8,
            Outcome::Misplaced(_) => 9,
        }
    }

    /// Tells what became of the daemon on `out`, and answers the status: 7 where the line couldn't be written, and 3 where
    /// there was no memory for it.
    pub fn tell<O: Sink>(&self, alloc: Global, out: &mut O) -> u8
        ensures { Tells self.now (O.written out.old) (O.written out.new)
            (O.faults out.old) (O.faults out.new) result }
    {
        let Ok(text) = self.report(alloc) else {
            return 3;
        };
        match write_all(out, text.as_bytes()) {
            Ok(()) => self.status(),
            Err(_) => 7,
        }
    }

    /// The line with its line feed; empty where there is none.
    fn report(&self, alloc: Global) -> Result<String, AllocError>
        ensures { IfOk result (λ text. string_bytes text ≡ report_of self.now) }
    {
        match self {
            Outcome::Usage => line(
                alloc,
                "Error: usage: supervisord -c FILE [--journal] [-n]",
                "",
            ),
            Outcome::NoFile(file) => line(alloc, "Error: no file ", file.as_str()),
            Outcome::Refused(fault) => line(alloc, "Error: conf ", fault.as_str()),
            Outcome::Unreadable(name) => line(alloc, "Error: cannot read ", name.as_str()),
            Outcome::WorldFailed => line(alloc, "Error: the world failed", ""),
            Outcome::InputEnded => line(alloc, "Error: the input ended", ""),
            Outcome::Full => line(alloc, "Error: too many inputs", ""),
            Outcome::Misplaced(number) => {
                let mut buffer = itoa::Buffer::new();
                line(alloc, "Error: misplaced input ", buffer.format(*number))
            }
            Outcome::NoMemory | Outcome::Unwritten | Outcome::Halted => Ok(String::new(alloc)),
        }
    }
}

/// A line of these words and what they are said of.
fn line(alloc: Global, words: &str, of: &str) -> Result<String, AllocError>
    ensures { IfOk result (λ text. string_bytes text ≡ words.now ++ of.now ++ 10 ∷ []) }
{
    let mut text = String::from_str(alloc, words)?;
    text.push_str(of)?;
    text.push('\n')?;
    Ok(text)
}
