//! The lines of inputs and orders.
ghost use Rattle.std.specs.Prelude.{◌≡◌, Err};
ghost use Rattle.sv_out.specs.Faults.{RisesWhere};
ghost use Rattle.sv_supervise.specs.Journal.Begun.{Begins};
ghost use Rattle.sv_supervise.specs.Journal.Header.{header_text};

use crate::journal::header::header_text;
use crate::main_loop::Lines;
use std::alloc::{AllocError, Global};
use sv_base::{Bytes, Host, Text};
use sv_journal::{put_input, put_order};
use sv_out::input::Input;
use sv_out::order::Order;
use sv_out::sink::{Sink, write_all};

/// Whether a journal is kept of what the daemon takes and gives.
#[derive(Clone, Copy, PartialEq, Eq)]
pub enum JournalLines {
    /// Each input has its line, and each order one after the mark `> `.
    Kept,
    /// Nothing is told.
    Quiet,
}

impl Lines for JournalLines {
    ghost use Rattle.sv_supervise.specs.Journal.Lines.{texts_of};

    ghost texts = { texts_of };

    fn put_input(&self, input: &Input, text: &mut String) -> Result<(), AllocError> {
        match self {
            JournalLines::Kept => {
                put_input(text, input)?;
                text.push_str("\n")
            }
            JournalLines::Quiet => Ok(()),
        }
    }

    fn put_order(&self, order: &Order, text: &mut String) -> Result<(), AllocError> {
        match self {
            JournalLines::Kept => {
                text.push_str("> ")?;
                put_order(text, order)?;
                text.push_str("\n")
            }
            JournalLines::Quiet => Ok(()),
        }
    }
}

/// Why a journal has no whole header.
#[derive(Clone, Copy, PartialEq, Eq)]
pub enum HeaderFault {
    /// It couldn't be written; the journal's count of faults rose, and a prefix was written.
    Unwritten,
    /// Memory was refused, and nothing was written.
    OutOfMemory,
}

impl JournalLines {
    /// Writes the header in one piece, where a journal is kept.
    pub fn begin<J: Sink>(
        self,
        alloc: Global,
        host: &Host,
        sizes: &[(Text, u64)],
        main: &Bytes,
        included: &[(Text, Bytes)],
        journal: &mut J,
    ) -> Result<(), HeaderFault>
        ensures begins { Begins self (header_text host.now sizes.now main.now included.now)
            (J.written journal.old) (J.written journal.new) result }
        ensures cause { RisesWhere (J.faults journal.old) (J.faults journal.new)
            (result ≡ Err HeaderFault.Unwritten) }
    {
        match self {
            JournalLines::Quiet => Ok(()),
            JournalLines::Kept => {
                let Ok(text) = header_text(alloc, host, sizes, main, included) else {
                    return Err(HeaderFault::OutOfMemory);
                };
                match write_all(journal, text.as_slice()) {
                    Ok(()) => Ok(()),
                    Err(_) => Err(HeaderFault::Unwritten),
                }
            }
        }
    }
}
