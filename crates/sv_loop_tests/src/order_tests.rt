//! A source and a sink that share a count: the orders of a line are written before the next line is read.

ghost use Rattle.std.specs.Prelude.{None};

use crate::checks::check;
use std::cell::Cell;
use std::process::Abort;
use sv_base::text::Text;
use sv_loop::replay;
use sv_out::failed::Failed;
use sv_out::sink::Sink;
use sv_out::source::Source;

/// A line of a journal, and how many bytes of orders are written once it was taken.
#[derive(Clone, Copy)]
struct Step {
    line: &'static str,
    written: u64,
}

const STEPS: [Step; 9] = [
    Step {
        line: "supervisor-journal 0\n",
        written: 0,
    },
    Step {
        line: "program x 1 3 unexpected 0 TERM 10\n",
        written: 0,
    },
    Step {
        line: "go 0\n",
        written: 0,
    },
    Step {
        line: "0 tick\n",
        written: 122,
    },
    Step {
        line: "pid 12\n",
        written: 122,
    },
    Step {
        line: "1000 tick\n",
        written: 149,
    },
    Step {
        line: "2000 signal TERM\n",
        written: 194,
    },
    Step {
        line: "2100 exit 1 code 0\n",
        written: 226,
    },
    Step {
        line: "no line at all\n",
        written: 241,
    },
];

/// Gives a line at each read, and sees how much was written by then.
#[derive(Drop)]
struct LineSource<'a> {
    written: &'a Cell<u64>,
    next: usize,
    before: u64,
    is_late: bool,
}

impl<'a> Source for LineSource<'a> {
    ghost left = { λ _. None };

    ghost faults = { λ _. 0 };

    fn read(&mut self, into: &mut [u8]) -> Result<usize, Failed> {
        if self.written.get() != self.before {
            self.is_late = true;
        }
        let Some(step) = STEPS.as_slice().get(self.next) else {
            return Ok(0);
        };
        let mut count: usize = 0;
        for (byte, given) in into.iter_mut().zip(step.line.as_bytes()) {
            *byte = *given;
            count = count.saturating_add(1);
        }
        self.next = self.next.saturating_add(1);
        self.before = step.written;
        Ok(count.min(into.len()))
    }
}

/// Counts what it is given.
#[derive(Drop)]
struct CountingSink<'a> {
    written: &'a Cell<u64>,
}

impl<'a> Sink for CountingSink<'a> {
    ghost written = { λ _. None };

    ghost faults = { λ _. 0 };

    fn write(&mut self, piece: &[u8]) -> Result<usize, Failed> {
        self.written
            .set(self.written.get().saturating_add(piece.len() as u64));
        Ok(piece.len())
    }
}

#[test]
fn orders_are_written_before_the_next_line_is_read(rt: HostRuntime) {
    let alloc = rt.alloc();
    let written = Cell::new(0);
    let mut words = Vec::new(alloc);
    words.push(Text::fixed("run")).expect(&rt, "memory");
    let mut source = LineSource {
        written: &written,
        next: 0,
        before: 0,
        is_late: false,
    };
    let mut sink = CountingSink { written: &written };
    let status = replay(alloc, words.as_slice(), &mut source, &mut sink);
    check(&rt, status == 5);
    check(&rt, !source.is_late);
    check(&rt, source.next == 9);
    check(&rt, written.get() == 241);
}
