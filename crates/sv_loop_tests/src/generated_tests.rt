//! Generated runs, and the words that ask for one. The lines are those of `generated_lines.txt`, which another program worked out.

use crate::checks::check;
use crate::tests::USAGE;
use std::alloc::Global;
use std::process::Abort;
use sv_base::text::Text;
use sv_loop::replay;
use sv_out::sink::{ListSink, Sink};
use sv_out::source::ListSource;

/// A number as it stands in the words, and the line of its run.
#[derive(Drop)]
struct Case {
    number: &'static str,
    line: &'static str,
}

const CASES: [Case; 6] = [
    Case {
        number: "1",
        line: "inputs 1 spawns 200 kills 0 edges 200\n",
    },
    Case {
        number: "15",
        line: "inputs 15 spawns 202 kills 3 edges 405\n",
    },
    Case {
        number: "20",
        line: "inputs 20 spawns 206 kills 1 edges 410\n",
    },
    Case {
        number: "300",
        line: "inputs 300 spawns 251 kills 110 edges 607\n",
    },
    Case {
        number: "1000",
        line: "inputs 1000 spawns 331 kills 756 edges 977\n",
    },
    Case {
        number: "2000",
        line: "inputs 2000 spawns 426 kills 1754 edges 1334\n",
    },
];

/// The words `gen N`.
fn words(rt: &impl Abort, alloc: Global, number: &'static str) -> Vec<Text> {
    let mut words = Vec::new(alloc);
    words.push(Text::fixed("gen")).expect(rt, "memory");
    words.push(Text::fixed(number)).expect(rt, "memory");
    words
}

/// The words end with this status, having written this, where the sink fails at one of its calls; the source isn't read.
fn end(rt: &impl Abort, alloc: Global, words: &[Text], failing: u64, status: u8, written: &[u8]) {
    let mut source = ListSource::new(Vec::new(alloc), 1, Vec::new(alloc));
    let mut calls = Vec::new(alloc);
    calls.push(failing).expect(rt, "memory");
    let mut sink = ListSink::new(alloc, 1_000_000, calls);
    check(rt, replay(alloc, words, &mut source, &mut sink) == status);
    check(rt, sink.written() == written);
}

/// The run of this number ends with 0, having written its line.
fn run(rt: &impl Abort, alloc: Global, case: &Case) {
    let words = words(rt, alloc, case.number);
    end(rt, alloc, words.as_slice(), 0, 0, case.line.as_bytes());
}

#[test]
fn runs_give_their_lines(rt: HostRuntime) {
    for case in &CASES {
        run(&rt, rt.alloc(), case);
    }
}

#[test]
fn a_long_run_gives_its_line(rt: HostRuntime) {
    let case = Case {
        number: "100000",
        line: "inputs 100000 spawns 2866 kills 164610 edges 10756\n",
    };
    run(&rt, rt.alloc(), &case);
}

/// No numbers of a run.
const REFUSED: [&str; 12] = [
    "0",
    "1000001",
    "007",
    "+5",
    "-1",
    "",
    " 5",
    "5 ",
    "1.0",
    "five",
    "18446744073709551616",
    "N",
];

#[test]
fn other_numbers_are_refused(rt: HostRuntime) {
    for number in &REFUSED {
        let words = words(&rt, rt.alloc(), *number);
        end(&rt, rt.alloc(), words.as_slice(), 0, 2, USAGE);
    }
}

#[test]
fn a_sink_that_fails(rt: HostRuntime) {
    let words = words(&rt, rt.alloc(), "1");
    end(&rt, rt.alloc(), words.as_slice(), 1, 4, b"");
}

#[test]
fn too_few_words_and_too_many(rt: HostRuntime) {
    let mut words = words(&rt, rt.alloc(), "1");
    words.push(Text::fixed("1")).expect(&rt, "memory");
    end(&rt, rt.alloc(), words.as_slice(), 0, 2, USAGE);
    let mut word = Vec::new(rt.alloc());
    word.push(Text::fixed("gen")).expect(&rt, "memory");
    end(&rt, rt.alloc(), word.as_slice(), 0, 2, USAGE);
}
