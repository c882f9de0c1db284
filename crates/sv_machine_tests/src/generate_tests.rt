//! The first inputs of some runs, worked out by another program.

use crate::checks::check_of;
use crate::claims::number_of;
use crate::sample::moment;
use std::process::Abort;
use sv_base::ids::Run;
use sv_base::moment::Moment;
use sv_generated::{Draw, generate};

/// A number, how many runs are issued at each input, and the inputs, with `-` after the last.
struct Case {
    number: u64,
    issued: u64,
    draws: &'static str,
}

const CASES: [Case; 6] = [
    Case {
        number: 1,
        issued: 0,
        draws: "0 stop 9|-",
    },
    Case {
        number: 2,
        issued: 0,
        draws: "0 tick|100 tick|-",
    },
    Case {
        number: 1_000_000,
        issued: 7,
        draws: "0 stop 99|100 tick|200 tick|300 stop 1|400 start 91|500 stop 38|600 tick|700 start 106|800 stop 80|900 tick|1000 exit 6|1100 tick|1200 tick|1300 start 153",
    },
    Case {
        number: 12,
        issued: 0,
        draws: "0 start 162|100 start 190|200 tick|300 start 108|400 tick|500 start 100|600 tick|700 tick|800 start 108|900 stop 115|1000 tick|1100 start 68|-|-",
    },
    Case {
        number: 999_999,
        issued: 4_294_967_295,
        draws: "0 tick|100 stop 189|200 start 45|300 start 159|400 stop 195|500 exit 5864|600 start 63|700 exit 3788|800 tick|900 tick|1000 exit 2151|1100 exit 3301",
    },
    Case {
        number: 20,
        issued: 1,
        draws: "0 stop 71|100 tick|200 stop 125|300 start 97|400 tick|500 exit 1|600 start 69|700 start 68|800 start 96|900 exit 1|1000 exit 1|1100 tick",
    },
];

/// An input as the tests write it: its moment, its kind, and the number of a run or of a program.
fn spelled(rt: &impl Abort, text: &str) -> Option<Draw> {
    match text.split_once(' ') {
        Some((digits, rest)) => {
            let at = moment(rt, u64::from(number_of(digits)));
            let (kind, digits) = rest.split_once(' ').unwrap_or((rest, ""));
            Some(spelled_at(at, kind, number_of(digits)))
        }
        None => None,
    }
}

/// An input of this kind at this moment, of the run or of the program of this number.
fn spelled_at(at: Moment, kind: &str, number: u32) -> Draw {
    match kind {
        "exit" => Draw::Exit(at, Run(number)),
        "stop" => Draw::Stop(at, number),
        "start" => Draw::Start(at, number),
        _ => Draw::Tick(at),
    }
}

/// Draws the inputs of a case.
fn are_drawn(rt: &impl Abort, case: &Case) {
    assert!(rt; case.number <= 1_000_000 && case.issued <= 4_294_967_295);
    let mut generated = generate(case.number);
    for wanted in case.draws.split('|') {
        let draw = generated.draw(case.issued);
        check_of(rt, draw == spelled(rt, wanted), wanted);
    }
}

#[test]
fn runs_are_drawn(rt: HostRuntime) {
    for case in &CASES {
        are_drawn(&rt, case);
    }
}
