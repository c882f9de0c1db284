//! The loop over a world in memory, with a machine that is only there to be told apart: it takes so many inputs, a tick gives it one
//! order, and a signal two, of which the last is the halt.
ghost use Rattle.std.specs.Prelude.{◌≡◌, ◌++◌, ◌∷◌, [], IfOk, OnOk, false, nat_lt};

use crate::checks::same;
use std::alloc::{AllocError, Global};
use std::process::Abort;
use sv_base::{DaemonSignal, LinkId, Moment, Signal};
use sv_out::input::Input;
use sv_out::order::Order;
use sv_out::sink::ListSink;
use sv_outside::ScriptWorld;
use sv_supervise::main_loop::{End, Engine, Lines, serve};

/// The script (`t` a tick, `s` a signal, `f` the failure of order 0), how many inputs are taken, the calls for an input and the
/// writes that are to fail, and what becomes of it: the end, the number of orders handed over, and the journal, with `i` for each
/// input and `o` for each order.
const COURSES: [(&str, u64, &str, &str, &str); 12] = [
    ("s", 9, "", "", "halted 2 ioo"),
    ("ts", 9, "", "", "halted 3 ioioo"),
    ("st", 9, "", "", "halted 2 ioo"),
    ("tfs", 9, "", "", "halted 3 ioiioo"),
    ("", 9, "", "", "ended 0 "),
    ("t", 9, "", "", "ended 1 io"),
    ("ts", 9, "1", "", "broken 0 "),
    ("ts", 9, "2", "", "broken 1 io"),
    ("ts", 0, "", "", "misplaced 1 0 "),
    ("ts", 1, "", "", "misplaced 2 1 io"),
    ("ts", 9, "", "1", "unwritten 0 "),
    ("ts", 9, "", "2", "unwritten 1 io"),
];

#[derive(Drop)]
struct Toy {
    left: u64,
    halted: bool,
}

impl Engine for Toy {
    ghost use Rattle.std.specs.Prelude.{nat_lt};
    ghost use Rattle.sv_supervise.specs.MainLoop.Rules.{Rules};

    ghost Model = { Unit {0} };

    ghost rules = { record {
      accepts = λ _ _. false;
      next = λ m _. m;
      orders = λ _ _. [];
      halted = λ _. false;
    } };

    ghost stands = { λ _ _. ⊥ };

    ghost fits = { λ toy _. nat_lt 0 toy.left };

    fn accepts(&self, _input: &Input) -> bool {
        0 < self.left
    }

    fn step(&mut self, alloc: Global, input: Input) -> Result<Vec<Order>, AllocError> {
        self.left = self.left.saturating_sub(1);
        self.halted = self.halted || matches!(&input, Input::Signal { .. });
        orders_for(alloc, &input)
    }

    fn halted(&self) -> bool {
        self.halted
    }
}

fn orders_for(alloc: Global, input: &Input) -> Result<Vec<Order>, AllocError> {
    let link = LinkId(1);
    match input {
        Input::Tick { .. } => Ok(vec![in alloc; Order::More { link }]?),
        Input::Signal { .. } => Ok(vec![in alloc; Order::Close { link }, Order::Halt]?),
        _ => Ok(Vec::new(alloc)),
    }
}

/// A letter for each input and for each order.
struct Letters;

impl Lines for Letters {
    ghost texts = { λ _. record { of_input = λ _. 105 ∷ []; of_order = λ _. 111 ∷ [] } };

    fn put_input(&self, _input: &Input, text: &mut String) -> Result<(), AllocError> {
        text.push_str("i")
    }

    fn put_order(&self, _order: &Order, text: &mut String) -> Result<(), AllocError> {
        text.push_str("o")
    }
}

fn input_of(rt: &impl Abort, byte: u8) -> Input {
    let at = Moment::zero();
    match byte {
        b't' => Input::Tick { at },
        b's' => Input::Signal {
            at,
            signal: DaemonSignal::new(Signal::Term).expect(rt, "a signal that the daemon takes"),
        },
        _ => Input::Failed(0),
    }
}

fn script_of(rt: &impl Abort, alloc: Global, text: &str) -> Vec<Input> {
    let mut script = Vec::new(alloc);
    for byte in text.as_bytes() {
        put_input(rt, &mut script, *byte);
    }
    script
}

fn put_input(rt: &impl Abort, script: &mut Vec<Input>, byte: u8) {
    let input = input_of(rt, byte);
    script.push(input).expect(rt, "memory");
}

fn put_call(rt: &impl Abort, calls: &mut Vec<u64>, digit: u8) {
    let call = u64::from(digit.saturating_sub(b'0'));
    calls.push(call).expect(rt, "memory");
}

fn calls_of(rt: &impl Abort, alloc: Global, text: &str) -> Vec<u64> {
    let mut calls = Vec::new(alloc);
    for byte in text.as_bytes() {
        put_call(rt, &mut calls, *byte);
    }
    calls
}

fn world_of(rt: &impl Abort, alloc: Global, script: &str, failing: &str) -> ScriptWorld {
    let script = script_of(rt, alloc, script);
    ScriptWorld::new(alloc, script, calls_of(rt, alloc, failing))
}

/// Where a course begins: its world and its journal.
#[derive(Drop)]
struct Parts {
    world: ScriptWorld,
    journal: ListSink,
}

fn parts_of(rt: &impl Abort, alloc: Global, script: &str, failing: &str, writes: &str) -> Parts {
    Parts {
        world: world_of(rt, alloc, script, failing),
        journal: ListSink::new(alloc, 64, calls_of(rt, alloc, writes)),
    }
}

fn put(rt: &impl Abort, text: &mut String, piece: &str) {
    text.push_str(piece).expect(rt, "memory");
}

fn put_number(rt: &impl Abort, text: &mut String, number: u64) {
    write!(text, "misplaced {number}").expect(rt, "memory");
}

fn put_end(rt: &impl Abort, text: &mut String, end: End) {
    match end {
        End::Halted => put(rt, text, "halted"),
        End::NoMemory => panic!(rt; "out of memory"),
        End::Broken => put(rt, text, "broken"),
        End::Ended => put(rt, text, "ended"),
        End::Full => put(rt, text, "full"),
        End::Unwritten => put(rt, text, "unwritten"),
        End::Misplaced(number) => put_number(rt, text, number),
    }
}

fn put_count(rt: &impl Abort, text: &mut String, count: usize) {
    write!(text, " {count} ").expect(rt, "memory");
}

fn put_bytes(rt: &impl Abort, alloc: Global, text: &mut String, bytes: &[u8]) {
    let written = String::from_utf8_lossy(alloc, bytes).expect(rt, "memory");
    put(rt, text, written.as_str());
}

/// How the loop ends with a machine that takes so many inputs.
fn end_after(alloc: Global, left: u64, parts: &mut Parts) -> End {
    let toy = Toy {
        left,
        halted: false,
    };
    serve(alloc, toy, &mut parts.world, &Letters, &mut parts.journal)
}

/// The end, the number of orders handed over, and the journal.
fn told(rt: &impl Abort, alloc: Global, end: End, parts: &Parts) -> String {
    let mut text = String::new(alloc);
    put_end(rt, &mut text, end);
    put_count(rt, &mut text, parts.world.handed().len());
    put_bytes(rt, alloc, &mut text, parts.journal.written());
    text
}

fn is_told(rt: &impl Abort, alloc: Global, end: End, parts: &Parts, expected: &str) {
    let text = told(rt, alloc, end, parts);
    same(rt, text.as_str(), expected);
}

/// A course comes to what its row says.
fn course_is(rt: &impl Abort, alloc: Global, course: &(&str, u64, &str, &str, &str)) {
    let (script, left, failing, writes, expected) = *course;
    let mut parts = parts_of(rt, alloc, script, failing, writes);
    let end = end_after(alloc, left, &mut parts);
    is_told(rt, alloc, end, &parts, expected);
}

#[test]
fn inputs_are_taken_until_the_halt(rt: HostRuntime) {
    for course in &COURSES {
        course_is(&rt, rt.alloc(), course);
    }
}
