//! A world in memory, worked by hand: what it gives, at which calls it fails, and which orders raise its count of faults.

use crate::checks::check;
use std::alloc::Global;
use std::process::Abort;
use sv_base::{Bytes, Items, Moment, Piece, Run, Signal, Stream, Text};
use sv_out::input::Input;
use sv_out::order::{Order, SpawnOrder};
use sv_outside::{NextFault, ScriptWorld, World, copy_input, copy_order};

/// What a world answers, call by call: a digit is the Failed of that number, `t` a tick, `!` a failure, `.` the end.
/// The first text is the script; before the second one stand the calls that are to fail.
const ANSWERS: [(&str, &[u64], &str); 5] = [
    ("", &[], ".."),
    ("t7t", &[], "t7t.."),
    ("t7", &[1], "!t7."),
    ("t7", &[2, 4], "t!7!."),
    ("", &[1], "!."),
];

fn input_of(byte: u8) -> Input {
    match byte {
        b't' => Input::Tick { at: Moment::zero() },
        digit => Input::Failed(u64::from(digit.saturating_sub(b'0'))),
    }
}

fn script_of(rt: &impl Abort, alloc: Global, text: &str) -> Vec<Input> {
    let mut script = Vec::new(alloc);
    for byte in text.as_bytes() {
        script.push(input_of(*byte)).expect(rt, "memory");
    }
    script
}

fn scripted(rt: &impl Abort, alloc: Global, script: &str, failing: &[u64]) -> ScriptWorld {
    let script = script_of(rt, alloc, script);
    let failing = Vec::from_slice(alloc, failing).expect(rt, "memory");
    ScriptWorld::new(alloc, script, failing)
}

/// An answer, as the table writes it; `?` and `m` are none of it.
fn letter(answer: &Result<Input, NextFault>) -> u8 {
    match answer {
        Ok(Input::Tick { .. }) => b't',
        Ok(Input::Failed(number)) => b"0123456789"[(*number % 10) as usize],
        Ok(_) => b'?',
        Err(NextFault::Failed) => b'!',
        Err(NextFault::Ended) => b'.',
        Err(NextFault::OutOfMemory) => b'm',
    }
}

/// The answer of one call, as the table writes it.
fn answer(alloc: Global, world: &mut ScriptWorld) -> u8 {
    letter(&world.next(alloc))
}

/// A world gives these answers and counts them.
fn answers(rt: &impl Abort, alloc: Global, world: &mut ScriptWorld, letters: &str) {
    let mut given = 0usize;
    let mut broken = 0u64;
    for expected in letters.as_bytes() {
        match expected {
            b'!' => broken = broken.saturating_add(1),
            b'.' => {}
            _ => given = given.saturating_add(1),
        }
        check(rt, answer(alloc, world) == *expected);
        check(rt, world.breaks() == broken && world.given().len() == given);
        check(rt, world.faults() == 0);
    }
}

/// A world of this script, which fails at these calls, gives these answers and counts them.
fn gives(rt: &impl Abort, alloc: Global, script: &str, failing: &[u64], expected: &str) {
    let mut world = scripted(rt, alloc, script, failing);
    answers(rt, alloc, &mut world, expected);
}

#[test]
fn a_script_is_given_as_it_stands(rt: HostRuntime) {
    for (script, failing, answers) in &ANSWERS {
        gives(&rt, rt.alloc(), script, failing, answers);
    }
}

/// Hands an order over: how many faults the world counts then.
fn faults_after_order(rt: &impl Abort, alloc: Global, world: &mut ScriptWorld) -> u64 {
    world
        .perform(alloc, &Order::Halt)
        .expect(rt, "ample memory");
    world.faults()
}

/// Orders are handed to a world whose first input is Failed of 0: how many faults it counts after each.
fn faults_rise(rt: &impl Abort, alloc: Global, world: &mut ScriptWorld) {
    // Order 0 is named by the first input, which is given before it is handed over.
    check(rt, answer(alloc, world) == b'0');
    for faults in &[0u64, 1, 2, 2, 3, 3] {
        check(rt, faults_after_order(rt, alloc, world) == *faults);
    }
    check(
        rt,
        world.handed().len() == 6 && world.breaks() == 0 && world.given().len() == 1,
    );
}

#[test]
fn an_order_that_the_script_names_later_raises_the_count(rt: HostRuntime) {
    let mut world = scripted(&rt, rt.alloc(), "0t241", &[]);
    faults_rise(&rt, rt.alloc(), &mut world);
}

fn text(rt: &impl Abort, alloc: Global, text: &str) -> Text {
    Text::from_str(alloc, text).expect(rt, "memory")
}

fn piece(rt: &impl Abort, alloc: Global) -> Piece {
    let mut bytes = Vec::new(alloc);
    bytes.push(7).expect(rt, "memory");
    Piece::new(bytes).expect(rt, "one byte")
}

fn words(rt: &impl Abort, alloc: Global) -> Items<Text> {
    let mut words = Items::new(alloc);
    words.push(text(rt, alloc, "/bin/cat")).expect(rt, "memory");
    words
}

fn environment(rt: &impl Abort, alloc: Global) -> Items<(Text, Text)> {
    let mut environment = Items::new(alloc);
    environment
        .push((text(rt, alloc, "A"), text(rt, alloc, "b")))
        .expect(rt, "memory");
    environment
}

fn spawn(rt: &impl Abort, alloc: Global) -> Order {
    Order::Spawn(SpawnOrder {
        run: Run(3),
        group: text(rt, alloc, "g"),
        name: text(rt, alloc, "n"),
        directory: text(rt, alloc, "/d"),
        umask: text(rt, alloc, "022"),
        user: text(rt, alloc, "joe"),
        words: words(rt, alloc),
        environment: environment(rt, alloc),
    })
}

/// A copy of an input, which is let go.
fn input_copy(rt: &impl Abort, alloc: Global, input: Input) -> Input {
    copy_input(alloc, &input).expect(rt, "ample memory")
}

/// A copy of an order, which is let go.
fn order_copy(rt: &impl Abort, order: Order) -> Order {
    copy_order(&order).expect(rt, "ample memory")
}

fn output(rt: &impl Abort, alloc: Global) -> Input {
    Input::Out {
        at: Moment::zero(),
        run: Run(2),
        stream: Stream::Err,
        bytes: piece(rt, alloc),
    }
}

fn is_output(input: &Input) -> bool {
    match input {
        Input::Out {
            run: Run(2),
            stream: Stream::Err,
            bytes,
            ..
        } => bytes.as_slice() == [7u8].as_slice(),
        _ => false,
    }
}

fn is_spawn(order: &Order) -> bool {
    match order {
        Order::Spawn(spawn) => {
            spawn.user.as_str() == "joe"
                && spawn.words.as_slice().len() == 1
                && spawn.environment.as_slice().len() == 1
        }
        _ => false,
    }
}

fn stdin(rt: &impl Abort, alloc: Global) -> Order {
    Order::Stdin {
        run: Run(1),
        bytes: Bytes::from_slice(alloc, b"hi").expect(rt, "ample memory"),
    }
}

fn is_stdin(order: &Order) -> bool {
    match order {
        Order::Stdin { run: Run(1), bytes } => bytes.as_slice() == b"hi".as_slice(),
        _ => false,
    }
}

fn is_kill(order: &Order) -> bool {
    matches!(
        order,
        Order::Kill {
            run: Run(1),
            signal: Signal::Int,
            group: true,
        }
    )
}

fn output_is_copied(rt: &impl Abort, alloc: Global) {
    let copy = input_copy(rt, alloc, output(rt, alloc));
    check(rt, is_output(&copy));
}

/// An order that is copied.
#[derive(Clone, Copy)]
enum Copied {
    Spawn,
    Stdin,
    Kill,
}

fn kill() -> Order {
    Order::Kill {
        run: Run(1),
        signal: Signal::Int,
        group: true,
    }
}

fn order_of(rt: &impl Abort, alloc: Global, which: Copied) -> Order {
    match which {
        Copied::Spawn => spawn(rt, alloc),
        Copied::Stdin => stdin(rt, alloc),
        Copied::Kill => kill(),
    }
}

fn is_order(order: &Order, which: Copied) -> bool {
    match which {
        Copied::Spawn => is_spawn(order),
        Copied::Stdin => is_stdin(order),
        Copied::Kill => is_kill(order),
    }
}

fn order_is_copied(rt: &impl Abort, alloc: Global, which: Copied) {
    let copy = order_copy(rt, order_of(rt, alloc, which));
    check(rt, is_order(&copy, which));
}

#[test]
fn copies_succeed(rt: HostRuntime) {
    let alloc = rt.alloc();
    output_is_copied(&rt, alloc);
    order_is_copied(&rt, alloc, Copied::Spawn);
    order_is_copied(&rt, alloc, Copied::Stdin);
    order_is_copied(&rt, alloc, Copied::Kill);
}
