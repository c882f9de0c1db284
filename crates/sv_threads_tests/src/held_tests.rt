//! Worlds over a gate that holds its jobs: what is given without any note.

use crate::checks::check;
use crate::course::{Course, go_over};
use crate::parts::{bytes_of, give, heard, parts_of, spawn_order};
use std::alloc::Global;
use std::process::Abort;
use std::sync::Wait;
use sv_base::{Run, Signal, Text};
use sv_out::order::Order;
use sv_outside::{HoldGate, World};

/// What is done over a gate that holds its jobs.
#[derive(Drop)]
enum Held {
    FailuresFirst,
    QuestionFails,
    RunWithoutThread,
    ManyPieces,
    NamesAndSizes,
    FailedSignal,
}

impl Course for Held {
    fn over<W: World>(&self, rt: &impl Abort, alloc: Global, world: &mut W) {
        match self {
            Held::FailuresFirst => fail_twice(rt, alloc, world),
            Held::QuestionFails => ask_twice(rt, alloc, world),
            Held::RunWithoutThread => start_without_thread(rt, alloc, world),
            Held::ManyPieces => write_65_pieces(rt, alloc, world),
            Held::NamesAndSizes => ask_names_and_sizes(rt, alloc, world),
            Held::FailedSignal => signal_thrice(rt, alloc, world),
        }
    }
}

/// Goes through it over a gate with this room, and a shelf that fails at these calls.
fn go_over_held<R: Abort + Wait + std::time::Clock + Copy>(
    rt: R,
    alloc: Global,
    failing: &[u64],
    room: usize,
    course: Held,
) {
    let gate = HoldGate::new(alloc, room, Vec::new(alloc)).expect(&rt, "ample memory");
    go_over(
        rt,
        alloc,
        parts_of(rt, alloc, failing, None, ""),
        gate,
        &course,
    );
}

#[test]
fn failures_come_before_the_answer(rt: HostRuntime) {
    go_over_held(rt, rt.alloc(), &[1, 3], 9, Held::FailuresFirst);
}

#[test]
fn a_question_that_fails_has_no_answer(rt: HostRuntime) {
    go_over_held(rt, rt.alloc(), &[1], 9, Held::QuestionFails);
}

#[test]
fn a_run_without_a_thread_is_refused(rt: HostRuntime) {
    go_over_held(rt, rt.alloc(), &[], 4, Held::RunWithoutThread);
}

#[test]
fn the_65th_unwritten_piece_is_told_as_failed(rt: HostRuntime) {
    go_over_held(rt, rt.alloc(), &[], 9, Held::ManyPieces);
}

#[test]
fn names_and_sizes_are_answered(rt: HostRuntime) {
    go_over_held(rt, rt.alloc(), &[4], 9, Held::NamesAndSizes);
}

#[test]
fn a_failed_signal_is_told(rt: HostRuntime) {
    go_over_held(rt, rt.alloc(), &[], 9, Held::FailedSignal);
}

fn fail_twice<W: World>(rt: &impl Abort, alloc: Global, world: &mut W) {
    append(rt, alloc, world);
    append(rt, alloc, world);
    append(rt, alloc, world);
    read(rt, alloc, world);
    check(rt, heard(rt, alloc, world) == 'A');
    check(rt, heard(rt, alloc, world) == 'C');
    check(rt, heard(rt, alloc, world) == 'R');
    give(rt, alloc, world, Order::Halt);
}

fn ask_twice<W: World>(rt: &impl Abort, alloc: Global, world: &mut W) {
    read(rt, alloc, world);
    check(rt, heard(rt, alloc, world) == 'A');
    read(rt, alloc, world);
    check(rt, heard(rt, alloc, world) == 'm');
}

fn start_without_thread<W: World>(rt: &impl Abort, alloc: Global, world: &mut W) {
    give(rt, alloc, world, spawn_order(alloc, 1));
    check(rt, heard(rt, alloc, world) == 'r');
    write(rt, alloc, world);
    append(rt, alloc, world);
    read(rt, alloc, world);
    check(rt, heard(rt, alloc, world) == 'R');
}

fn write_65_pieces<W: World>(rt: &impl Abort, alloc: Global, world: &mut W) {
    give(rt, alloc, world, spawn_order(alloc, 1));
    check(rt, heard(rt, alloc, world) == 'p');
    for _ in 0..65 {
        write(rt, alloc, world);
    }
    read(rt, alloc, world);
    check(rt, heard(rt, alloc, world) == '?');
    check(rt, heard(rt, alloc, world) == 'm');
}

fn ask_names_and_sizes<W: World>(rt: &impl Abort, alloc: Global, world: &mut W) {
    append(rt, alloc, world);
    look(rt, alloc, world);
    check(rt, heard(rt, alloc, world) == 'n');
    size(rt, alloc, world);
    check(rt, heard(rt, alloc, world) == 'z');
    look(rt, alloc, world);
    check(rt, heard(rt, alloc, world) == 'D');
}

fn signal_thrice<W: World>(rt: &impl Abort, alloc: Global, world: &mut W) {
    kill(rt, alloc, world);
    give(rt, alloc, world, spawn_order(alloc, 1));
    check(rt, heard(rt, alloc, world) == 'p');
    kill(rt, alloc, world);
    kill(rt, alloc, world);
    append(rt, alloc, world);
    read(rt, alloc, world);
    check(rt, heard(rt, alloc, world) == 'D');
    check(rt, heard(rt, alloc, world) == 'R');
}

fn write<W: World>(rt: &impl Abort, alloc: Global, world: &mut W) {
    let bytes = bytes_of(rt, alloc, "x");
    give(rt, alloc, world, Order::Stdin { run: Run(1), bytes });
}

fn append<W: World>(rt: &impl Abort, alloc: Global, world: &mut W) {
    let bytes = bytes_of(rt, alloc, "ab");
    give(
        rt,
        alloc,
        world,
        Order::Append {
            file: Text::fixed("/l"),
            bytes,
        },
    );
}

fn read<W: World>(rt: &impl Abort, alloc: Global, world: &mut W) {
    give(
        rt,
        alloc,
        world,
        Order::ReadFile {
            file: Text::fixed("/l"),
            start: 0,
            length: 9,
        },
    );
}

fn look<W: World>(rt: &impl Abort, alloc: Global, world: &mut W) {
    let pattern = Text::fixed("/*");
    give(rt, alloc, world, Order::Names { pattern });
}

fn size<W: World>(rt: &impl Abort, alloc: Global, world: &mut W) {
    let file = Text::fixed("/l");
    give(rt, alloc, world, Order::Size { file });
}

fn kill<W: World>(rt: &impl Abort, alloc: Global, world: &mut W) {
    give(
        rt,
        alloc,
        world,
        Order::Kill {
            run: Run(1),
            signal: Signal::Term,
            group: false,
        },
    );
}
