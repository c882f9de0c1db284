//! Jobs that are handed to a gate in memory.

use crate::checks::check;
use crate::outside_tests::{Idle, came_back};
use std::alloc::Global;
use std::process::Abort;
use std::sync::Wait;
use sv_outside::{HoldGate, JobWord, Ready, hand};

/// A job that is about the console.
fn idle() -> Idle {
    Idle {
        word: JobWord::Console,
    }
}

/// A gate with room for one job.
fn gate_of(rt: &impl Abort, alloc: Global) -> Ready<Idle, HoldGate<Idle>> {
    Ready::new(HoldGate::new(alloc, 1, Vec::new(alloc)).expect(rt, "memory"))
}

/// Whether the gate keeps a job.
fn keeps(gate: &mut Ready<Idle, HoldGate<Idle>>) -> bool {
    hand(gate, idle())
}

/// The gate gives a job back as it was.
fn gives_back<R: Abort + Wait>(rt: &R, gate: &mut Ready<Idle, HoldGate<Idle>>) {
    let mut answer = gate.start(idle());
    check(rt, came_back(rt, &mut answer));
}

#[test]
fn a_gate_keeps_jobs_while_it_has_room(rt: HostRuntime) {
    let mut gate = gate_of(&rt, rt.alloc());
    check(&rt, keeps(&mut gate));
    check(&rt, !keeps(&mut gate));
    gives_back(&rt, &mut gate);
}
