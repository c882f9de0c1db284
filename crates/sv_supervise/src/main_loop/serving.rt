//! The loop.
ghost use Rattle.std.specs.Prelude.{◌≡◌, ◌≢◌, ◌≤◌, ◌+◌, ◌∷◌, [], ℕ, IsTrue, true, false, Err};
ghost use Rattle.std.specs.Prelude.{IfErr, OnErr, OnOk};
ghost use Rattle.sv_out.specs.Faults.{Rose};
ghost use Rattle.sv_out.specs.declared.input.Input.{Input};
ghost use Rattle.sv_supervise.specs.MainLoop.Course.{Stands, Stops};
ghost use Rattle.sv_supervise.specs.MainLoop.Telling.{grown, told};
ghost use Rattle.sv_supervise.specs.MainLoop.Working.{HandsFront, WorksOff};

use crate::main_loop::engine::Engine;
use crate::main_loop::lines::{Lines, put_orders};
use std::alloc::{AllocError, Global};
use sv_out::input::Input;
use sv_out::order::Order;
use sv_out::sink::{Sink, write_all};
use sv_outside::{NextFault, World};

/// How the daemon ended.
#[derive(Clone, Copy, PartialEq, Eq)]
pub enum End {
    /// The machine halted, and all its orders were handed over.
    Halted,
    /// Memory was refused.
    NoMemory,
    /// The world failed to give an input, and its count of breaks rose.
    Broken,
    /// The world has no input left.
    Ended,
    /// 2^64 - 1 inputs were taken.
    Full,
    /// The journal couldn't be written, and its count of faults rose.
    Unwritten,
    /// The input of this number, counted from 1, isn't accepted.
    Misplaced(u64),
}

/// Takes the inputs of a world one after the other: each goes to the machine; what `lines` tells of it and of its orders is
/// written to the journal in one piece; and only then its orders are handed to the world, in their order. It ends after the
/// input that brings the halt, or where it can't go on.
pub fn serve<E: Engine + Drop, W: World, L: Lines, J: Sink>(
    alloc: Global,
    machine: E,
    world: &mut W,
    lines: &L,
    journal: &mut J,
) -> End
    ensures stops { (m : E.Model) → E.stands machine m → E.rules.halted m ≡ false
        → Stops E.rules (L.texts lines.now) 0 m
        (told (W.given world.old) (W.left world.old) (W.handed world.old) (J.written journal.old))
        (told (W.given world.new) (W.left world.new) (W.handed world.new) (J.written journal.new))
        result }
    ensures broken { result ≡ End.Broken → Rose (W.breaks world.old) (W.breaks world.new) }
    ensures unwritten { result ≡ End.Unwritten
        → Rose (J.faults journal.old) (J.faults journal.new) }
    ensures breaks { W.breaks world.old ≤ W.breaks world.new }
    ensures faults { W.faults world.old ≤ W.faults world.new }
    ensures later { J.faults journal.old ≤ J.faults journal.new }
{
    let mut machine = machine;
    let mut text = String::new(alloc);
    for before in 0..u64::MAX {
        match take_one(
            alloc,
            &mut machine,
            before + 1,
            world,
            lines,
            &mut text,
            journal,
        ) {
            Ok(()) => {}
            Err(end) => return end,
        }
    }
    End::Full
}

/// Takes the next input, which is the one of this number. `text` is room for what is told of it.
fn take_one<E: Engine, W: World, L: Lines, J: Sink>(
    alloc: Global,
    machine: &mut E,
    number: u64,
    world: &mut W,
    lines: &L,
    text: &mut String,
    journal: &mut J,
) -> Result<(), End>
    ensures goes_on { OnOk result ((m : E.Model) → E.stands machine.old m → E.rules.halted m ≡ false
        → (input : Input) × Stands E.rules (L.texts lines.now) m (E.stands machine.new)
        (told (W.given world.old) (W.left world.old) (W.handed world.old) (J.written journal.old))
        (told (W.given world.new) (W.left world.new) (W.handed world.new) (J.written journal.new))
        (input ∷ [])) }
    ensures stops { IfErr result (λ end. (m : E.Model) → E.stands machine.old m
        → E.rules.halted m ≡ false
        → (count : ℕ) → number ≡ count + 1 → Stops E.rules (L.texts lines.now) count m
        (told (W.given world.old) (W.left world.old) (W.handed world.old) (J.written journal.old))
        (told (W.given world.new) (W.left world.new) (W.handed world.new) (J.written journal.new))
        end) }
    ensures broken { result ≡ Err End.Broken → Rose (W.breaks world.old) (W.breaks world.new) }
    ensures unwritten { result ≡ Err End.Unwritten
        → Rose (J.faults journal.old) (J.faults journal.new) }
    ensures breaks { W.breaks world.old ≤ W.breaks world.new }
    ensures faults { W.faults world.old ≤ W.faults world.new }
    ensures later { J.faults journal.old ≤ J.faults journal.new }
{
    let input = match world.next(alloc) {
        Ok(input) => input,
        Err(NextFault::Failed) => return Err(End::Broken),
        Err(NextFault::Ended) => return Err(End::Ended),
        Err(NextFault::OutOfMemory) => return Err(End::NoMemory),
    };
    if !machine.accepts(&input) {
        return Err(End::Misplaced(number));
    }
    match work_off(alloc, machine, input, world, lines, text, journal) {
        Ok(()) => Ok(()),
        Err(end) => Err(end),
    }
}

/// Works off an input that the machine accepts. `text` is room for what is told of it.
fn work_off<E: Engine, W: World, L: Lines, J: Sink>(
    alloc: Global,
    machine: &mut E,
    input: Input,
    world: &mut W,
    lines: &L,
    text: &mut String,
    journal: &mut J,
) -> Result<(), End>
    requires { IsTrue (E.fits machine.old input) }
    ensures works { (m : E.Model) → E.stands machine.old m → E.rules.accepts m input ≡ true
        → WorksOff E.rules (L.texts lines.now) m (E.stands machine.new) input
        (told (W.given world.old) (W.left world.old) (W.handed world.old) (J.written journal.old))
        (told (W.given world.new) (W.left world.new) (W.handed world.new) (J.written journal.new))
        result }
    ensures unbroken { result ≢ Err End.Broken }
    ensures unwritten { result ≡ Err End.Unwritten
        → Rose (J.faults journal.old) (J.faults journal.new) }
    ensures breaks { W.breaks world.new ≡ W.breaks world.old }
    ensures faults { W.faults world.old ≤ W.faults world.new }
    ensures later { J.faults journal.old ≤ J.faults journal.new }
{
    text.clear();
    if lines.put_input(&input, text).is_err() {
        return Err(End::NoMemory);
    }
    let Ok(orders) = machine.step(alloc, input) else {
        return Err(End::NoMemory);
    };
    if put_orders(lines, orders.as_slice(), text).is_err() {
        return Err(End::NoMemory);
    }
    if write_all(journal, text.as_str().as_bytes()).is_err() {
        return Err(End::Unwritten);
    }
    if hand_over(alloc, orders.as_slice(), world).is_err() {
        return Err(End::NoMemory);
    }
    if machine.halted() {
        return Err(End::Halted);
    }
    Ok(())
}

/// Hands orders to the world, in their order.
fn hand_over<W: World>(alloc: Global, orders: &[Order], world: &mut W) -> Result<(), AllocError>
    ensures handed { OnOk result (W.handed world.new ≡ grown orders.now (W.handed world.old)) }
    ensures front { OnErr result (HandsFront (W.handed world.old) (W.handed world.new) orders.now) }
    ensures given { W.given world.new ≡ W.given world.old }
    ensures left { W.left world.new ≡ W.left world.old }
    ensures breaks { W.breaks world.new ≡ W.breaks world.old }
    ensures faults { W.faults world.old ≤ W.faults world.new }
{
    for order in orders {
        world.perform(alloc, order)?;
    }
    Ok(())
}
