//! What is to be said of one line at its place.
ghost use Rattle.std.specs.Prelude.{◌≡◌, ◌≢◌, ◌↔◌, ◌++◌, ◌≤◌, length, List, ℕ, [], IsTrue, IsSome, IfOk, IfSome};
ghost use Rattle.std.specs.Prelude.{MatchOption, Err, Ok, codes};
ghost use Rattle.sv_base.specs.Roster.{is_roster};
ghost use Rattle.sv_core.specs.MachineState.{Model};
ghost use Rattle.sv_core.specs.StandsFor.{StandsFor};
ghost use Rattle.sv_groups.specs.Changes.{with_group};
ghost use Rattle.sv_journal.specs.JournalLine.{FitsInput, input_line};
ghost use Rattle.sv_journal.specs.Limits.{line_limit};
ghost use Rattle.sv_journal.specs.declared.header.Header.TheVariants.{Go};
ghost use Rattle.sv_judge.specs.JournalPlaces.{Stage, adds, heads, titles};
ghost use Rattle.sv_judge.specs.ShortHeader.{group_of};
ghost use Rattle.sv_judge.specs.JournalPlaces.Stage.{Fresh, Named, Running};
ghost use Rattle.sv_judge.specs.JournalPlaces.Verdict.{Stands};
ghost use Rattle.sv_judge.specs.Judging.{IsMachine, IsPlace, IsRunning, JudgedAs, JudgedHead};
ghost use Rattle.sv_judge.specs.Judging.{JudgedNoted};
ghost use Rattle.sv_out.specs.declared.input.Input.{Input};

use crate::long::{LongPlace, judge_long};
use crate::short::{config_of, group_of, host_at};
use std::alloc::{AllocError, Global};
use std::mem;
use sv_base::groups::Groups;
use sv_base::moment::Moment;
use sv_core::machine::Machine;
use sv_journal::fault::LineFault;
use sv_journal::header::{Header, Program, Version};
use sv_journal::read::{LINE_LIMIT, read_header, read_input, read_tick};
use sv_journal::reading_orders::read_order;
use sv_out::order::Order;
use sv_ranks::place;
use sv_sections::fault::ConfFault;

/// The length of the mark that stands before an order's line in a daemon's journal.
const MARK_LENGTH: usize = 2;

/// Where in a journal the next line stands: at the beginning, after the title and some programs, in a long header, or
/// after `go`.
#[derive(Drop)]
pub enum JournalProgress {
    Fresh,
    Named(Groups),
    Long(LongPlace),
    Running(Box<Machine>),
}

/// Why a line doesn't stand at its place.
#[derive(Drop)]
pub enum Refused {
    /// It is outside the grammar of its place.
    BadLine,
    /// Its input isn't accepted.
    NotAccepted,
    /// The header is whole, and its configuration has this fault.
    NotConfigured(ConfFault),
    /// Memory was refused.
    NoMemory,
}

impl JournalProgress {
    /// Whether the machine runs.
    pub fn is_running(&self) -> bool
        ensures { IsTrue result ↔ IsRunning self.now }
    {
        matches!(self, JournalProgress::Running(_))
    }

    /// Judges the line at this place, where the machine takes the line's input. It leads to the next place, and gives
    /// these orders; after a line that is refused no other is to be judged.
    pub fn judge(
        &mut self,
        alloc: Global,
        line: &[u8],
        orders: &mut Vec<Order>,
    ) -> Result<(), Refused>
        ensures { (at : Stage) → IsPlace self.old at
            → JudgedAs result orders.new.items (IsPlace self.new) at line.now }
    {
        match self {
            JournalProgress::Running(machine) => judge_input(alloc, machine, line, orders),
            _ => {
                orders.clear();
                self.judge_header(alloc, line)
            }
        }
    }

    /// Before `go` stand lines of the header alone, which give no orders.
    #[inline(never)]
    fn judge_header(&mut self, alloc: Global, line: &[u8]) -> Result<(), Refused>
        requires { IsRunning self.old → ⊥ }
        ensures { (at : Stage) → IsPlace self.old at
            → JudgedAs result [] (IsPlace self.new) at line.now }
    {
        let place = mem::replace(self, JournalProgress::Fresh);
        match read_header(alloc, line) {
            Ok(header) => {
                *self = judge_head(alloc, place, header)?;
                Ok(())
            }
            Err(LineFault::BadLine(_)) => Err(Refused::BadLine),
            Err(LineFault::OutOfMemory) => Err(Refused::NoMemory),
        }
    }
}

#[tactic(auto, using(crate::proofs::Headers::no_header_behind_go))]
fn judge_head(
    alloc: Global,
    place: JournalProgress,
    header: Header,
) -> Result<JournalProgress, Refused>
    ensures { (at : Stage) → IsPlace place at → JudgedHead result (heads at header) }
{
    match place {
        JournalProgress::Fresh => judge_first(alloc, &header),
        JournalProgress::Named(groups) => judge_short(alloc, groups, header),
        JournalProgress::Long(long) => judge_long(alloc, long, header),
        JournalProgress::Running(_) => Err(Refused::BadLine),
    }
}

fn judge_first(alloc: Global, header: &Header) -> Result<JournalProgress, Refused>
    ensures judged { JudgedHead result (heads Fresh header.now) }
    ensures memory { result ≢ Err Refused.NoMemory }
{
    match header {
        Header::Journal(version) => judge_version(alloc, *version),
        _ => Err(Refused::BadLine),
    }
}

/// Version 0 has a short header, version 1 a long one.
fn judge_version(alloc: Global, version: Version) -> Result<JournalProgress, Refused>
    ensures judged { JudgedHead result (titles version) }
    ensures memory { result ≢ Err Refused.NoMemory }
{
    match version.get() {
        0 => Ok(JournalProgress::Named(Groups::none(alloc))),
        1 => Ok(JournalProgress::Long(LongPlace::Titled)),
        _ => Err(Refused::BadLine),
    }
}

/// A line of a short header after the title.
fn judge_short(alloc: Global, groups: Groups, header: Header) -> Result<JournalProgress, Refused>
    ensures { JudgedHead result (heads (Named groups) header) }
{
    match header {
        Header::Program(program) => judge_program(alloc, groups, program),
        Header::Go(start) => judge_go(alloc, groups, start),
        _ => Err(Refused::BadLine),
    }
}

fn judge_program(
    alloc: Global,
    groups: Groups,
    program: Program,
) -> Result<JournalProgress, Refused>
    ensures { JudgedHead result (adds (with_group (group_of program) groups)) }
{
    match with_program(alloc, groups, program) {
        Ok(Some(groups)) => Ok(JournalProgress::Named(groups)),
        Ok(None) => Err(Refused::BadLine),
        Err(AllocError) => Err(Refused::NoMemory),
    }
}

/// The groups with one more program, unless a configuration can't hold them.
fn with_program(
    alloc: Global,
    groups: Groups,
    program: Program,
) -> Result<Option<Groups>, AllocError>
    ensures some { IfOk result (λ more. IsSome more
        ↔ IsTrue (is_roster (with_group (group_of program) groups))) }
    ensures value { IfOk result (λ more. IfSome more (λ given.
        given ≡ with_group (group_of program) groups)) }
{
    let group = group_of(alloc, program)?;
    let mut groups = groups.into_vec();
    place(&mut groups, group)?;
    Ok(Groups::new(groups))
}

fn judge_go(alloc: Global, groups: Groups, start: Moment) -> Result<JournalProgress, Refused>
    ensures { JudgedHead result (heads (Named groups) (Go start)) }
{
    if groups.as_slice().is_empty() {
        return Err(Refused::BadLine);
    }
    match Machine::new(
        alloc,
        config_of(alloc, groups),
        Vec::new(alloc),
        &host_at(alloc, start),
    ) {
        Ok(machine) => running(alloc, machine),
        Err(AllocError) => Err(Refused::NoMemory),
    }
}

/// The place of a machine that begins.
pub(crate) fn running(alloc: Global, machine: Machine) -> Result<JournalProgress, Refused>
    ensures { (m : Model) → StandsFor machine m → JudgedHead result (Stands (Running m) []) }
{
    match Box::new(alloc, machine) {
        Ok(machine) => Ok(JournalProgress::Running(machine)),
        Err(_) => Err(Refused::NoMemory),
    }
}

/// After `go` stand inputs, and orders after a mark, which are passed over.
fn judge_input(
    alloc: Global,
    machine: &mut Machine,
    line: &[u8],
    orders: &mut Vec<Order>,
) -> Result<(), Refused>
    ensures { (m : Model) → StandsFor machine.old m
        → JudgedAs result orders.new.items (IsMachine machine.new) (Running m) line.now }
{
    match behind_mark(line) {
        Some(order) => {
            orders.clear();
            judge_noted(alloc, order)
        }
        None => match read_tick(line) {
            Some(at) => judge_tick(machine, at, orders),
            None => judge_said(alloc, machine, line, orders),
        },
    }
}

/// The line of a clock moment, of which a journal has the most.
fn judge_tick(machine: &mut Machine, at: Moment, orders: &mut Vec<Order>) -> Result<(), Refused>
    requires fits { FitsInput (Input.Tick at) }
    requires short { length (input_line (Input.Tick at)) ≤ line_limit }
    ensures { (m : Model) → StandsFor machine.old m
        → JudgedAs result orders.new.items (IsMachine machine.new) (Running m)
        (input_line (Input.Tick at)) }
{
    if !machine.accepts_tick() {
        return Err(Refused::NotAccepted);
    }
    match machine.tick_at(at, orders) {
        Ok(()) => Ok(()),
        Err(AllocError) => Err(Refused::NoMemory),
    }
}

/// What stands after the mark of an order's line, if the line begins with it.
fn behind_mark(line: &[u8]) -> Option<&[u8]>
    ensures { MatchOption result ((rest : List ℕ) → line.now ≢ codes "> " ++ rest)
        (λ order. line.now ≡ codes "> " ++ order.now) }
{
    match line {
        [b'>', b' ', order @ ..] => Some(order),
        _ => None,
    }
}

/// The order that stands after the mark was given by a daemon; the machine gives its own, and stays as it is.
#[inline(never)]
fn judge_noted(alloc: Global, order: &[u8]) -> Result<(), Refused>
    ensures { (m : Model) → JudgedNoted result m (codes "> " ++ order.now) }
{
    if order.len() > LINE_LIMIT - MARK_LENGTH {
        return Err(Refused::BadLine);
    }
    match read_order(alloc, order) {
        Ok(_) => {}
        Err(LineFault::BadLine(_)) => return Err(Refused::BadLine),
        Err(LineFault::OutOfMemory) => return Err(Refused::NoMemory),
    }
    Ok(())
}

#[tactic(auto, using(crate::proofs::FoundLines::misplaced_said))]
#[inline(never)]
fn judge_said(
    alloc: Global,
    machine: &mut Machine,
    line: &[u8],
    orders: &mut Vec<Order>,
) -> Result<(), Refused>
    requires { (rest : List ℕ) → line.now ≢ codes "> " ++ rest }
    ensures { (m : Model) → StandsFor machine.old m
        → JudgedAs result orders.new.items (IsMachine machine.new) (Running m) line.now }
{
    match read_input(alloc, line) {
        Ok(input) => {
            if !machine.accepts(&input) {
                return Err(Refused::NotAccepted);
            }
            match machine.step(alloc, input) {
                Ok(given) => {
                    *orders = given;
                    Ok(())
                }
                Err(AllocError) => Err(Refused::NoMemory),
            }
        }
        Err(LineFault::BadLine(_)) => Err(Refused::BadLine),
        Err(LineFault::OutOfMemory) => Err(Refused::NoMemory),
    }
}
