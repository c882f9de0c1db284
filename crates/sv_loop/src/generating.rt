//! The words `gen N`: a generated run of the machine, of which one line is written.
ghost use Rattle.std.specs.Prelude.{◌≡◌, ◌≢◌, ◌≤◌, ◌↔◌, ℕ, IsTrue, IfOk, IfSome, None, [], codes};
ghost use Rattle.std.specs.Prelude.{string_bytes};
ghost use Rattle.std.specs.Fmt.{decimal};
ghost use Rattle.sv_generated.specs.Taken.{Begins};
ghost use Rattle.sv_loop.specs.Generating.{AreGen, IsNumber, generated_line, program_of, programs};
ghost use Rattle.sv_loop.specs.Generating.{run_begins};
ghost use Rattle.sv_loop.specs.Telling.{TellsLine};
ghost use Rattle.sv_loop.specs.WholeJournal.{groups_of};
ghost use Rattle.sv_loop.specs.declared.replaying.Status.{Status};
ghost use Rattle.sv_out.specs.Faults.{Rose};

use crate::replaying::{Status, tell};
use crate::run_line::line_of_run;
use std::alloc::{AllocError, Global};
use sv_base::groups::Groups;
use sv_base::items::Items;
use sv_base::moment::Moment;
use sv_base::number::{Retries, Seconds};
use sv_base::signal::Signal;
use sv_base::spec::GroupSpec;
use sv_base::state::Autorestart;
use sv_base::text::Text;
use sv_core::machine::Machine;
use sv_generated::program_name;
use sv_journal::code_list::ExitCodes;
use sv_journal::header::Program;
use sv_journal::program_name::ProgramName;
use sv_judge::{config_of, group_of, host_at};
use sv_out::sink::Sink;
use sv_ranks::place;

/// How many programs the run has.
const PROGRAMS: u32 = 200;

/// The most inputs of a run.
const MOST_INPUTS: u64 = 1_000_000;

/// The number of the words `gen N`, or `None` exactly where the words are others.
pub(crate) fn number_in(words: &[Text]) -> Option<u64>
    ensures some { IfSome result (λ number. AreGen words.now number) }
    ensures none { result ≡ None → (number : ℕ) → AreGen words.now number → ⊥ }
{
    match words {
        [verb, word] if is_gen(verb) => number_of(word),
        _ => None,
    }
}

fn is_gen(verb: &Text) -> bool
    ensures { IsTrue result ↔ (verb.now ≡ codes "gen") }
{
    verb.as_str() == "gen"
}

#[tactic(auto, using(crate::proofs::Programs::parsed))]
fn number_of(word: &Text) -> Option<u64>
    ensures some { IfSome result (λ number. IsNumber word.now number) }
    ensures none { result ≡ None → (number : ℕ) → IsNumber word.now number → ⊥ }
{
    let Ok(number) = word.as_str().parse::<u64>() else {
        return None;
    };
    if is_number(word, number) {
        Some(number)
    } else {
        None
    }
}

fn is_number(word: &Text, number: u64) -> bool
    ensures { IsTrue result ↔ IsNumber word.now number }
{
    1 <= number && number <= MOST_INPUTS && is_spelled(word, number)
}

fn is_spelled(word: &Text, number: u64) -> bool
    ensures { IsTrue result ↔ (word.now ≡ decimal number) }
{
    let mut digits = itoa::Buffer::new();
    word.as_str() == digits.format(number)
}

/// The program of a number.
#[tactic(auto, using(crate::proofs::ProgramNames::named))]
fn program(alloc: Global, number: u32) -> Result<Program, AllocError>
    ensures { IfOk result (λ program. program ≡ program_of number) }
{
    let mut exitcodes = Items::new(alloc);
    exitcodes.push(0)?;
    Ok(Program {
        name: ProgramName::new(program_name(alloc, number)?).unwrap(),
        startsecs: Seconds::new(1).unwrap(),
        startretries: Retries::new(3).unwrap(),
        autorestart: Autorestart::Always,
        exitcodes: ExitCodes::new(exitcodes).unwrap(),
        stopsignal: Signal::Term,
        stopwaitsecs: Seconds::new(10).unwrap(),
    })
}

/// The groups of the run's programs.
fn groups(alloc: Global) -> Result<Vec<GroupSpec>, AllocError>
    ensures { IfOk result (λ groups. groups.items ≡ groups_of [] programs) }
{
    let mut groups = Vec::new(alloc);
    for number in 0..PROGRAMS {
        let group = group_of(alloc, program(alloc, number)?)?;
        place(&mut groups, group)?;
    }
    Ok(groups)
}

/// The machine with which the run begins.
#[tactic(auto, using(crate::proofs::Programs::are_whole, crate::proofs::Programs::are_few))]
fn machine(alloc: Global) -> Result<Machine, AllocError>
    ensures { IfOk result (λ machine. Begins machine run_begins) }
{
    let groups = Groups::new(groups(alloc)?).unwrap();
    Machine::new(
        alloc,
        config_of(alloc, groups),
        Vec::new(alloc),
        &host_at(alloc, Moment::zero()),
    )
}

/// The line of the run of so many inputs.
fn line(alloc: Global, number: u64) -> Result<String, AllocError>
    requires { number ≤ 1000000 }
    ensures { IfOk result (λ line. string_bytes line ≡ generated_line number) }
{
    let machine = machine(alloc)?;
    let line = line_of_run(alloc, machine, number)?;
    Ok(line)
}

/// Goes through the run of so many inputs and tells its line.
pub(crate) fn generate<K: Sink>(alloc: Global, number: u64, sink: &mut K) -> Status
    requires { number ≤ 1000000 }
    ensures tells { TellsLine (generated_line number) Status.Done (K.written sink.old)
        (K.written sink.new) result }
    ensures later { K.faults sink.old ≤ K.faults sink.new }
    ensures failed { result ≡ Status.SinkFailed → Rose (K.faults sink.old) (K.faults sink.new) }
{
    match line(alloc, number) {
        Ok(line) => tell(line.as_str().as_bytes(), Status::Done, sink),
        Err(AllocError) => Status::NoMemory,
    }
}
