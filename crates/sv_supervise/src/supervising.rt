//! The daemon's call.
ghost use Rattle.std.specs.Prelude.{◌≡◌, List, ℕ, IsTrue};
ghost use Rattle.std.specs.Option.{ForSome};
ghost use Rattle.sv_logs.specs.Sizes.{rise};
ghost use Rattle.sv_out.specs.Faults.{Rose};
ghost use Rattle.sv_supervise.specs.MainLoop.Telling.{told};
ghost use Rattle.sv_supervise.specs.Completeness.{IsAccepted, IsComplete, NoneRose};
ghost use Rattle.sv_supervise.specs.Supervising.{ComesTo, FailsFor, RunsTo, Supervises, lines_of};
ghost use Rattle.sv_supervise.specs.Supervising.{outcome_of};

use crate::begin::{Beginning, beginning_of};
use crate::engine::Core;
use crate::journal::{HeaderFault, JournalLines};
use crate::main_loop::{End, serve};
use crate::{Outcome, arguments_of};
use std::alloc::Global;
use sv_base::{Host, Text};
use sv_core::Machine;
use sv_out::Shelf;
use sv_out::sink::Sink;
use sv_outside::World;

/// Runs the daemon: reads the words, the configuration with its includes, and the sizes of all log files that it names;
/// makes the machine; then takes the next input, steps, and hands each order to the world in order, until it ends. With
/// `--journal` it writes the header and then each input with its orders to `journal`. What became of it stands on `out`,
/// and its status is the answer: 0 where the machine halted, 2 where words or configuration are refused, 3 out of memory,
/// 4 where the world failed, 5 where it ended, 6 after 2^64 - 1 inputs, 7 where a write failed, 8 where the shelf failed,
/// and 9 at an input that isn't accepted.
pub fn supervise<W: World, S: Shelf, J: Sink, O: Sink>(
    alloc: Global,
    words: &[Text],
    host: &Host,
    shelf: &mut S,
    world: &mut W,
    journal: &mut J,
    out: &mut O,
) -> u8
    ensures supervises { ForSome (S.files shelf.old) (λ files. Supervises words.now host.now files
        (told (W.given world.old) (W.left world.old) (W.handed world.old) (J.written journal.old))
        (told (W.given world.new) (W.left world.new) (W.handed world.new) (J.written journal.new))
        (O.written out.old) (O.written out.new) (O.faults out.old) (O.faults out.new) result) }
    ensures world_failed { result ≡ 4 → Rose (W.breaks world.old) (W.breaks world.new) }
    ensures unwritten { result ≡ 7 → FailsFor (J.faults journal.old) (J.faults journal.new)
        (O.faults out.old) (O.faults out.new) }
    ensures unread { result ≡ 8 → Rose (S.faults shelf.old) (S.faults shelf.new) }
    ensures complete { NoneRose (W.breaks world.old) (W.breaks world.new)
        (S.faults shelf.old) (S.faults shelf.new) (J.faults journal.old) (J.faults journal.new)
        (O.faults out.old) (O.faults out.new) → ForSome (S.files shelf.old) (λ files.
        IsAccepted words.now host.now files
        → IsComplete words.now host.now files (W.left world.old) result) }
{
    course(alloc, words, host, shelf, world, journal).tell(alloc, out)
}

/// What becomes of the daemon.
fn course<W: World, S: Shelf, J: Sink>(
    alloc: Global,
    words: &[Text],
    host: &Host,
    shelf: &mut S,
    world: &mut W,
    journal: &mut J,
) -> Outcome
    ensures comes { ForSome (S.files shelf.old) (λ files. ComesTo words.now host.now files
        (told (W.given world.old) (W.left world.old) (W.handed world.old) (J.written journal.old))
        (told (W.given world.new) (W.left world.new) (W.handed world.new) (J.written journal.new))
        result) }
    ensures world_failed { result ≡ Outcome.WorldFailed
        → Rose (W.breaks world.old) (W.breaks world.new) }
    ensures unwritten { result ≡ Outcome.Unwritten
        → Rose (J.faults journal.old) (J.faults journal.new) }
    ensures unread { (name : List ℕ) → result ≡ Outcome.Unreadable name
        → Rose (S.faults shelf.old) (S.faults shelf.new) }
{
    let arguments = match arguments_of(alloc, words) {
        Ok(Some(arguments)) => arguments,
        Ok(None) => return Outcome::Usage,
        Err(_) => return Outcome::NoMemory,
    };
    let beginning = match beginning_of(alloc, &arguments.file, host, shelf) {
        Ok(beginning) => beginning,
        Err(outcome) => return outcome,
    };
    run(
        alloc,
        lines_of(arguments.journal),
        beginning,
        host,
        world,
        journal,
    )
}

/// Runs the daemon from what it begins with.
fn run<W: World, J: Sink>(
    alloc: Global,
    lines: JournalLines,
    beginning: Beginning,
    host: &Host,
    world: &mut W,
    journal: &mut J,
) -> Outcome
    requires { IsTrue (rise beginning.sizes.items) }
    ensures runs { RunsTo lines beginning host.now
        (told (W.given world.old) (W.left world.old) (W.handed world.old) (J.written journal.old))
        (told (W.given world.new) (W.left world.new) (W.handed world.new) (J.written journal.new))
        result }
    ensures world_failed { result ≡ Outcome.WorldFailed
        → Rose (W.breaks world.old) (W.breaks world.new) }
    ensures unwritten { result ≡ Outcome.Unwritten
        → Rose (J.faults journal.old) (J.faults journal.new) }
{
    let Beginning { loaded, sizes } = beginning;
    let included = loaded.included.as_slice();
    match lines.begin(
        alloc,
        host,
        sizes.as_slice(),
        &loaded.main,
        included,
        journal,
    ) {
        Ok(()) => {}
        Err(HeaderFault::Unwritten) => return Outcome::Unwritten,
        Err(HeaderFault::OutOfMemory) => return Outcome::NoMemory,
    }
    let Ok(machine) = Machine::new(alloc, loaded.config, sizes, host) else {
        return Outcome::NoMemory;
    };
    outcome_of(serve(alloc, Core { machine }, world, &lines, journal))
}

/// What an end of the loop is for the daemon.
fn outcome_of(end: End) -> Outcome
    ensures { result ≡ outcome_of end }
{
    match end {
        End::Halted => Outcome::Halted,
        End::NoMemory => Outcome::NoMemory,
        End::Broken => Outcome::WorldFailed,
        End::Ended => Outcome::InputEnded,
        End::Full => Outcome::Full,
        End::Unwritten => Outcome::Unwritten,
        End::Misplaced(number) => Outcome::Misplaced(number),
    }
}

fn lines_of(is_kept: bool) -> JournalLines
    ensures { result ≡ lines_of is_kept }
{
    if is_kept {
        JournalLines::Kept
    } else {
        JournalLines::Quiet
    }
}
