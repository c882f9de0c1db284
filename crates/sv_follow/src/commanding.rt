//! The call of the program.
ghost use Rattle.std.specs.Prelude.{◌≡◌, ◌⊎◌};
ghost use Rattle.sv_follow.specs.Commands.{Commands, ComesFrom};
ghost use Rattle.sv_out.specs.Faults.{Rose};
ghost use Rattle.sv_ctl.specs.Talk.Courses.{IsLost, IsUnprinted};

use crate::following::watch;
use crate::log_words::log_in;
use std::alloc::Global;
use sv_base::{Host, Stream, Text};
use sv_ctl::talk::Course;
use sv_ctl::{control, parted, refuse, server_of};
use sv_out::sink::Sink;
use sv_out::source::Source;
use sv_out::{Dial, Shelf};
use sv_outside::Clock;

/// How often a log is polled: for 136 years and more.
const POLLS: u32 = 4_294_967_295;

/// Does what the words of the client ask for, those after the program's name. `tail -f NAME`, after which `stdout` or `stderr` may
/// stand, follows that log, with the statuses of `follow`, and 2 where the options, the file of `-c`, its configuration or the
/// URL are refused; the input isn't read then. All others are done by `control`, with its statuses.
pub fn command<D: Dial, S: Shelf, R: Source, C: Clock, K: Sink>(
    alloc: Global,
    words: &[Text],
    host: &Host,
    shelf: &mut S,
    dial: &mut D,
    input: &mut R,
    clock: &mut C,
    out: &mut K,
) -> u8
    ensures commands { Commands words.now host.now (S.files shelf.old)
        (D.told dial.old) (D.told dial.new) (R.left input.old) (R.left input.new)
        (K.written out.old) (K.written out.new) result }
    ensures lost { result ≡ 5 → Rose (S.faults shelf.old) (S.faults shelf.new)
        ⊎ (Rose (D.faults dial.old) (D.faults dial.new)
        ⊎ Rose (R.faults input.old) (R.faults input.new)) }
    ensures unprinted { result ≡ 8 → Rose (K.faults out.old) (K.faults out.new) }
{
    let (options, command) = parted(words);
    match log_in(command) {
        Some((name, stream)) => {
            follow_from(alloc, options, name, stream, host, shelf, dial, clock, out).number()
        }
        None => control(alloc, words, host, shelf, dial, input, out),
    }
}

/// Follows a log of the server that the words of the options name.
fn follow_from<D: Dial, S: Shelf, C: Clock, K: Sink>(
    alloc: Global,
    options: &[Text],
    name: &str,
    stream: Stream,
    host: &Host,
    shelf: &mut S,
    dial: &mut D,
    clock: &mut C,
    out: &mut K,
) -> Course
    ensures comes { ComesFrom options.now host.now (S.files shelf.old) name.now stream
        (D.told dial.old) (D.told dial.new) (K.written out.old) (K.written out.new) result }
    ensures lost { IsLost result → Rose (S.faults shelf.old) (S.faults shelf.new)
        ⊎ Rose (D.faults dial.old) (D.faults dial.new) }
    ensures unprinted { IsUnprinted result → Rose (K.faults out.old) (K.faults out.new) }
{
    match server_of(alloc, options, host, shelf) {
        Ok(server) => watch(alloc, &server, name, stream, POLLS, dial, clock, out),
        Err(refusal) => refuse(alloc, &refusal, out),
    }
}
