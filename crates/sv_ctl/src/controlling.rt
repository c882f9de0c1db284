//! The call of the program.
ghost use Rattle.std.specs.Prelude.{◌≡◌, ◌≤◌, ◌⊎◌};
ghost use Rattle.sv_out.specs.Faults.{RisesWhere, Rose};
ghost use Rattle.sv_ctl.specs.Span.{command_in};
ghost use Rattle.sv_ctl.specs.Controls.{ComesTo, Controls, Converses, Refuses};
ghost use Rattle.sv_ctl.specs.Talk.Courses.{IsLost, IsUnprinted};
ghost use Rattle.sv_ctl.specs.Serving.{IsUnreadable};

use crate::parted;
use crate::refusal::{Refusal, refusal_told};
use crate::serving::server_of;
use crate::talk::{Course, Server, run_command, say, talk};
use std::alloc::Global;
use sv_base::{Host, Text};
use sv_out::sink::Sink;
use sv_out::source::Source;
use sv_out::{Dial, Shelf};

/// Does what the words of the client ask for, those after the program's name: one command, or those of the lines of the
/// input. Answers the status:
///
/// | status | where |
/// | --- | --- |
/// | 0 | nothing of what follows |
/// | 1 | an answer was a fault that counts |
/// | 2 | the words, the file of `-c`, its configuration or the URL are refused, or a command isn't known |
/// | 3 | `status` lists a process that isn't RUNNING |
/// | 4 | `status` names a process that isn't there |
/// | 5 | the dial, the shelf or the input failed, and counted it |
/// | 6 | memory was refused |
/// | 7 | a reply can't be read, or has another status than 200 |
/// | 8 | the output failed, and counted it |
pub fn control<D: Dial, S: Shelf, R: Source, K: Sink>(
    alloc: Global,
    words: &[Text],
    host: &Host,
    shelf: &mut S,
    dial: &mut D,
    input: &mut R,
    out: &mut K,
) -> u8
    ensures controls { Controls words.now host.now (S.files shelf.old)
        (D.told dial.old) (D.told dial.new) (R.left input.old) (R.left input.new)
        (K.written out.old) (K.written out.new) result }
    ensures lost { result ≡ 5 → Rose (S.faults shelf.old) (S.faults shelf.new)
        ⊎ (Rose (D.faults dial.old) (D.faults dial.new)
        ⊎ Rose (R.faults input.old) (R.faults input.new)) }
    ensures unprinted { result ≡ 8 → Rose (K.faults out.old) (K.faults out.new) }
{
    answer(alloc, words, host, shelf, dial, input, out).number()
}

/// What the words of the client come to.
fn answer<D: Dial, S: Shelf, R: Source, K: Sink>(
    alloc: Global,
    words: &[Text],
    host: &Host,
    shelf: &mut S,
    dial: &mut D,
    input: &mut R,
    out: &mut K,
) -> Course
    ensures comes { ComesTo words.now host.now (S.files shelf.old)
        (D.told dial.old) (D.told dial.new) (R.left input.old) (R.left input.new)
        (K.written out.old) (K.written out.new) result }
    ensures lost { IsLost result → Rose (S.faults shelf.old) (S.faults shelf.new)
        ⊎ (Rose (D.faults dial.old) (D.faults dial.new)
        ⊎ Rose (R.faults input.old) (R.faults input.new)) }
    ensures unprinted { IsUnprinted result → Rose (K.faults out.old) (K.faults out.new) }
{
    let (options, command) = parted(words);
    match server_of(alloc, options, host, shelf) {
        Ok(server) => converse(alloc, &server, command, dial, input, out),
        Err(refusal) => refuse(alloc, &refusal, out),
    }
}

/// Does the command of these words, or where there are none the commands of the input's lines.
fn converse<D: Dial, R: Source, K: Sink>(
    alloc: Global,
    server: &Server,
    command: &[Text],
    dial: &mut D,
    input: &mut R,
    out: &mut K,
) -> Course
    ensures converses { Converses server.now command.now (D.told dial.old) (D.told dial.new)
        (R.left input.old) (R.left input.new) (K.written out.old) (K.written out.new) result }
    ensures lost { IsLost result → Rose (D.faults dial.old) (D.faults dial.new)
        ⊎ Rose (R.faults input.old) (R.faults input.new) }
    ensures unprinted { IsUnprinted result → Rose (K.faults out.old) (K.faults out.new) }
{
    if command.is_empty() {
        return talk(alloc, server, dial, input, out);
    }
    run_command(alloc, server, command, dial, out)
}

/// Says why there is no server to ask, in one line; the status is 2, or 5 where the shelf failed. `NoMemory` where memory was
/// refused, `Unprinted` where the output failed.
pub fn refuse<K: Sink>(alloc: Global, refusal: &Refusal, out: &mut K) -> Course
    ensures refuses { Refuses refusal.now (K.written out.old) (K.written out.new) result }
    ensures lost { IsLost result → IsUnreadable refusal.now }
    ensures unprinted { IsUnprinted result → Rose (K.faults out.old) (K.faults out.new) }
{
    match refusal_told(alloc, refusal) {
        Ok(told) => say(out, told.text.as_slice(), told.course),
        Err(_) => Course::NoMemory,
    }
}
