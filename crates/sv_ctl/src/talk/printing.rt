//! What is printed.
ghost use Rattle.std.specs.Prelude.{◌≡◌, ◌≤◌, Option, List, IfOk};
ghost use Rattle.sv_commands.specs.declared.status.Status.{Status};
ghost use Rattle.sv_out.specs.Faults.{RisesWhere};
ghost use Rattle.sv_out.specs.declared.connection.Exchange.{Exchange};
ghost use Rattle.sv_ctl.specs.Talk.Conversation.{Talk, goes_on, printing, unknown_line};
ghost use Rattle.sv_ctl.specs.Talk.Courses.{IsLost, IsSayable, IsUnprinted};
ghost use Rattle.sv_ctl.specs.Talk.Doings.{Comes, Prints, Says};
ghost use Rattle.sv_commands.specs.declared.status.Status.TheVariants.{Refused};
ghost use Rattle.sv_ctl.specs.declared.talk.course.Course.TheVariants.{On};
ghost use Rattle.sv_ctl.specs.declared.talk.server.Server.{Server};

use crate::talk::course::Course;
use std::alloc::{AllocError, Global};
use sv_commands::Status;
use sv_out::sink::{Sink, write_all};

/// Prints a text; it then goes on by this course.
#[tactic(auto, using(crate::proofs::TalkLemmas::Calls::says, crate::proofs::TalkLemmas::Calls::says_front))]
pub fn say<K: Sink>(out: &mut K, text: &[u8], course: Course) -> Course
    requires { IsSayable course }
    ensures prints { Prints (K.written out.old) (K.written out.new) text.now course result }
    ensures says { Says (K.written out.old) (K.written out.new) text.now course result }
    ensures lost { IsLost result → IsLost course }
    ensures cause { RisesWhere (K.faults out.old) (K.faults out.new) (IsUnprinted result) }
{
    match write_all(out, text) {
        Ok(()) => course,
        Err(_) => Course::Unprinted,
    }
}

/// Says that a line is no command.
#[tactic(auto, using(crate::proofs::TalkLemmas::Calls::says_nothing))]
pub(crate) fn say_unknown<K: Sink>(alloc: Global, words: &[u8], out: &mut K) -> Course
    ensures prints { Prints (K.written out.old) (K.written out.new) (unknown_line words.now)
        (On Refused) result }
    ensures lost { IsLost result → ⊥ }
    ensures cause { RisesWhere (K.faults out.old) (K.faults out.new) (IsUnprinted result) }
{
    match unknown_line(alloc, words) {
        Ok(line) => say(out, line.as_slice(), Course::On(Status::Refused)),
        Err(_) => Course::NoMemory,
    }
}

/// The line of words that are no command.
fn unknown_line(alloc: Global, words: &[u8]) -> Result<Vec<u8>, AllocError>
    ensures { IfOk result (λ line. line.items ≡ unknown_line words.now) }
{
    let mut line = Vec::from_slice(alloc, b"*** Unknown syntax: ")?;
    line.extend_from_slice(words)?;
    line.push(b'\n')?;
    Ok(line)
}
