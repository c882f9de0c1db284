//! The calls of one command, in order, each over a connection of its own.
ghost use Rattle.std.specs.Prelude.{◌≡◌, ◌≤◌, Option, List};
ghost use Rattle.sv_ctl.specs.Ask.Asking as ask;
ghost use Rattle.sv_ctl.specs.Ask.Asking.{RisesFor};
ghost use Rattle.sv_commands.specs.Commands.{step_view, steps_view};
ghost use Rattle.sv_commands.specs.declared.status.Status.{Status};
ghost use Rattle.sv_commands.specs.declared.status.Status.TheVariants.{Done, Refused};
ghost use Rattle.sv_out.specs.declared.connection.Exchange.{Exchange};
ghost use Rattle.sv_ctl.specs.declared.talk.server.Server.{Server};
ghost use Rattle.sv_out.specs.Faults.{RisesWhere};
ghost use Rattle.sv_ctl.specs.Talk.Conversation.{Talk, asks, command_said, joined, printing};
ghost use Rattle.sv_ctl.specs.Talk.Conversation.{steps_said, stops, unknown_line};
ghost use Rattle.sv_ctl.specs.Talk.Answers.{told_of};
ghost use Rattle.sv_ctl.specs.Talk.Courses.{IsLost, IsUnprinted};
ghost use Rattle.sv_ctl.specs.Talk.Doings.{Comes, Shows};

use crate::ask::{AskFault, ask_server};
use crate::talk::course::Course;
use crate::talk::printing::{say, say_unknown};
use crate::talk::server::Server;
use crate::talk::told::told_of;
use crate::talk::words::joined;
use std::alloc::Global;
use sv_base::Text;
use sv_commands::{Line, Status, Step, steps_of};
use sv_out::Dial;
use sv_out::sink::Sink;
use sv_xmlcall::Answered;

/// Does a command: makes its calls, and prints what is said of each answer, or that the words are no command.
#[tactic(auto, using(crate::proofs::TalkLemmas::Calls::command_steps, crate::proofs::TalkLemmas::Calls::command_unknown, crate::proofs::TalkLemmas::Doings::nothing_printed))]
pub fn run_command<D: Dial, K: Sink>(
    alloc: Global,
    server: &Server,
    words: &[Text],
    dial: &mut D,
    out: &mut K,
) -> Course
    ensures comes { Comes server.now (D.told dial.old) (D.told dial.new) (K.written out.old)
        (K.written out.new)
        (command_said server.now.client.url words.now) stops result }
    ensures dial_cause { RisesFor (D.faults dial.old) (D.faults dial.new) (IsLost result) }
    ensures out_cause { RisesWhere (K.faults out.old) (K.faults out.new) (IsUnprinted result) }
{
    match steps_of(alloc, words) {
        Ok(Some(steps)) => run_steps(alloc, server, steps.as_slice(), dial, out),
        Ok(None) => refuse_words(alloc, words, out),
        Err(_) => Course::NoMemory,
    }
}

/// Says that words are no command.
#[tactic(auto, using(crate::proofs::TalkLemmas::Doings::nothing_printed))]
fn refuse_words<K: Sink>(alloc: Global, words: &[Text], out: &mut K) -> Course
    ensures comes { (server : Server) (told : Option (List Exchange))
        → Comes server told told (K.written out.old) (K.written out.new)
        (printing (unknown_line (joined words.now)) (stops Refused)) stops result }
    ensures lost { IsLost result → ⊥ }
    ensures out_cause { RisesWhere (K.faults out.old) (K.faults out.new) (IsUnprinted result) }
{
    match joined(alloc, words) {
        Ok(text) => say_unknown(alloc, text.as_slice(), out),
        Err(_) => Course::NoMemory,
    }
}

/// Makes the calls of a command.
#[tactic(auto, using(crate::proofs::TalkLemmas::Calls::steps_come, crate::proofs::TalkLemmas::Calls::went_on, crate::proofs::TalkLemmas::Calls::comes_off, crate::proofs::TalkLemmas::Doings::nothing_done))]
fn run_steps<D: Dial, K: Sink>(
    alloc: Global,
    server: &Server,
    steps: &[Step],
    dial: &mut D,
    out: &mut K,
) -> Course
    ensures comes { Comes server.now (D.told dial.old) (D.told dial.new) (K.written out.old)
        (K.written out.new)
        (steps_said server.now.client.url (steps_view steps.now) Done) stops result }
    ensures dial_cause { RisesFor (D.faults dial.old) (D.faults dial.new) (IsLost result) }
    ensures out_cause { RisesWhere (K.faults out.old) (K.faults out.new) (IsUnprinted result) }
{
    let mut status = Status::Done;
    let mut left = steps;
    while let [step, rest @ ..] = left {
        match run_step(alloc, server, step, status, dial, out) {
            Course::On(so_far) => status = so_far,
            course => return course,
        }
        left = rest;
    }
    Course::On(status)
}

/// Makes one call, and prints what is said of its answer.
#[tactic(auto, using(crate::proofs::TalkLemmas::Calls::stepped))]
fn run_step<D: Dial, K: Sink>(
    alloc: Global,
    server: &Server,
    step: &Step,
    status: Status,
    dial: &mut D,
    out: &mut K,
) -> Course
    ensures comes { (next : Status → Talk) → Comes server.now (D.told dial.old) (D.told dial.new)
        (K.written out.old) (K.written out.new)
        (asks (step_view step.now).call
        (told_of server.now.client.url step.now.line status) next) next result }
    ensures dial_cause { RisesFor (D.faults dial.old) (D.faults dial.new) (IsLost result) }
    ensures out_cause { RisesWhere (K.faults out.old) (K.faults out.new) (IsUnprinted result) }
{
    let answer = ask_server(alloc, dial, &server.place, &server.client, &step.call);
    show(
        alloc,
        server.client.url.as_str(),
        &step.line,
        status,
        &answer,
        out,
    )
}

/// Prints what is said of an answer.
#[tactic(auto, using(crate::proofs::TalkLemmas::Calls::shows, crate::proofs::TalkLemmas::Calls::shows_nothing))]
fn show<K: Sink>(
    alloc: Global,
    url: &str,
    line: &Line,
    status: Status,
    answer: &Result<Answered, AskFault>,
    out: &mut K,
) -> Course
    ensures shows { Shows answer.now (K.written out.old) (K.written out.new)
        (told_of url.now line.now status) result }
    ensures lost { IsLost result → ask.IsLost answer.now }
    ensures out_cause { RisesWhere (K.faults out.old) (K.faults out.new) (IsUnprinted result) }
{
    match told_of(alloc, url, line, status, answer) {
        Ok(told) => say(out, told.text.as_slice(), told.course),
        Err(_) => Course::NoMemory,
    }
}
