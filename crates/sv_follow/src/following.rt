//! The polls of a log that is followed, one a second.
ghost use Rattle.std.specs.Prelude.{◌≡◌, ◌≤◌};
ghost use Rattle.sv_ctl.specs.Ask.Asking.{RisesFor};
ghost use Rattle.sv_ctl.specs.Ask.Asking as ask;
ghost use Rattle.sv_follow.specs.Following.{Follows, follow_said, poll_said};
ghost use Rattle.sv_follow.specs.Rests.{Rests, rest_of};
ghost use Rattle.sv_follow.specs.Shows.{ShowsPoll};
ghost use Rattle.sv_follow.specs.declared.follower.Follower.{Follower};
ghost use Rattle.sv_out.specs.Faults.{RisesWhere, Rose};
ghost use Rattle.sv_outside.specs.Told.{GrowsWhileTold};
ghost use Rattle.sv_ctl.specs.Talk.Conversation.{Talk, stops};
ghost use Rattle.sv_ctl.specs.Talk.Courses.{IsLost, IsUnprinted};
ghost use Rattle.sv_ctl.specs.Talk.Doings.{Comes};

use crate::follower::Follower;
use crate::heard::poll_told;
use crate::tails::tail_call;
use std::alloc::Global;
use sv_base::Stream;
use sv_commands::Status;
use sv_ctl::ask::{AskFault, ask_server};
use sv_ctl::talk::{Course, Server, say};
use sv_out::Dial;
use sv_out::sink::Sink;
use sv_outside::Clock;
use sv_xmlcall::Answered;

/// How long it waits after a poll, in milliseconds.
const PAUSE: u32 = 1_000;

/// Follows the log of a process over so many polls: prints its last 1,600 bytes, and then what is appended. After each poll it
/// waits a second, but not where the log was found rotated. Answers the status:
///
/// | status | where |
/// | --- | --- |
/// | 0 | all polls were made |
/// | 1 | an answer was a fault |
/// | 5 | the dial or a link failed, and the dial counted it |
/// | 6 | memory was refused |
/// | 7 | a reply can't be read, or has another status than 200 |
/// | 8 | the output failed, and counted it |
pub fn follow<D: Dial, C: Clock, K: Sink>(
    alloc: Global,
    server: &Server,
    name: &str,
    stream: Stream,
    polls: u32,
    dial: &mut D,
    clock: &mut C,
    out: &mut K,
) -> u8
    ensures follows { Follows server.now (D.told dial.old) (D.told dial.new)
        (K.written out.old) (K.written out.new) name.now stream polls result }
    ensures rests { Rests (C.paused clock.old) (C.paused clock.new) polls }
    ensures lost { result ≡ 5 → Rose (D.faults dial.old) (D.faults dial.new) }
    ensures unprinted { result ≡ 8 → Rose (K.faults out.old) (K.faults out.new) }
{
    watch(alloc, server, name, stream, polls, dial, clock, out).number()
}

/// What the following of a log comes to.
#[tactic(auto, using(crate::proofs::Watching::polls_on, crate::proofs::Watching::polls_off, crate::proofs::Watching::polls_over, crate::proofs::Resting::rests_never, crate::proofs::Resting::rests_on, crate::proofs::Resting::rests_over, sv_ctl::proofs::TalkLemmas::Doings::nothing_done))]
pub(crate) fn watch<D: Dial, C: Clock, K: Sink>(
    alloc: Global,
    server: &Server,
    name: &str,
    stream: Stream,
    polls: u32,
    dial: &mut D,
    clock: &mut C,
    out: &mut K,
) -> Course
    ensures comes { Comes server.now (D.told dial.old) (D.told dial.new)
        (K.written out.old) (K.written out.new)
        (follow_said server.now.client.url name.now stream polls) stops result }
    ensures rests { Rests (C.paused clock.old) (C.paused clock.new) polls }
    ensures dial_cause { RisesFor (D.faults dial.old) (D.faults dial.new) (IsLost result) }
    ensures out_cause { RisesWhere (K.faults out.old) (K.faults out.new) (IsUnprinted result) }
{
    let mut follower = Follower::new();
    let mut left = polls;
    'polls: while 0 < left {
        match poll(alloc, server, name, stream, &mut follower, dial, out) {
            Course::On(_) => {}
            course => return course,
        }
        rest(&follower, clock);
        left -= 1;
    }
    Course::On(Status::Done)
}

/// Waits before the next poll, but not where the log was found rotated.
#[tactic(auto, using(crate::proofs::Resting::a_rest, crate::proofs::Resting::no_rest))]
fn rest<C: Clock>(follower: &Follower, clock: &mut C)
    ensures { GrowsWhileTold (C.paused clock.old) (C.paused clock.new) (rest_of follower.now) }
{
    if follower.is_anew() {
        return;
    }
    clock.pause(PAUSE);
}

/// Makes one poll, and prints what it shows.
#[tactic(auto, using(crate::proofs::Watching::polled))]
fn poll<D: Dial, K: Sink>(
    alloc: Global,
    server: &Server,
    name: &str,
    stream: Stream,
    follower: &mut Follower,
    dial: &mut D,
    out: &mut K,
) -> Course
    ensures comes { (next : Follower → Talk) → Comes server.now (D.told dial.old) (D.told dial.new)
        (K.written out.old) (K.written out.new)
        (poll_said server.now.client.url name.now stream follower.old next)
        (λ _. next follower.new) result }
    ensures dial_cause { RisesFor (D.faults dial.old) (D.faults dial.new) (IsLost result) }
    ensures out_cause { RisesWhere (K.faults out.old) (K.faults out.new) (IsUnprinted result) }
{
    let Ok(call) = tail_call(alloc, name, stream, follower) else {
        return Course::NoMemory;
    };
    let answer = ask_server(alloc, dial, &server.place, &server.client, &call);
    show(
        alloc,
        server.client.url.as_str(),
        name,
        follower,
        &answer,
        out,
    )
}

/// Prints what the answer to a poll shows.
#[tactic(auto, using(crate::proofs::Watching::shows, crate::proofs::Watching::shows_nothing))]
fn show<K: Sink>(
    alloc: Global,
    url: &str,
    name: &str,
    follower: &mut Follower,
    answer: &Result<Answered, AskFault>,
    out: &mut K,
) -> Course
    ensures shows { ShowsPoll answer.now (K.written out.old) (K.written out.new) url.now name.now
        follower.old follower.new result }
    ensures lost { IsLost result → ask.IsLost answer.now }
    ensures out_cause { RisesWhere (K.faults out.old) (K.faults out.new) (IsUnprinted result) }
{
    match poll_told(alloc, url, name, follower, answer) {
        Ok(told) => say(out, told.text.as_slice(), told.course),
        Err(_) => Course::NoMemory,
    }
}
