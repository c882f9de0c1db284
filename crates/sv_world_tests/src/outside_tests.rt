//! The forms in memory, worked by hand.

use crate::checks::check;
use std::alloc::Global;
use std::collections::VecDeque;
use std::process::Abort;
use std::sync::Wait;
use sv_base::{How, Items, Moment, Pid, Place, Run, Signal, Stream, Text};
use sv_out::failed::Failed;
use sv_out::order::SpawnOrder;
use sv_out::sink::{ListSink, Sink};
use sv_out::source::{ListSource, Source};
use sv_out::{Link, Script, ScriptLink};
use sv_outside::{
    Asked, Clock, FixedClock, Gate, HoldGate, Job, JobWord, KillFault, Listen, Program, PumpEnd,
    Refusal, ScriptListen, ScriptSpawner, ScriptWaiter, SpawnFault, Spawner, Started, Waiter,
};

fn calls_of(rt: &impl Abort, alloc: Global, numbers: &[u64]) -> Vec<u64> {
    Vec::from_slice(alloc, numbers).expect(rt, "ample memory")
}

fn moment(rt: &impl Abort, milliseconds: u64) -> Moment {
    Moment::new(milliseconds).expect(rt, "a moment")
}

/// The moment 7.
fn later_of(rt: &impl Abort, alloc: Global) -> VecDeque<Moment> {
    let mut later = VecDeque::new(alloc);
    later.push_back(moment(rt, 7)).expect(rt, "ample memory");
    later
}

/// A clock that gives 5 and then 7, with room for two pauses.
fn clock_of(rt: &impl Abort, alloc: Global) -> FixedClock {
    FixedClock::new(alloc, moment(rt, 5), later_of(rt, alloc), 2).expect(rt, "ample memory")
}

/// The clock gives 5, and then 7.
fn gives_moments(rt: &impl Abort, clock: &mut FixedClock) {
    for milliseconds in &[5, 7, 7] {
        check(rt, clock.now().milliseconds() == *milliseconds);
    }
}

/// The clock tells of two pauses, and of none any more after a third one.
fn tells_pauses(rt: &impl Abort, clock: &mut FixedClock) {
    clock.pause(1_000);
    clock.pause(20);
    check(
        rt,
        clock.pauses().expect(rt, "all told") == [1_000, 20].as_slice(),
    );
    clock.pause(3);
    check(rt, clock.pauses().is_none());
}

#[test]
fn a_clock_gives_its_moments_and_then_the_last(rt: HostRuntime) {
    let mut clock = clock_of(&rt, rt.alloc());
    gives_moments(&rt, &mut clock);
    tells_pauses(&rt, &mut clock);
}

/// The waiter fails at its second call, and else tells how its program ended.
fn fails_once(rt: &impl Abort, waiter: &mut ScriptWaiter) {
    let end = Some(How::Code(3));
    for (how, faults) in &[(end, 0), (None, 1), (end, 1)] {
        check(rt, waiter.wait().ok() == *how && waiter.faults() == *faults);
    }
}

#[test]
fn a_waiter_fails_at_its_calls(rt: HostRuntime) {
    let mut waiter = ScriptWaiter::new(How::Code(3), calls_of(&rt, rt.alloc(), &[2]));
    fails_once(&rt, &mut waiter);
}

/// A script that gives this text.
fn script_of(rt: &impl Abort, alloc: Global, text: &str) -> Script {
    let bytes = Vec::from_slice(alloc, text.as_bytes()).expect(rt, "ample memory");
    Script::new(bytes, 9, Vec::new(alloc))
}

/// A link that gives this text.
fn link_of(rt: &impl Abort, alloc: Global, text: &str) -> ScriptLink {
    ScriptLink::new(
        alloc,
        Place::Unix(Text::fixed("/s")),
        script_of(rt, alloc, text),
    )
}

/// Adds a link that gives this text.
fn add_link(rt: &impl Abort, alloc: Global, links: &mut VecDeque<ScriptLink>, text: &str) {
    links
        .push_back(link_of(rt, alloc, text))
        .expect(rt, "ample memory");
}

/// A link of `a` and one of `b`.
fn links_of(rt: &impl Abort, alloc: Global) -> VecDeque<ScriptLink> {
    let mut links = VecDeque::new(alloc);
    add_link(rt, alloc, &mut links, "a");
    add_link(rt, alloc, &mut links, "b");
    links
}

/// What gives a link of `a` and one of `b`, and fails at its second call.
fn listen_of(rt: &impl Abort, alloc: Global) -> ScriptListen {
    ScriptListen::new(links_of(rt, alloc), calls_of(rt, alloc, &[2]))
}

/// The one byte that a link gives at first.
fn first_byte(rt: &impl Abort, link: &mut ScriptLink) -> u8 {
    let mut buffer = [0u8; 9];
    check(rt, matches!(link.read(&mut buffer), Ok(1)));
    buffer[0]
}

/// The one byte that an accepted link gives at first; none where there is no link.
fn byte_of(rt: &impl Abort, accepted: &mut Result<ScriptLink, Failed>) -> Option<u8> {
    match accepted {
        Ok(link) => Some(first_byte(rt, link)),
        Err(_) => None,
    }
}

/// The next links give `a` and `b`, with a failure between them and one behind them.
fn gives_links(rt: &impl Abort, listen: &mut ScriptListen) {
    for byte in &[Some(b'a'), None, Some(b'b'), None] {
        check(rt, byte_of(rt, &mut listen.accept()) == *byte);
    }
    check(rt, listen.given() == 2 && listen.faults() == 2);
}

#[test]
fn links_come_in_turn(rt: HostRuntime) {
    let mut listen = listen_of(&rt, rt.alloc());
    gives_links(&rt, &mut listen);
}

/// A job that is about this word and does nothing.
#[derive(Drop)]
pub(crate) struct Idle {
    pub(crate) word: JobWord,
}

impl Job for Idle {
    ghost use Rattle.std.specs.Prelude.{◌≡◌};
    ghost use Rattle.sv_outside.specs.declared.jobs.PumpEnd.TheVariants.{Ended};

    ghost names = { λ j. j.word };

    ghost does = { λ j end k. end ≡ Ended };

    fn word(&self) -> JobWord {
        self.word
    }

    fn work<R: Wait>(&mut self, _rt: &R) -> PumpEnd {
        PumpEnd::Ended
    }
}

/// A gate with room for two jobs, which fails at its second call.
fn gate_of(rt: &impl Abort, alloc: Global) -> HoldGate<Idle> {
    HoldGate::new(alloc, 2, calls_of(rt, alloc, &[2])).expect(rt, "ample memory")
}

/// Whether the gate keeps a job about this word.
fn keeps(gate: &mut HoldGate<Idle>, word: JobWord) -> bool {
    gate.start(Idle { word }).is_ok()
}

/// Whether a job about the console came back, and ends.
pub(crate) fn came_back<R: Wait>(rt: &R, answer: &mut Result<(), Idle>) -> bool {
    match answer {
        Ok(()) => false,
        Err(back) => back.word() == JobWord::Console && back.work(rt) == PumpEnd::Ended,
    }
}

/// The gate gives a job back as it was.
fn gives_back<R: Abort + Wait>(rt: &R, gate: &mut HoldGate<Idle>) {
    let word = JobWord::Console;
    let mut answer = gate.start(Idle { word });
    check(rt, came_back(rt, &mut answer));
}

/// The gate keeps two jobs, and gives one back between them and one behind them.
fn keeps_two<R: Abort + Wait>(rt: &R, gate: &mut HoldGate<Idle>) {
    check(rt, keeps(gate, JobWord::Ticker));
    gives_back(rt, gate);
    check(rt, keeps(gate, JobWord::Watch(Run(4))));
    check(rt, !keeps(gate, JobWord::Pump(Run(4), Stream::Err)));
    check(rt, gate.faults() == 2 && gate.jobs().len() == 2);
}

/// Whether these are the two jobs that the gate keeps.
fn are_kept(jobs: &[Idle]) -> bool {
    match jobs {
        [first, second] => {
            first.word() == JobWord::Ticker && second.word() == JobWord::Watch(Run(4))
        }
        _ => false,
    }
}

#[test]
fn a_gate_holds_jobs_while_it_has_room(rt: HostRuntime) {
    let mut gate = gate_of(&rt, rt.alloc());
    keeps_two(&rt, &mut gate);
    let jobs = gate.into_jobs();
    check(&rt, are_kept(jobs.as_slice()));
}

fn order(alloc: Global, run: u32) -> SpawnOrder {
    SpawnOrder {
        run: Run(run),
        group: Text::fixed("web"),
        name: Text::fixed("one"),
        directory: Text::fixed(""),
        umask: Text::fixed("022"),
        user: Text::fixed(""),
        words: Items::new(alloc),
        environment: Items::new(alloc),
    }
}

/// A program that ends with the code 9.
fn program_of(alloc: Global) -> Program {
    Program {
        waiter: ScriptWaiter::new(How::Code(9), Vec::new(alloc)),
        ..Program::silent(alloc)
    }
}

/// One program, which ends with the code 9.
fn programs_of(rt: &impl Abort, alloc: Global) -> VecDeque<Program> {
    let mut programs = VecDeque::new(alloc);
    programs
        .push_back(program_of(alloc))
        .expect(rt, "ample memory");
    programs
}

/// One refusal, for a reason.
fn refusals_of(rt: &impl Abort, alloc: Global) -> VecDeque<Refusal> {
    let mut refusals = VecDeque::new(alloc);
    refusals
        .push_back(Refusal::Refused(Text::fixed("no")))
        .expect(rt, "ample memory");
    refusals
}

/// A spawner that fails at its second, fourth and fifth call.
fn spawner_of(rt: &impl Abort, alloc: Global) -> ScriptSpawner {
    ScriptSpawner::new(
        alloc,
        programs_of(rt, alloc),
        refusals_of(rt, alloc),
        calls_of(rt, alloc, &[2, 4, 5]),
    )
}

/// What came of an order for a program: a process and how it ended, or why it was refused.
#[derive(Clone, Copy, PartialEq, Eq)]
enum Outcome {
    Process(u32, How),
    Reason,
    NoFile,
    Other,
}

/// A program that was started.
type Running = Started<ListSink, ListSource, ListSource, ScriptWaiter>;

/// A program takes its input, writes nothing, and ends.
fn ended(rt: &impl Abort, program: &mut Running) -> Outcome {
    let mut buffer = [0u8; 4];
    check(rt, matches!(program.stdin.write(b"in"), Ok(2)));
    check(rt, matches!(program.stdout.read(&mut buffer), Ok(0)));
    match program.waiter.wait() {
        Ok(how) => Outcome::Process(program.pid.get(), how),
        Err(_) => Outcome::Other,
    }
}

/// The answer to an order for a program.
fn answer(alloc: Global, spawner: &mut ScriptSpawner, run: u32) -> Result<Running, SpawnFault> {
    spawner.spawn(alloc, &order(alloc, run))
}

/// What comes of this answer.
fn came_of(rt: &impl Abort, answer: &mut Result<Running, SpawnFault>) -> Outcome {
    match answer {
        Ok(program) => ended(rt, program),
        Err(SpawnFault::Refused(Refusal::Refused(_))) => Outcome::Reason,
        Err(SpawnFault::Refused(Refusal::NoFile)) => Outcome::NoFile,
        Err(_) => Outcome::Other,
    }
}

/// What comes of an order for a program.
fn came(rt: &impl Abort, alloc: Global, spawner: &mut ScriptSpawner, run: u32) -> Outcome {
    came_of(rt, &mut answer(alloc, spawner, run))
}

/// A signal to the first process is sent, and another one isn't.
fn one_signal_is_sent(rt: &impl Abort, alloc: Global, spawner: &mut ScriptSpawner) {
    let term = spawner.kill(alloc, Pid::least(), Signal::Term, true);
    check(rt, term.is_ok());
    let kill = spawner.kill(alloc, Pid::least(), Signal::Kill, false);
    check(rt, matches!(kill, Err(KillFault::Failed)));
}

/// Whether this is what the spawner was asked for.
fn are_asked(asked: &[Asked]) -> bool {
    match asked {
        [first, second, term, kill, third, fourth] => {
            is_spawn(first, 1, Some(1))
                && is_spawn(second, 2, None)
                && is_kill(term, Signal::Term, true, true)
                && is_kill(kill, Signal::Kill, false, false)
                && is_spawn(third, 3, None)
                && is_spawn(fourth, 4, Some(2))
        }
        _ => false,
    }
}

/// What comes of four orders and two signals.
fn orders_come(rt: &impl Abort, alloc: Global, spawner: &mut ScriptSpawner) {
    check(
        rt,
        came(rt, alloc, spawner, 1) == Outcome::Process(1, How::Code(9)),
    );
    check(rt, came(rt, alloc, spawner, 2) == Outcome::Reason);
    one_signal_is_sent(rt, alloc, spawner);
    check(rt, came(rt, alloc, spawner, 3) == Outcome::NoFile);
    check(
        rt,
        came(rt, alloc, spawner, 4) == Outcome::Process(2, How::Code(0)),
    );
    check(rt, spawner.faults() == 3 && are_asked(spawner.asked()));
}

#[test]
fn a_spawner_tells_what_it_was_asked_for(rt: HostRuntime) {
    let mut spawner = spawner_of(&rt, rt.alloc());
    orders_come(&rt, rt.alloc(), &mut spawner);
}

fn is_spawn(asked: &Asked, run: u32, pid: Option<u32>) -> bool {
    match asked {
        Asked::Spawn { order, answer } => order.run == Run(run) && number_of(answer) == pid,
        Asked::Kill { .. } => false,
    }
}

fn number_of(answer: &Result<Pid, Refusal>) -> Option<u32> {
    match answer {
        Ok(pid) => Some(pid.get()),
        Err(_) => None,
    }
}

fn is_kill(asked: &Asked, wanted: Signal, whole: bool, was_sent: bool) -> bool {
    match asked {
        Asked::Spawn { .. } => false,
        Asked::Kill {
            pid,
            signal,
            group,
            sent,
        } => pid.get() == 1 && *signal == wanted && *group == whole && *sent == was_sent,
    }
}
