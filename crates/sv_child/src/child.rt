//! A child and what can happen to it: the rows of the child table.
ghost use Rattle.std.specs.Prelude.{◌≡◌};
ghost use Rattle.sv_base.specs.declared.state.Mood.{Mood};
ghost use Rattle.sv_child.specs.ChildTable.{happens};
ghost use Rattle.sv_child.specs.ChildTable.Stimulus.{Start, Stop, Spawned, Spawn_failed, Ended};
ghost use Rattle.sv_child.specs.ChildTable.Stimulus.{Time};
ghost use Rattle.sv_child.specs.Diagram.{IsWalk};
ghost use Rattle.sv_child.specs.Moves.{new_child, is_at_rest};

use crate::step::Step;
use sv_base::ids::Run;
use sv_base::moment::{Deadline, Moment};
use sv_base::number::{Pid, Tries};
use sv_base::spec::Spec;
use sv_base::state::{How, Mood, State};
use sv_base::text::Text;

/// A child: a process of the configuration, through all its runs.
#[derive(Drop)]
pub struct Child {
    /// Where it stands in the diagram of states.
    pub state: State,
    /// Its last run; none before the first.
    pub run: Option<Run>,
    /// The number of its process; 0 where none runs.
    pub pid: u32,
    /// When it was last started; none where it never was.
    pub start: Option<Moment>,
    /// When its process last ended; none where none did.
    pub stop: Option<Moment>,
    /// In STARTING the moment from which it counts as up, in BACKOFF that of the next try, in STOPPING that of
    /// the next KILL; in other states what it was last.
    pub deadline: Option<Deadline>,
    /// How many starts failed in a row.
    pub tries: Tries,
    /// The exit code of its last process, or -1 where a signal ended it.
    pub exit: i32,
    /// Why its last start failed; empty where it didn't.
    pub fault: Text,
}

impl Child {
    /// A child in STOPPED that was never started.
    pub fn new() -> Child
        ensures { result ≡ new_child }
    {
        Child {
            state: State::Stopped,
            run: None,
            pid: 0,
            start: None,
            stop: None,
            deadline: None,
            tries: Tries::least(),
            exit: 0,
            fault: Text::fixed(""),
        }
    }

    /// Whether nothing of it runs or is about to run: it is STOPPED, EXITED or FATAL.
    pub fn is_at_rest(&self) -> bool
        ensures { result ≡ is_at_rest self.now.state }
    {
        matches!(self.state, State::Stopped | State::Exited | State::Fatal)
    }

    /// It is to start.
    pub fn want_start(&mut self, spec: &Spec, now: Moment) -> Step
        ensures after { (mood : Mood)
            → self.new ≡ (happens spec.now self.old Start mood now).child }
        ensures step { (mood : Mood)
            → result ≡ (happens spec.now self.old Start mood now).step }
        ensures walk { IsWalk self.old.state result.edges self.new.state }
    {
        match self.state {
            State::Stopped | State::Exited | State::Fatal => self.begin(now),
            _ => Step::nothing(),
        }
    }

    /// It is to stop.
    pub fn want_stop(&mut self, spec: &Spec, now: Moment) -> Step
        ensures after { (mood : Mood)
            → self.new ≡ (happens spec.now self.old Stop mood now).child }
        ensures step { (mood : Mood)
            → result ≡ (happens spec.now self.old Stop mood now).step }
        ensures walk { IsWalk self.old.state result.edges self.new.state }
    {
        match self.state {
            State::Starting | State::Running => self.begin_stop(spec, now),
            State::Backoff => self.go(State::Stopped),
            _ => Step::nothing(),
        }
    }

    /// Its process was started, as this run.
    pub fn spawned(&mut self, spec: &Spec, run: Run, pid: Pid, now: Moment) -> Step
        ensures after { (mood : Mood)
            → self.new ≡ (happens spec.now self.old (Spawned run pid) mood now).child }
        ensures step { (mood : Mood)
            → result ≡ (happens spec.now self.old (Spawned run pid) mood now).step }
        ensures walk { IsWalk self.old.state result.edges self.new.state }
    {
        match self.state {
            State::Starting => self.keep_run(spec, run, pid, now),
            _ => Step::nothing(),
        }
    }

    /// Its process couldn't be started, for this cause.
    pub fn spawn_failed(&mut self, spec: &Spec, fault: Text, now: Moment) -> Step
        ensures after { (mood : Mood)
            → self.new ≡ (happens spec.now self.old (Spawn_failed fault) mood now).child }
        ensures step { (mood : Mood)
            → result ≡ (happens spec.now self.old (Spawn_failed fault) mood now).step }
        ensures walk { IsWalk self.old.state result.edges self.new.state }
    {
        match self.state {
            State::Starting => self.back_off(fault, now),
            _ => Step::nothing(),
        }
    }

    /// Its process ended.
    pub fn ended(&mut self, spec: &Spec, how: How, now: Moment) -> Step
        ensures after { (mood : Mood)
            → self.new ≡ (happens spec.now self.old (Ended how) mood now).child }
        ensures step { (mood : Mood)
            → result ≡ (happens spec.now self.old (Ended how) mood now).step }
        ensures walk { IsWalk self.old.state result.edges self.new.state }
    {
        match self.state {
            State::Starting => self.end_start(how, now),
            State::Running => self.end_run(how, now, State::Exited),
            State::Stopping => self.end_run(how, now, State::Stopped),
            _ => Step::nothing(),
        }
    }

    /// Time has passed: a deadline may be reached, or the child be due for its first or its next start.
    pub fn moment(&mut self, spec: &Spec, mood: Mood, now: Moment) -> Step
        ensures after { self.new ≡ (happens spec.now self.old Time mood now).child }
        ensures step { result ≡ (happens spec.now self.old Time mood now).step }
        ensures walk { IsWalk self.old.state result.edges self.new.state }
    {
        match self.state {
            State::Stopped if self.is_first_start(spec) && mood == Mood::Running => self.begin(now),
            State::Starting if self.has_reached(now) => self.go(State::Running),
            State::Backoff if self.has_tired(spec) => self.go(State::Fatal),
            State::Backoff if self.has_reached(now) && mood == Mood::Running => self.begin(now),
            State::Stopping if self.has_reached(now) => self.kill(spec, now),
            State::Exited if mood == Mood::Running && self.restarts(spec) => self.begin(now),
            _ => Step::nothing(),
        }
    }
}
