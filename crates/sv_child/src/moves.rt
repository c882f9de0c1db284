//! What the rows of the child table do to a child.
ghost use Rattle.std.specs.Prelude.{◌≡◌, not, pos};
ghost use Rattle.std.specs.List.{list_any};
ghost use Rattle.std.specs.Ordering.{int_eq};
ghost use Rattle.sv_child.specs.Moves.{backs_off, ends_start, entered, exit_of, exited, goes};
ghost use Rattle.sv_child.specs.Moves.{has_tired, is_first_start, is_killed, is_reached};
ghost use Rattle.sv_child.specs.Moves.{is_spawned, restarts, starts, stops};

use crate::child::Child;
use crate::step::{ChildDeed, Step};
use sv_base::ids::Run;
use sv_base::moment::Moment;
use sv_base::number::{Pid, Tries};
use sv_base::signal::Signal;
use sv_base::spec::Spec;
use sv_base::state::{Autorestart, How, State};
use sv_base::text::Text;

impl Child {
    /// Whether its deadline is reached, which it is at equality.
    pub(crate) fn has_reached(&self, now: Moment) -> bool
        ensures { result ≡ is_reached self.now.deadline now }
    {
        match self.deadline {
            Some(deadline) => deadline.is_reached(now),
            None => false,
        }
    }

    /// Whether more starts failed in a row than are tried again.
    pub(crate) fn has_tired(&self, spec: &Spec) -> bool
        ensures { result ≡ has_tired spec.now self.now }
    {
        self.tries.get() > spec.startretries.get()
    }

    /// Whether it is to be started with the daemon, and never was.
    pub(crate) fn is_first_start(&self, spec: &Spec) -> bool
        ensures { result ≡ is_first_start spec.now self.now }
    {
        self.start.is_none() && spec.autostart
    }

    /// Whether it is to be started again after its exit.
    pub(crate) fn restarts(&self, spec: &Spec) -> bool
        ensures { result ≡ restarts spec.now self.now }
    {
        match spec.autorestart {
            Autorestart::Always => true,
            Autorestart::Unexpected => !is_expected(spec.exitcodes.as_slice(), self.exit),
            Autorestart::Never => false,
        }
    }

    /// Enters a state, in four of which the failed starts are forgotten.
    fn enter(&mut self, to: State)
        ensures { self.new ≡ entered self.old to }
    {
        self.state = to;
        match to {
            State::Running | State::Exited | State::Fatal | State::Stopped => {
                self.tries = Tries::least();
            }
            _ => {}
        }
    }

    /// Goes to another state, and that is all.
    pub(crate) fn go(&mut self, to: State) -> Step
        ensures after { self.new ≡ (goes self.old.state self.old to).child }
        ensures step { result ≡ (goes self.old.state self.old to).step }
    {
        let from = self.state;
        self.enter(to);
        Step::leads(from, to, None)
    }

    /// Goes to STARTING, with a spawn.
    pub(crate) fn begin(&mut self, now: Moment) -> Step
        ensures after { self.new ≡ (starts self.old.state self.old now).child }
        ensures step { result ≡ (starts self.old.state self.old now).step }
    {
        let from = self.state;
        self.enter(State::Starting);
        self.start = Some(now);
        Step::leads(from, State::Starting, Some(ChildDeed::Spawn))
    }

    /// Goes to STOPPING, with the stop signal, and with a deadline for KILL.
    pub(crate) fn begin_stop(&mut self, spec: &Spec, now: Moment) -> Step
        ensures after { self.new ≡ (stops self.old.state spec.now self.old now).child }
        ensures step { result ≡ (stops self.old.state spec.now self.old now).step }
    {
        let from = self.state;
        self.enter(State::Stopping);
        self.deadline = Some(now.later(spec.stopwaitsecs.get()));
        let deed = ChildDeed::Kill(spec.stopsignal, spec.stopasgroup);
        Step::leads(from, State::Stopping, Some(deed))
    }

    /// Has KILL sent, and sets a new deadline for the next one.
    pub(crate) fn kill(&mut self, spec: &Spec, now: Moment) -> Step
        ensures after { self.new ≡ (is_killed spec.now self.old now).child }
        ensures step { result ≡ (is_killed spec.now self.old now).step }
    {
        self.deadline = Some(now.later(spec.stopwaitsecs.get()));
        Step::stays(ChildDeed::Kill(Signal::Kill, spec.killasgroup))
    }

    /// Keeps the run and the process that were started, with a deadline from which it counts as up.
    pub(crate) fn keep_run(&mut self, spec: &Spec, run: Run, pid: Pid, now: Moment) -> Step
        ensures after { self.new ≡ (is_spawned spec.now self.old run pid now).child }
        ensures step { result ≡ (is_spawned spec.now self.old run pid now).step }
    {
        self.run = Some(run);
        self.pid = pid.get();
        self.deadline = Some(now.later(spec.startsecs.get()));
        self.fault = Text::fixed("");
        Step::nothing()
    }

    /// Goes from STARTING to BACKOFF: the next try waits for as many seconds as starts failed in a row.
    pub(crate) fn back_off(&mut self, fault: Text, now: Moment) -> Step
        requires { self.old.state ≡ State.Starting }
        ensures after { self.new ≡ (backs_off self.old fault now).child }
        ensures step { result ≡ (backs_off self.old fault now).step }
    {
        self.tries = self.tries.one_more();
        self.fault = fault;
        self.deadline = Some(now.later(self.tries.get()));
        self.go(State::Backoff)
    }

    /// Keeps how its process ended, and when.
    fn exit(&mut self, how: How, now: Moment)
        ensures { self.new ≡ exited self.old how now }
    {
        self.exit = exit_of(how);
        self.stop = Some(now);
        self.pid = 0;
    }

    /// Its process ended before it had settled: at the deadline or later that was in time.
    pub(crate) fn end_start(&mut self, how: How, now: Moment) -> Step
        requires { self.old.state ≡ State.Starting }
        ensures after { self.new ≡ (ends_start self.old how now).child }
        ensures step { result ≡ (ends_start self.old how now).step }
    {
        let is_up = self.has_reached(now);
        self.exit(how, now);
        if is_up {
            self.enter(State::Running);
            self.enter(State::Exited);
            Step::leads_over(State::Starting, State::Running, State::Exited)
        } else {
            self.back_off(
                Text::fixed("Exited too quickly (process log may have details)"),
                now,
            )
        }
    }

    /// Its process ended, which leads to this state.
    pub(crate) fn end_run(&mut self, how: How, now: Moment, to: State) -> Step
        ensures after { self.new ≡ (goes self.old.state (exited self.old how now) to).child }
        ensures step { result ≡ (goes self.old.state (exited self.old how now) to).step }
    {
        self.exit(how, now);
        self.go(to)
    }
}

/// The exit code, or -1 for a signal.
fn exit_of(how: How) -> i32
    ensures { result ≡ exit_of how }
{
    match how {
        How::Code(code) => i32::from(code),
        How::Signal(_) => -1,
    }
}

/// Whether this exit is among the expected codes.
fn is_expected(codes: &[u8], exit: i32) -> bool
    ensures { result ≡ list_any (λ code. int_eq (pos code) exit) codes.now }
{
    codes.iter().any(|code| i32::from(*code) == exit)
}
