//! What a clock that goes back does to a child.
ghost use Rattle.std.specs.Prelude.{◌≡◌, ◌≤◌, IfSome};
ghost use Rattle.sv_child.specs.Rewind.{no_later, rewound, wait_of};

use crate::child::Child;
use sv_base::moment::Moment;
use sv_base::spec::Spec;
use sv_base::state::State;

impl Child {
    /// For a clock that goes back: no moment of the child is later than now, and no deadline further off than
    /// its own wait.
    pub fn rewind(&mut self, spec: &Spec, now: Moment)
        ensures { self.new ≡ rewound spec.now self.old now }
    {
        let wait = self.wait(spec);
        self.start = no_later(self.start, now);
        self.stop = no_later(self.stop, now);
        if let (Some(deadline), Some(seconds)) = (self.deadline, wait) {
            self.deadline = Some(deadline.at_most(now.later(seconds)));
        }
    }

    /// How many seconds a deadline of its state waits.
    fn wait(&self, spec: &Spec) -> Option<u32>
        ensures value { result ≡ wait_of spec.now self.now self.now.state }
        ensures most { IfSome result (λ seconds. seconds ≤ 1000001) }
    {
        match self.state {
            State::Starting => Some(spec.startsecs.get()),
            State::Backoff => Some(self.tries.get()),
            State::Stopping => Some(spec.stopwaitsecs.get()),
            _ => None,
        }
    }
}

/// The moment, but no later than now.
fn no_later(moment: Option<Moment>, now: Moment) -> Option<Moment>
    ensures { result ≡ no_later moment now }
{
    moment.map(|moment| moment.min(now))
}
