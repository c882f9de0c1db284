//! What the notes of a run change.
ghost use Rattle.std.specs.Prelude.{◌≡◌, ◌-◌, MatchOption, None};
ghost use Rattle.sv_parts.specs.Runs.Lives.{ChangesAt, place_of};
ghost use Rattle.sv_parts.specs.Runs.Noting.{Closes, Leaves, Settles, WasClosed};

use crate::runs::life::close;
use crate::runs::live_runs::LiveRuns;
use std::sync::Wait;
use sv_base::Run;
use sv_jobs::StdinWord;
use sv_lane::Poster;

impl<P: Drop> LiveRuns<P> {
    /// A piece of a run's standard input was written.
    pub fn wrote(&mut self, run: Run)
        ensures lives { MatchOption (place_of run.0 self.old.lives.items)
            (self.new.lives ≡ self.old.lives)
            (λ place. ChangesAt place Settles self.old.lives.items self.new.lives.items) }
        ensures spawner { self.new.spawner ≡ self.old.spawner }
    {
        if let Some(place) = self.place_of(run) {
            let life = &mut self.lives[place];
            life.unwritten = life.unwritten.saturating_sub(1);
        }
    }

    /// Nothing more is written to a run's standard input.
    pub fn stdin_ended(&mut self, run: Run)
        ensures lives { MatchOption (place_of run.0 self.old.lives.items)
            (self.new.lives ≡ self.old.lives)
            (λ place. ChangesAt place Closes self.old.lives.items self.new.lives.items) }
        ensures spawner { self.new.spawner ≡ self.old.spawner }
    {
        if let Some(place) = self.place_of(run) {
            self.lives[place].closed = true;
        }
    }

    /// A run's process ended: the job that writes its input is told to end, and nothing is kept of the run. Gives its end
    /// of that job's lane, to which a Close was posted last.
    pub fn exited<R: Wait>(&mut self, rt: &R, run: Run) -> Option<Poster<StdinWord>>
        ensures lives { MatchOption (place_of run.0 self.old.lives.items)
            (self.new.lives ≡ self.old.lives)
            (λ place. Leaves place self.old.lives.items self.new.lives.items) }
        ensures closed { MatchOption (place_of run.0 self.old.lives.items) (result ≡ None)
            (λ place. WasClosed place self.old.lives.items result) }
        ensures spawner { self.new.spawner ≡ self.old.spawner }
    {
        let Some(place) = self.place_of(run) else {
            return None;
        };
        let life = self.lives.remove(place);
        Some(close(rt, life.words))
    }
}
