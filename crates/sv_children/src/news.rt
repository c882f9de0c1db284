//! What comes to a child.
ghost use Rattle.std.specs.Prelude.{◌≡◌, Some};
ghost use Rattle.sv_base.specs.declared.state.Mood.{Mood};
ghost use Rattle.sv_children.specs.News.{child_after, is_living_run, is_run, said, step_of};
ghost use Rattle.sv_children.specs.News.{stimulus_of, stimulus_told};

use sv_base::ids::Run;
use sv_base::moment::Moment;
use sv_base::number::Pid;
use sv_base::spec::Spec;
use sv_base::state::{How, Mood};
use sv_base::text::Text;
use sv_child::child::Child;
use sv_child::step::Step;

/// What comes to children, one after the other.
#[derive(Drop)]
pub enum News {
    /// Time has passed, for each.
    Time,
    /// The process of a run ended.
    Exit(Run, How),
    /// The console asks for starts.
    Start,
    /// It is to stop.
    Stop,
}

/// What a child is told of its spawn.
#[derive(Drop)]
pub enum Told {
    /// The number of its process.
    Started(Pid),
    /// Why there is none.
    NotStarted(Text),
}

impl News {
    /// Brings the news to a child, where they concern it, and answers the step that it took.
    pub(crate) fn bring(
        &self,
        spec: &Spec,
        child: &mut Child,
        mood: Mood,
        now: Moment,
    ) -> Option<Step>
        ensures child { let heard = stimulus_of self.now child.old in
            child.new ≡ child_after (said heard spec.now child.old mood now) child.old }
        ensures step { let heard = stimulus_of self.now child.old in
            result ≡ step_of (said heard spec.now child.old mood now) }
    {
        match self {
            News::Time => Some(child.moment(spec, mood, now)),
            News::Exit(run, how) if is_living_run(*run, child) => Some(child.ended(
                spec, *how, now,
            )),
            News::Exit(_, _) => None,
            News::Start => Some(child.want_start(spec, now)),
            News::Stop => Some(child.want_stop(spec, now)),
        }
    }
}

/// A child is told of its spawn as this run.
pub(crate) fn tell(spec: &Spec, child: &mut Child, run: Run, told: Told, now: Moment) -> Step
    ensures after { (mood : Mood) →
        let answer = said (stimulus_told run told child.old) spec.now child.old mood now in
        child.new ≡ child_after answer child.old }
    ensures step { (mood : Mood) →
        let answer = said (stimulus_told run told child.old) spec.now child.old mood now in
        Some result ≡ step_of answer }
{
    match told {
        Told::Started(pid) => child.spawned(spec, run, pid, now),
        Told::NotStarted(fault) => child.spawn_failed(spec, fault, now),
    }
}

/// Whether the child's process runs as this run.
fn is_living_run(run: Run, child: &Child) -> bool
    ensures { result ≡ is_living_run run child.now }
{
    is_run(child.run, run) && child.pid != 0
}

fn is_run(own: Option<Run>, run: Run) -> bool
    ensures { result ≡ is_run own run.0 }
{
    match own {
        Some(own) => own.0 == run.0,
        None => false,
    }
}
