//! The parts of the worlds.
ghost use Rattle.std.specs.Prelude.{◌≡◌, ◌++◌, ◌∷◌, [], None};
ghost use Rattle.std.specs.Option.{ForSome};
ghost use Rattle.sv_outside.specs.Told.{GrowsWhileTold};

use crate::course::Parts;
use std::alloc::Global;
use std::collections::VecDeque;
use std::process::Abort;
use std::thread;
use std::time::Duration;
use sv_base::{Bytes, Items, LinkId, Moment, Run, Text};
use sv_jobs::{AnyJob, NoBoard};
use sv_out::MapShelf;
use sv_out::input::Input;
use sv_out::order::{Order, SpawnOrder};
use sv_out::sink::ListSink;
use sv_out::source::ListSource;
use sv_outside::{Clock, Program, ScriptListen, ScriptSpawner, ScriptWaiter, World};

/// A clock that stands at 7, and lets a hundredth of the time pass in a pause.
#[derive(Drop)]
pub(crate) struct StillClock<R: Drop> {
    rt: R,
}

impl<R: Drop> StillClock<R> {
    pub(crate) fn new(rt: R) -> StillClock<R> {
        StillClock { rt }
    }
}

impl<R: std::time::Clock + Drop> Clock for StillClock<R> {
    ghost next = { λ c. None };

    ghost paused = { λ c. None };

    fn now(&mut self) -> Moment {
        Moment::new(7).unwrap_or(Moment::zero())
    }

    fn pause(&mut self, milliseconds: u32) {
        thread::sleep(
            &self.rt,
            Duration::from_millis(u64::from(milliseconds / 100)),
        );
    }
}

pub(crate) type TestJob<R> = AnyJob<
    ListSink,
    ListSource,
    ListSource,
    ScriptWaiter,
    ScriptListen,
    ListSource,
    StillClock<R>,
    NoBoard,
>;

/// A source of this text.
pub(crate) fn source_of(rt: &impl Abort, alloc: Global, text: &str) -> ListSource {
    let bytes = Vec::from_slice(alloc, text.as_bytes()).expect(rt, "ample memory");
    ListSource::new(bytes, 1, Vec::new(alloc))
}

/// A spawner whose first program writes `hi`, and whose third call fails.
pub(crate) fn spawner_of(rt: &impl Abort, alloc: Global) -> ScriptSpawner {
    let mut programs = VecDeque::new(alloc);
    programs
        .push_back(Program {
            stdout: source_of(rt, alloc, "hi"),
            ..Program::silent(alloc)
        })
        .expect(rt, "ample memory");
    let failing = Vec::from_slice(alloc, &[3]).expect(rt, "ample memory");
    ScriptSpawner::new(alloc, programs, VecDeque::new(alloc), failing)
}

/// The parts of a world whose shelf fails at these calls, with these links and this console.
pub(crate) fn parts_of<R: Abort + Copy>(
    rt: R,
    alloc: Global,
    failing: &[u64],
    inet: Option<ScriptListen>,
    console: &str,
) -> Parts<ScriptSpawner, ScriptListen, ListSource, StillClock<R>, MapShelf> {
    let failing = Vec::from_slice(alloc, failing).expect(&rt, "ample memory");
    Parts {
        spawner: spawner_of(&rt, alloc),
        inet,
        console: source_of(&rt, alloc, console),
        ticker: StillClock::new(rt),
        clock: StillClock::new(rt),
        shelf: MapShelf::new(alloc, failing),
    }
}

pub(crate) fn give<W: World>(rt: &impl Abort, alloc: Global, world: &mut W, order: Order) {
    world.perform(alloc, &order).expect(rt, "ample memory");
}

pub(crate) fn spawn_order(alloc: Global, run: u32) -> Order {
    Order::Spawn(SpawnOrder {
        run: Run(run),
        group: Text::fixed("web"),
        name: Text::fixed("one"),
        directory: Text::fixed(""),
        umask: Text::fixed(""),
        user: Text::fixed(""),
        words: Items::new(alloc),
        environment: Items::new(alloc),
    })
}

pub(crate) fn bytes_of(rt: &impl Abort, alloc: Global, text: &str) -> Bytes {
    Bytes::from_slice(alloc, text.as_bytes()).expect(rt, "ample memory")
}

/// A letter for the next input.
pub(crate) fn heard<W: World>(rt: &impl Abort, alloc: Global, world: &mut W) -> char {
    letter(&world.next(alloc).expect(rt, "ample memory"))
}

fn letter(input: &Input) -> char {
    match input {
        Input::Tick { .. } => 't',
        Input::Exit { run: Run(1), .. } => 'x',
        Input::Out { .. } => 'o',
        Input::OutEnd { .. } => 'e',
        Input::Open {
            link: LinkId(1),
            ..
        } => '1',
        Input::Open {
            link: LinkId(2),
            ..
        } => '2',
        Input::Piece { .. } => 'P',
        Input::LinkEnd { .. } => 'L',
        Input::Signal { .. } => 's',
        Input::Start { .. } => 'a',
        Input::Stop { .. } => 'b',
        Input::Pid(_) => 'p',
        Input::Refused(_) => 'r',
        Input::Read(_) => 'R',
        Input::Done => 'd',
        Input::Missing => 'm',
        Input::Names(_) => 'n',
        Input::Size(2) => 'z',
        Input::Failed(0) => 'A',
        Input::Failed(1) => 'B',
        Input::Failed(2) => 'C',
        Input::Failed(3) => 'D',
        _ => '?',
    }
}
