//! What the methods of the tests may look at: the six processes in one state or another.

use crate::made::made;
use crate::sample::{config, groups, sizes};
use std::alloc::Global;
use std::process::Abort;
use sv_base::config::Config;
use sv_base::moment::Moment;
use sv_base::state::{Mood, State};
use sv_base::text::Text;
use sv_child::child::Child;
use sv_groups::Roster;
use sv_methods::Stand;

/// The moment of all calls: 9 September 2001, 01:46:40.999 UTC.
pub const NOW: u64 = 1_000_000_000_999;

// Children in start order, each with its state and what else isn't as in a child that was never started: the
// number of its process, when it started and stopped in milliseconds, its exit code, its fault text, in which `~`
// stands for a space, and whether its stdin was closed.

/// cat:cat is up for 5.999 seconds; web:b is starting and its stdin is closed; of w:one no cause is known; z:q
/// stopped 1:40 minutes ago.
pub const BUSY: &str =
    "RUNNING pid=12 start=999999995000|STOPPED|STARTING pid=13 start=1000000000899 closed=yes|\
BACKOFF start=999999999000 stop=999999999900 exit=1|STOPPING pid=14 start=999999900000|\
EXITED start=999999000000 stop=999999900999 exit=-1";

/// cat:cat couldn't be started; web:a stopped on 29 February 2000 at midnight; web:b is up for 2 days, 3:04:05; w:w
/// is tried again; of z:q no cause is known.
pub const ENDED: &str = "FATAL fault=no~file~/bin/cat|STOPPED start=951000000000 stop=951782400000|\
RUNNING pid=20 start=999816155500|UNKNOWN|BACKOFF start=1000000000000 fault=fork~failed|FATAL exit=2";

/// All of what a stand borrows.
pub struct Scene {
    mood: Mood,
    daemon: Daemon,
    lives: Lives,
}

impl Drop for Scene {
    fn drop(self) {
        let Self {
            mood: _,
            daemon: _,
            lives: _,
        } = self;
    }
}

/// What a daemon was configured with, and the sizes that it knows.
struct Daemon {
    config: Config,
    roster: Roster,
    sizes: Vec<(Text, u64)>,
}

impl Drop for Daemon {
    fn drop(self) {
        let Self {
            config: _,
            roster: _,
            sizes: _,
        } = self;
    }
}

/// The children, and of each whether its stdin was closed.
#[derive(Drop)]
struct Lives {
    children: Vec<Child>,
    closed: Vec<bool>,
}

fn state(word: &str) -> State {
    match word {
        "STARTING" => State::Starting,
        "RUNNING" => State::Running,
        "BACKOFF" => State::Backoff,
        "STOPPING" => State::Stopping,
        "EXITED" => State::Exited,
        "FATAL" => State::Fatal,
        "UNKNOWN" => State::Unknown,
        _ => State::Stopped,
    }
}

fn moment(rt: &impl Abort, digits: &str) -> Option<Moment> {
    let milliseconds = digits.parse::<u64>().ok().expect(rt, "a number");
    Some(Moment::new(milliseconds).expect(rt, "a moment"))
}

fn spaced(rt: &impl Abort, alloc: Global, word: &str) -> Text {
    let mut text = String::new(alloc);
    for letter in word.chars() {
        let letter = if letter == '~' { ' ' } else { letter };
        text.push(letter).expect(rt, "memory");
    }
    Text::from_string(text)
}

fn set(rt: &impl Abort, alloc: Global, child: &mut Child, name: &str, value: &str) {
    match name {
        "pid" => child.pid = value.parse::<u32>().ok().expect(rt, "a number"),
        "start" => child.start = moment(rt, value),
        "stop" => child.stop = moment(rt, value),
        "exit" => child.exit = value.parse::<i32>().ok().expect(rt, "a number"),
        "fault" => child.fault = spaced(rt, alloc, value),
        _ => (),
    }
}

fn child(rt: &impl Abort, alloc: Global, life: &str) -> Child {
    let mut child = Child::new();
    for word in life.split(' ') {
        match word.split_once('=') {
            Some((name, value)) => set(rt, alloc, &mut child, name, value),
            None => child.state = state(word),
        }
    }
    child
}

/// A child and whether its stdin was closed, which the last word of its life tells.
fn push_life(rt: &impl Abort, alloc: Global, lives: &mut Lives, life: &str) {
    let child = child(rt, alloc, life);
    lives.children.push(child).expect(rt, "memory");
    let closed = life.ends_with("closed=yes");
    lives.closed.push(closed).expect(rt, "memory");
}

/// The children of these lives.
fn lives_of(rt: &impl Abort, alloc: Global, lives: &str) -> Lives {
    let mut found = Lives {
        children: Vec::new(alloc),
        closed: Vec::new(alloc),
    };
    for life in lives.split('|') {
        push_life(rt, alloc, &mut found, life);
    }
    found
}

fn roster(rt: &impl Abort, alloc: Global, config: &Config) -> Roster {
    made(rt, Roster::new(alloc, config))
}

/// A daemon that was configured so.
fn daemon_of(config: Config, roster: Roster, sizes: Vec<(Text, u64)>) -> Daemon {
    Daemon {
        config,
        roster,
        sizes,
    }
}

fn configured(rt: &impl Abort, alloc: Global, has_main: bool, rpc: bool) -> Daemon {
    let config = config(alloc, groups(rt, alloc), has_main, rpc);
    let roster = roster(rt, alloc, &config);
    daemon_of(config, roster, sizes(rt, alloc))
}

/// The six processes with these children, in this mood, with a main log or without one, with the methods of
/// `supervisor` or without them.
pub fn scene_with(
    rt: &impl Abort,
    alloc: Global,
    lives: &str,
    mood: Mood,
    has_main: bool,
    rpc: bool,
) -> Scene {
    Scene {
        mood,
        daemon: configured(rt, alloc, has_main, rpc),
        lives: lives_of(rt, alloc, lives),
    }
}

/// The same in the mood RUNNING, with a main log and all methods.
pub fn running(rt: &impl Abort, alloc: Global, lives: &str) -> Scene {
    scene_with(rt, alloc, lives, Mood::Running, true, true)
}

/// The stand of a scene.
pub fn stand(scene: &Scene) -> Stand {
    Stand {
        mood: scene.mood,
        pid: 4_294_967_295,
        config: &scene.daemon.config,
        roster: &scene.daemon.roster,
        children: scene.lives.children.as_slice(),
        closed: scene.lives.closed.as_slice(),
        sizes: scene.daemon.sizes.as_slice(),
    }
}

/// All are up, the last two of them since the same moment.
pub const UP: &str = "RUNNING|RUNNING|STARTING|BACKOFF|RUNNING|RUNNING";

/// None was started.
pub const DOWN: &str = "STOPPED|STOPPED|STOPPED|STOPPED|STOPPED|STOPPED";
