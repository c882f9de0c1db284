//! One child, and what the words of a script have befall it.
use crate::claims::number_of;
use crate::facts_tests::tells_events;
use crate::lines_tests::tells_lines;
use crate::sample::{config, group_of_one, moment, no_log, process, seconds};
use std::alloc::Global;
use std::process::Abort;
use sv_base::config::Config;
use sv_base::ids::Run;
use sv_base::moment::Moment;
use sv_base::number::{ExitSignal, Pid, Retries};
use sv_base::spec::Spec;
use sv_base::state::{How, Mood};
use sv_base::text::Text;
use sv_child::step::Step;
use sv_children::{Children, News, Told};

/// A moment of a script, a run of the child, and what befalls it then: a word, and the number after it.
#[derive(Clone, Copy)]
pub struct Happening<'a> {
    pub now: Moment,
    pub run: Run,
    pub word: &'a str,
    pub number: u32,
}

/// What these words have befall the child at this second.
fn what_happens<'a>(rt: &impl Abort, second: u64, run: Run, words: &'a str) -> Happening<'a> {
    let (word, number) = words.split_once(' ').unwrap_or((words, "0"));
    Happening {
        now: moment(rt, second.saturating_mul(1_000)),
        run,
        word,
        number: number_of(number),
    }
}

/// Whether its spawn is answered.
pub fn is_answer(happening: &Happening<'_>) -> bool {
    matches!(happening.word, "pid" | "refused")
}

/// Answers the spawn of the child's run: it has a process with this pid, or none.
pub fn answered(
    rt: &impl Abort,
    children: &mut Children,
    happening: &Happening<'_>,
) -> Option<Step> {
    let told = match happening.word {
        "pid" => Told::Started(Pid::new(happening.number).expect(rt, "a pid")),
        _ => Told::NotStarted(Text::fixed("no room")),
    };
    children.answer(0, happening.run, told, happening.now)
}

/// Brings the child its news.
pub fn brought(children: &mut Children, news: &News, now: Moment) -> Option<Step> {
    children.bring(0, news, Mood::Running, now)
}

/// The news that come to the child.
pub fn news(rt: &impl Abort, happening: &Happening<'_>) -> News {
    match happening.word {
        "start" => News::Start,
        "stop" => News::Stop,
        "code" => News::Exit(happening.run, code(happening.number)),
        "signal" => News::Exit(happening.run, killed(rt, happening.number)),
        "tick" => News::Time,
        _ => panic!(rt; "no such news"),
    }
}

fn code(number: u32) -> How {
    How::Code(u8::try_from(number).unwrap_or(0))
}

/// The end by the signal of this number.
pub fn killed(rt: &impl Abort, number: u32) -> How {
    How::Signal(ExitSignal::new(number).expect(rt, "a signal"))
}

/// The process p, which says that it is of another group than its own.
fn process_p(rt: &impl Abort, alloc: Global) -> Spec {
    let mut spec = process(alloc, "other", "p");
    spec.exitcodes.push(0).expect(rt, "memory");
    spec.exitcodes.push(3).expect(rt, "memory");
    spec.startsecs = seconds(rt, 2);
    spec.startretries = Retries::new(1).expect(rt, "retries");
    spec.stopwaitsecs = seconds(rt, 3);
    spec
}

/// The configuration with the process p alone in the group g.
fn config_of_p(rt: &impl Abort, alloc: Global) -> Config {
    let mut groups = Vec::new(alloc);
    groups
        .push(group_of_one(rt, alloc, "g", process_p(rt, alloc)))
        .expect(rt, "memory");
    config(rt, alloc, no_log(), groups)
}

/// The process p alone in the group g.
pub fn one_child(rt: &impl Abort, alloc: Global) -> Children {
    let config = config_of_p(rt, alloc);
    let children = Children::new(alloc, &config);
    drop(config);
    children.expect(rt, "memory")
}

/// What a life is told by.
#[derive(Clone, Copy)]
pub enum Telling {
    /// By events.
    Events,
    /// By lines of the main log.
    Lines,
}

/// What happens to the child tells this.
fn befalls(
    rt: &impl Abort,
    alloc: Global,
    children: &mut Children,
    happening: &Happening<'_>,
    told: &str,
    telling: Telling,
) {
    match telling {
        Telling::Events => tells_events(rt, alloc, children, happening, told),
        Telling::Lines => tells_lines(rt, alloc, children, happening, told),
    }
}

/// The run of the child after this line: the next one where its spawn has a pid.
fn run_after(run: u32, line: &str) -> u32 {
    if line.starts_with("pid") {
        run.saturating_add(1)
    } else {
        run
    }
}

/// A life of the child, line by line, one second after the other.
pub fn live(rt: &impl Abort, alloc: Global, life: &str, telling: Telling) {
    let mut children = one_child(rt, alloc);
    let mut second = 0u64;
    let mut run = 0u32;
    for line in life.lines() {
        run = run_after(run, line);
        let (words, told) = line.split_once('|').unwrap_or((line, ""));
        let happening = what_happens(rt, second, Run(run), words);
        befalls(rt, alloc, &mut children, &happening, told, telling);
        second = second.saturating_add(1);
    }
    drop(children);
}
