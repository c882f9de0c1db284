//! The children in start order, and what comes to the one of a place.
ghost use Rattle.std.specs.Prelude.{IsTrue, ◌≡◌, ℕ, IfOk, MatchOption, None, OnOk, Some, length, replicate};
ghost use Rattle.sv_base.specs.declared.state.Mood.{Mood};
ghost use Rattle.sv_child.specs.Moves.{new_child};
ghost use Rattle.sv_children.specs.Awake.{IsNextAwake, NoneAwake, place_of};
ghost use Rattle.sv_children.specs.Crew.{member_at, new_crew};
ghost use Rattle.sv_children.specs.News.{moved, said_at, step_of, stimulus_of, stimulus_told};
ghost use Rattle.sv_children.specs.Rewound.{all_rewound, crew_rewound};
ghost use Rattle.sv_children.specs.Spans.{are_at_rest, span_meant};
ghost use Rattle.sv_children.specs.Watch.{Watches};
ghost use Rattle.sv_groups.specs.StartOrder.{pairs_of, processes, span_of};

use crate::news::{News, Told, tell};
use crate::rewind::rewind_all;
use crate::watch::Watch;
use std::alloc::{AllocError, Global};
use std::marker::Model;
use sv_base::config::Config;
use sv_base::ids::{ChildId, Run};
use sv_base::moment::Moment;
use sv_base::spec::{GroupSpec, Spec};
use sv_base::state::Mood;
use sv_base::text::Text;
use sv_child::child::Child;
use sv_child::step::Step;
use sv_groups::{Found, Roster, Span};

/// The groups of the daemon, and a child for each of their processes, both in start order. Places are counted from 0.
pub struct Children {
    pub(crate) roster: Roster,
    pub(crate) all: Vec<Child>,
    /// What is known of them without looking at them.
    watch: Watch,
    /// How often one was looked at as time passed.
    looks: u64,
}

impl Drop for Children {
    fn drop(self) {
        let Self {
            roster: _,
            all: _,
            watch: _,
            looks: _,
        } = self;
    }
}

impl Model for Children {
    ghost use Rattle.sv_children.specs.Crew.{Crew};
    ghost use Rattle.sv_children.specs.Watch.{Watches};
    ghost use Rattle.sv_groups.specs.StartOrder.{pairs_of};

    ghost Value = { Crew };

    ghost view = { λ c. record { roster = c.roster; all = c.all.items } };

    ghost invariant = { λ c. Watches (pairs_of c.roster) c.all.items c.watch };
}

/// A child as the roster has it.
#[derive(Clone, Copy)]
pub struct Member<'a> {
    /// Its group.
    pub group: &'a GroupSpec,
    /// What the configuration says of it.
    pub spec: &'a Spec,
    /// How it is.
    pub child: &'a Child,
}

impl Children {
    /// The children of a configuration; each is stopped and was never started.
    pub fn new(alloc: Global, config: &Config) -> Result<Children, AllocError>
        ensures { IfOk result (λ c. c ≡ new_crew config.now.groups) }
    {
        let roster = Roster::new(alloc, config)?;
        let all = new_children(alloc, roster.count())?;
        let watch = Watch::new(alloc, &roster, all.as_slice())?;
        Ok(Children {
            roster,
            all,
            watch,
            looks: 0,
        })
    }

    /// The groups with their processes.
    pub fn roster(&self) -> &Roster
        ensures { result.now ≡ self.now.roster }
    {
        &self.roster
    }

    /// All children in start order.
    pub fn as_slice(&self) -> &[Child]
        ensures { result.now ≡ self.now.all }
    {
        self.all.as_slice()
    }

    /// How many there are.
    pub fn len(&self) -> usize
        ensures { result ≡ length self.now.all }
    {
        self.all.len()
    }

    /// The child of a place as the roster has it.
    pub fn member(&self, place: usize) -> Option<Member<'_>>
        ensures { MatchOption result (member_at self.now place ≡ None) (λ m.
            member_at self.now place
            ≡ Some (record { group = m.group.now; spec = m.spec.now; child = m.child.now })) }
    {
        if place >= self.all.len() {
            return None;
        }
        match self.roster.process(place) {
            None => None,
            Some(process) => Some(Member {
                group: process.0,
                spec: process.1,
                child: &self.all[place],
            }),
        }
    }

    /// The children of the group at this place of the start order of groups.
    pub fn group(&self, group: usize) -> Span
        ensures { result ≡ span_of group self.now.roster }
    {
        self.roster.span(group)
    }

    /// The children that a name of the console means.
    pub fn meant(&self, name: &Text) -> Span
        ensures { result ≡ span_meant name.now self.now.roster }
    {
        match self.roster.find(name.as_str()) {
            Found::One(child) => {
                let from = child.0 as usize;
                Span { from, to: from + 1 }
            }
            Found::Group(group) => self.roster.span(group),
            Found::Nothing => Span { from: 0, to: 0 },
        }
    }

    /// Whether none of these has a process or gets one by itself.
    pub fn are_at_rest(&self, span: Span) -> bool
        ensures { result ≡ are_at_rest span self.now.all }
    {
        are_at_rest(self.all.as_slice(), span)
    }

    /// Rewinds each child to this moment. Where the clock doesn't go back it looks at none.
    pub fn rewind(&mut self, at: Moment)
        ensures { self.new ≡ crew_rewound at self.old }
    {
        if !self.watch.stays(at) {
            rewind(&self.roster, self.all.as_mut_slice(), &mut self.watch, at);
        }
    }

    /// The first child from this place on that has woken at this moment. It takes no memory; all that have woken are looked
    /// at once in a pass, and no other child.
    pub fn next_awake(&mut self, from: usize, now: Moment) -> Option<usize>
        ensures kept { self.new ≡ self.old }
        ensures next { MatchOption result
            ((to : ℕ) → NoneAwake now self.old from to)
            (λ place. IsNextAwake now self.old from place) }
    {
        let next = self.watch.agenda.next(from, now);
        self.looks = self.looks.wrapping_add(next.looks as u64);
        place_of(next.child)
    }

    /// Whether no child has woken at this moment. It looks at no child.
    pub fn all_sleep(&self, now: Moment) -> bool
        ensures { IsTrue result → (to : ℕ) → NoneAwake now self.now 0 to }
    {
        self.watch.agenda.none_due(now)
    }

    /// How many children were looked at so far to find those that had woken, modulo 2^64.
    pub fn looks(&self) -> u64 {
        self.looks
    }

    /// Brings news to the child of a place, in this mood and at this moment, and answers the step that it took; `None`
    /// where they don't concern it or no child is there.
    pub fn bring(&mut self, place: usize, news: &News, mood: Mood, now: Moment) -> Option<Step>
        ensures after { self.new
            ≡ moved place (said_at (stimulus_of news.now) place mood now self.old) self.old }
        ensures step { result
            ≡ step_of (said_at (stimulus_of news.now) place mood now self.old) }
    {
        if place >= self.all.len() {
            return None;
        }
        match self.roster.process(place) {
            None => None,
            Some(process) => {
                let child = &mut self.all[place];
                let step = news.bring(process.1, child, mood, now);
                self.watch.change(place, process.1, child, now);
                step
            }
        }
    }

    /// Tells the child of a place how the spawn went that was asked for as this run, and answers the step that it took.
    pub fn answer(&mut self, place: usize, run: Run, told: Told, now: Moment) -> Option<Step>
        ensures after { (mood : Mood) → self.new
            ≡ moved place (said_at (stimulus_told run told) place mood now self.old) self.old }
        ensures step { (mood : Mood) → result
            ≡ step_of (said_at (stimulus_told run told) place mood now self.old) }
    {
        if place >= self.all.len() {
            return None;
        }
        match self.roster.process(place) {
            None => None,
            Some(process) => {
                let child = &mut self.all[place];
                let step = tell(process.1, child, run, told, now);
                self.watch.change(place, process.1, child, now);
                Some(step)
            }
        }
    }
}

/// Rewinds each child to this moment.
fn rewind(roster: &Roster, children: &mut [Child], watch: &mut Watch, at: Moment)
    requires { Watches (pairs_of roster.now) children.old watch.old }
    ensures all { children.new ≡ all_rewound at (processes roster.now) children.old }
    ensures watch { Watches (pairs_of roster.now) children.new watch.new }
{
    rewind_all(roster.groups(), children, at);
    watch.rewound(roster, children, at);
}

/// The place of a child, if there is one.
fn place_of(child: Option<ChildId>) -> Option<usize>
    ensures { result ≡ place_of child }
{
    match child {
        None => None,
        Some(child) => Some(child.0 as usize),
    }
}

/// So many children that were never started.
fn new_children(alloc: Global, count: usize) -> Result<Vec<Child>, AllocError>
    ensures { IfOk result (λ children. children.items ≡ replicate count new_child) }
{
    let mut children = Vec::new(alloc);
    for _ in 0..count {
        children.push(Child::new())?;
    }
    Ok(children)
}

fn are_at_rest(children: &[Child], span: Span) -> bool
    ensures { result ≡ are_at_rest span children.now }
{
    children
        .iter()
        .skip(span.from)
        .take(span.to.saturating_sub(span.from))
        .all(|child| child.is_at_rest())
}
