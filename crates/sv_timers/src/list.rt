//! The list of a settle, of which what is left is told one by one.
ghost use Rattle.std.specs.Prelude.{◌≡◌, ◌≤◌, ℕ, List, Option, IfOk, IsTrue, MatchOption, None};
ghost use Rattle.std.specs.Prelude.{Some, drop, length, slice_set};
ghost use Rattle.sv_timers.specs.Deadlines.{due_from};
ghost use Rattle.sv_timers.specs.NextDue.{IsFirst, IsList, next_due, next_in, rest_past, tells};

use crate::due::Due;
use crate::looked::Looked;
use std::alloc::{AllocError, Global};
use sv_base::{ChildId, Moment};

/// What is left of a list: who was due at this moment, from this place on.
#[derive(Clone, Copy)]
pub(crate) struct Rest {
    pub(crate) from: usize,
    pub(crate) at: Moment,
}

/// The children that were due when it was settled.
#[derive(Drop)]
pub(crate) struct DueList {
    /// Whom the last settle looked at.
    pub(crate) looked: Looked,
    /// How many of these were told.
    pub(crate) told: usize,
    /// What the others tell; nothing where a deadline among them changed.
    pub(crate) rest: Option<Rest>,
}

impl DueList {
    /// An empty list, with room for so many children.
    pub(crate) fn new(alloc: Global, children: u32) -> Result<DueList, AllocError>
        ensures { IfOk result (λ list. (deadlines : List (Option ℕ))
            → length deadlines ≡ children → IsList list deadlines) }
    {
        Ok(DueList {
            looked: Looked::new(alloc, children)?,
            told: 0,
            rest: None,
        })
    }

    /// The deadline of the child in this place changes, of which the rest tells nothing then.
    pub(crate) fn change(&mut self, place: usize)
        ensures { (deadlines : List (Option ℕ)) (deadline : Option ℕ) → IsList self.old deadlines
            → IsList self.new (slice_set deadlines place deadline) }
    {
        self.rest = rest_past(self.rest, place);
    }

    /// Sees to it that the list tells who is due now, from this place on. Answers how many children were looked at.
    pub(crate) fn settle(&mut self, due: &Due, from: usize, now: Moment) -> usize
        requires { IsList self.old due.now }
        ensures list { IsList self.new due.now }
        ensures tells { IsTrue (tells self.new.rest from now) }
        ensures looks { result ≤ length (due_from 0 now due.now) }
    {
        if tells(self.rest, from, now) {
            0
        } else {
            self.settle_anew(due, now)
        }
    }

    fn settle_anew(&mut self, due: &Due, now: Moment) -> usize
        requires { IsList self.old due.now }
        ensures list { IsList self.new due.now }
        ensures rest { self.new.rest ≡ Some (record { from = 0; at = now }) }
        ensures looks { result ≡ length (due_from 0 now due.now) }
    {
        self.looked.forget();
        due.settle(now, &mut self.looked);
        self.told = 0;
        self.rest = Some(Rest { from: 0, at: now });
        self.looked.children().len()
    }

    /// Tells the first child from this place on.
    pub(crate) fn tell(&mut self, from: usize, now: Moment) -> Option<ChildId>
        requires { IsTrue (tells self.old.rest from now) }
        ensures list { (deadlines : List (Option ℕ)) → IsList self.old deadlines
            → IsList self.new deadlines }
        ensures next { (deadlines : List (Option ℕ)) → IsList self.old deadlines
            → result ≡ next_due from now deadlines }
    {
        match first_from(self.looked.children(), self.told, from) {
            None => None,
            Some(place) => {
                let child = self.looked.children()[place];
                self.told = place + 1;
                self.rest = Some(Rest {
                    from: child.0 as usize + 1,
                    at: now,
                });
                Some(child)
            }
        }
    }
}

/// Whether what is left of a list tells who is due now, from this place on.
fn tells(rest: Option<Rest>, from: usize, now: Moment) -> bool
    ensures { result ≡ tells rest from now }
{
    match rest {
        Some(rest) => rest.from <= from && rest.at == now,
        None => false,
    }
}

/// What is left of a list where the deadline of this place changes.
fn rest_past(rest: Option<Rest>, place: usize) -> Option<Rest>
    ensures { result ≡ rest_past rest place }
{
    match rest {
        Some(rest) if rest.from > place => Some(rest),
        _ => None,
    }
}

/// The place in the list, after those that were told, of the first child from this place of the start order on.
fn first_from(children: &[ChildId], told: usize, from: usize) -> Option<usize>
    ensures { MatchOption result (next_in from (drop told children.now) ≡ None)
        (λ place. IsFirst children.now told from place) }
{
    let mut place = told;
    while place < children.len() {
        let child = children[place];
        if child.0 as usize >= from {
            return Some(place);
        }
        place += 1;
    }
    None
}
