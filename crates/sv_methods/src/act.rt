//! Starting, stopping and signalling: one process, a group, or all.
ghost use Rattle.std.specs.Prelude.{◌≡◌, ◌<◌, ℕ, IfOk, Some, None, length, map, slice_get};
ghost use Rattle.sv_groups.specs.Lookup.{found};
ghost use Rattle.sv_groups.specs.declared.lookup.Found.TheVariants.{Group};
ghost use Rattle.sv_methods.specs.Acts.{aim_of, asked_of, asks, asks_all, asks_fitting, asks_found};
ghost use Rattle.sv_methods.specs.Acts.{asks_found_group, asks_group, asks_group_named, asks_in};
ghost use Rattle.sv_methods.specs.Acts.{asks_named, asks_one, in_order, is_asked, request_for};
ghost use Rattle.sv_methods.specs.Acts.{row_for, unfit};
ghost use Rattle.sv_methods.specs.Outcomes.{outcome, refuses};
ghost use Rattle.sv_methods.specs.Processes.{group_named, is_running_state, is_signalled_state};
ghost use Rattle.sv_methods.specs.Processes.{members_of_group};
ghost use Rattle.sv_methods.specs.Scenes.{scene};
ghost use Rattle.sv_methods.specs.declared.act.Act.TheVariants as act_is;

use crate::planned::{Aim, Asked, Planned, Request, Waiting, refused_for};
use crate::stand::Stand;
use std::alloc::{AllocError, Global};
use sv_base::ids::ChildId;
use sv_base::items::Items;
use sv_base::signal::Signal;
use sv_base::state::State;
use sv_base::text::Text;
use sv_child::child::Child;
use sv_groups::{Found, Roster};
use sv_info::fault::Fault;

/// What processes are asked for.
#[derive(Clone, Copy, PartialEq, Eq)]
pub enum Act {
    Start,
    Stop,
    Signal(Signal),
}

impl Act {
    fn aim(self) -> Aim
        ensures { result ≡ aim_of self }
    {
        match self {
            Act::Start => Aim::Started,
            Act::Stop => Aim::Stopped,
            Act::Signal(_) => Aim::Signalled,
        }
    }

    fn request(self, child: ChildId) -> Request
        ensures { result ≡ request_for self child }
    {
        match self {
            Act::Start => Request::Start(child),
            Act::Stop => Request::Stop(child),
            Act::Signal(signal) => Request::Kill(child, signal),
        }
    }

    fn row(self, child: ChildId) -> Asked
        ensures { result ≡ row_for self child }
    {
        Asked {
            child: Some(child),
            aim: self.aim(),
            fault: None,
        }
    }

    /// Whether a process in this state is asked.
    fn asks_in(self, state: State) -> bool
        ensures { result ≡ asks_in self state }
    {
        match self {
            Act::Start => !is_running(state),
            Act::Stop => is_running(state),
            Act::Signal(_) => is_signalled(state),
        }
    }

    /// The fault for one process in another state.
    fn unfit(self) -> Fault
        ensures { result ≡ unfit self }
    {
        match self {
            Act::Start => Fault::AlreadyStarted,
            Act::Stop | Act::Signal(_) => Fault::NotRunning,
        }
    }
}

/// Whether a process runs in this state or is about to.
fn is_running(state: State) -> bool
    ensures { result ≡ is_running_state state }
{
    matches!(state, State::Running | State::Backoff | State::Starting)
}

/// Whether a process can be signalled in this state.
fn is_signalled(state: State) -> bool
    ensures { result ≡ is_signalled_state state }
{
    matches!(state, State::Running | State::Starting | State::Stopping)
}

fn is_asked(act: Act, children: &[Child], id: ChildId) -> bool
    ensures { result ≡ is_asked act (slice_get children.now id.0) }
{
    match children.get(id.0 as usize) {
        Some(child) => act.asks_in(child.state),
        None => false,
    }
}

/// The processes that are asked, of these.
fn asked_of(
    alloc: Global,
    act: Act,
    children: &[Child],
    ids: &[ChildId],
) -> Result<Vec<ChildId>, AllocError>
    ensures { IfOk result (λ asked. asked.items ≡ asked_of act children.now ids.now) }
{
    ids.iter()
        .copied()
        .filter(|id| is_asked(act, children, *id))
        .collect(alloc)
}

/// What stops goes in the reverse of the start order.
fn put_in_order(act: Act, ids: &mut Vec<ChildId>)
    ensures { ids.new.items ≡ in_order act ids.old.items }
{
    match act {
        Act::Stop => ids.reverse(),
        Act::Start | Act::Signal(_) => (),
    }
}

fn requests_for(alloc: Global, act: Act, ids: &[ChildId]) -> Result<Vec<Request>, AllocError>
    ensures { IfOk result (λ requests. requests.items ≡ map (request_for act) ids.now) }
{
    ids.iter().map(|id| act.request(*id)).collect(alloc)
}

fn rows_for(alloc: Global, act: Act, ids: &[ChildId]) -> Result<Vec<Asked>, AllocError>
    ensures { IfOk result (λ rows. rows.items ≡ map (row_for act) ids.now) }
{
    ids.iter().map(|id| act.row(*id)).collect(alloc)
}

/// These processes are asked, and the answer is a status array.
fn asks(
    alloc: Global,
    act: Act,
    wait: bool,
    name: Option<Text>,
    ids: &[ChildId],
) -> Result<Planned, AllocError>
    ensures { IfOk result (λ planned. outcome planned ≡ asks act wait name ids.now) }
{
    let requests = Items::from_vec(requests_for(alloc, act, ids)?);
    let rows = Items::from_vec(rows_for(alloc, act, ids)?);
    Ok(Planned::Do(
        requests,
        Waiting {
            wait,
            array: true,
            name,
            rows,
        },
    ))
}

/// Of these processes those in fitting states are asked.
fn asks_fitting(
    alloc: Global,
    act: Act,
    stand: &Stand,
    wait: bool,
    name: Option<Text>,
    ids: Vec<ChildId>,
) -> Result<Planned, AllocError>
    ensures { IfOk result (λ planned. outcome planned
        ≡ asks_fitting act (scene stand.now) wait name ids.items) }
{
    let mut ids = ids;
    put_in_order(act, &mut ids);
    let asked = asked_of(alloc, act, stand.children, ids.as_slice())?;
    asks(alloc, act, wait, name, asked.as_slice())
}

/// One process is asked.
fn asks_one(
    alloc: Global,
    act: Act,
    stand: &Stand,
    wait: bool,
    name: &Text,
    id: ChildId,
) -> Result<Planned, AllocError>
    ensures { IfOk result (λ planned. outcome planned
        ≡ asks_one act (scene stand.now) wait name.now id) }
{
    if !is_asked(act, stand.children, id) {
        return refused_for(alloc, act.unfit(), name.as_str());
    }
    let requests = Items::from_vec(vec![in alloc; act.request(id)]?);
    let rows = Items::from_vec(vec![in alloc; act.row(id)]?);
    let name = Some(name.clone()?);
    Ok(Planned::Do(
        requests,
        Waiting {
            wait,
            array: false,
            name,
            rows,
        },
    ))
}

/// The processes of a group in start order.
fn members_of_group(
    alloc: Global,
    roster: &Roster,
    group: usize,
) -> Result<Vec<ChildId>, AllocError>
    requires { group < length roster.now }
    ensures { IfOk result (λ ids. ids.items ≡ members_of_group group roster.now) }
{
    let mut ids = roster.stop_order(alloc, group)?;
    ids.reverse();
    Ok(ids)
}

/// The processes of a group are asked.
pub(crate) fn asks_group(
    alloc: Global,
    act: Act,
    stand: &Stand,
    wait: bool,
    name: &Text,
    group: usize,
) -> Result<Planned, AllocError>
    requires { group < length stand.now.roster.now }
    ensures { IfOk result (λ planned. outcome planned
        ≡ asks_group act (scene stand.now) wait name.now group) }
{
    let ids = members_of_group(alloc, stand.roster, group)?;
    let name = Some(name.clone()?);
    asks_fitting(alloc, act, stand, wait, name, ids)
}

/// What a name finds.
#[tactic(auto, using(crate::proofs::FoundLaws::group_is_there))]
pub(crate) fn find(roster: &Roster, name: &str) -> Found
    ensures value { result ≡ found name.now roster.now }
    ensures group { (group : ℕ) → result ≡ Group group → group < length roster.now }
{
    roster.find(name)
}

/// What the name of a group by itself finds: what is found for it with `:*` after it.
pub(crate) fn find_group(alloc: Global, roster: &Roster, name: &str) -> Result<Found, AllocError>
    ensures value { IfOk result (λ found. found ≡ group_named name.now roster.now) }
    ensures group { IfOk result (λ found. (group : ℕ)
        → found ≡ Group group → group < length roster.now) }
{
    let mut text = String::from_str(alloc, name)?;
    text.push_str(":*")?;
    Ok(find(roster, text.as_str()))
}

/// What was found for a name is asked.
pub(crate) fn asks_found(
    alloc: Global,
    act: Act,
    stand: &Stand,
    wait: bool,
    name: &Text,
    found: Found,
) -> Result<Planned, AllocError>
    requires { (group : ℕ) → found ≡ Group group → group < length stand.now.roster.now }
    ensures { IfOk result (λ planned. outcome planned
        ≡ asks_found act (scene stand.now) wait name.now found) }
{
    match found {
        Found::One(id) => asks_one(alloc, act, stand, wait, name, id),
        Found::Group(group) => asks_group(alloc, act, stand, wait, name, group),
        Found::Nothing => refused_for(alloc, Fault::BadName, name.as_str()),
    }
}

/// A process or a group is asked.
pub(crate) fn asks_named(
    alloc: Global,
    act: Act,
    stand: &Stand,
    wait: bool,
    name: &Text,
) -> Result<Planned, AllocError>
    ensures { IfOk result (λ planned. outcome planned
        ≡ asks_named act (scene stand.now) wait name.now) }
{
    let found = find(stand.roster, name.as_str());
    asks_found(alloc, act, stand, wait, name, found)
}

/// A group by its own name is asked.
pub(crate) fn asks_group_named(
    alloc: Global,
    act: Act,
    stand: &Stand,
    wait: bool,
    name: &Text,
) -> Result<Planned, AllocError>
    ensures { IfOk result (λ planned. outcome planned
        ≡ asks_group_named act (scene stand.now) wait name.now) }
{
    match find_group(alloc, stand.roster, name.as_str())? {
        Found::Group(group) => asks_group(alloc, act, stand, wait, name, group),
        _ => refused_for(alloc, Fault::BadName, name.as_str()),
    }
}

/// All processes are asked.
pub(crate) fn asks_all(
    alloc: Global,
    act: Act,
    stand: &Stand,
    wait: bool,
) -> Result<Planned, AllocError>
    ensures { IfOk result (λ planned. outcome planned ≡ asks_all act (scene stand.now) wait) }
{
    let ids = stand.roster.start_order(alloc)?;
    asks_fitting(alloc, act, stand, wait, None, ids)
}
