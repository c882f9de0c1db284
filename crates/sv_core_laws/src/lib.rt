//! Laws of the machine over all lists of inputs, and of the bodies of its events. They speak of the definitions of `sv_core`, which its
//! machine keeps.
#![tactic(auto)]

pub mod bodies;

ghost use Rattle.std.specs.Prelude.{◌≡◌, ◌≤◌, List, ℕ, IfSome, true};
ghost use Rattle.sv_base.specs.declared.config.Config.{Config};
ghost use Rattle.sv_base.specs.declared.config.Host.{Host};
ghost use Rattle.sv_core_laws.specs.Account.{HoldSome, PoolsAreAccountedFor, PoolsHaveAHistory};
ghost use Rattle.sv_core.specs.Deeds.{after, deeds};
ghost use Rattle.sv_core_laws.specs.CallHistory.{CallsHaveAHistory};
ghost use Rattle.sv_core_laws.specs.HaltReplies.{RequestsAreAnswered};
ghost use Rattle.sv_core_laws.specs.LinkHistory.{LinksHaveAHistory};
ghost use Rattle.sv_core_laws.specs.LinkReplies.{RequestsGetReplies};
ghost use Rattle.sv_core_laws.specs.LogHistory.{LogsHaveAHistory};
ghost use Rattle.sv_core.specs.MachineState.{now, opening};
ghost use Rattle.sv_core_laws.specs.Path.{ChildrenWalk};
ghost use Rattle.sv_core_laws.specs.WorkedJournals.{ClockGoesBack, GroupsStopOneByOne};
ghost use Rattle.sv_core_laws.specs.WorkedJournals.{KillAtEachDeadline, NoRunNumberLeft};
ghost use Rattle.sv_core_laws.specs.WorkedJournals.{OrderNumbersBeginAgain, Rest, SpawnThatFails};
ghost use Rattle.sv_core_laws.specs.WorkedJournals.{StartsStaysUpAndExits, ThreeRetriesThenFatal};
ghost use Rattle.sv_core_laws.specs.WorkedJournals.{UpAtOnce};
ghost use Rattle.sv_core_laws.specs.Starts.{EachStartIsSpawned};
ghost use Rattle.sv_core_laws.specs.Stretch.{AllTryFewTimes, ChildrenTryFewTimes, TryFewTimes};
ghost use Rattle.sv_out.specs.declared.input.Input.{Input};

use sv_base::config::Config;
use sv_base::spec::{GroupSpec, PoolSpec, Spec};

/// Whatever the machine is told, what it reports of each child of the configuration is a path through the diagram of
/// states: the first edge leads from STOPPED, each further one from where the one before ended, the last to where the
/// child is. A report names its child by the names of its group and of itself, which no other child shares.
pub fn reports_are_a_path(config: &Config)
    ensures { (sizes : List (List ℕ × ℕ)) (host : Host) (inputs : List Input) →
        ChildrenWalk config.now (after (opening config.now sizes host) inputs)
        (deeds (opening config.now sizes host) inputs) }
{
    let _groups = config.groups.as_slice();
}

/// Whatever the machine is told, no event pool of the configuration loses an event: as long as a pool took fewer than
/// 2^64 of them, each waits, is held by one of its listeners, was acknowledged, dropped or given up, and stands there once.
/// What it dropped is what the deeds report of it, in order, by the name of its group, which no other pool shares. Each
/// event that a listener got is the one that waited first, and is written to its run in its envelope; nothing else is.
pub fn each_event_is_accounted_for(config: &Config)
    ensures places { (sizes : List (List ℕ × ℕ)) (host : Host) (inputs : List Input) →
        PoolsAreAccountedFor config.now (after (opening config.now sizes host) inputs)
        (deeds (opening config.now sizes host) inputs) }
    ensures history { (sizes : List (List ℕ × ℕ)) (host : Host) (inputs : List Input) →
        PoolsHaveAHistory config.now (after (opening config.now sizes host) inputs)
        (deeds (opening config.now sizes host) inputs) }
{
    have_room(config.groups.as_slice());
}

/// Whatever the machine is told, its orders about files are those of pieces that were logged, each to its log, and of files that
/// were cleared for a client or weren't there, one after the other, where the first known sizes are those that were told, and 0
/// for each further log file of the configuration. `sv_logs::known` says what these make of the files.
pub fn each_log_has_a_history()
    ensures { (config : Config) (sizes : List (List ℕ × ℕ)) (host : Host) (inputs : List Input) →
        LogsHaveAHistory config sizes (after (opening config sizes host) inputs)
        (deeds (opening config sizes host) inputs) }
{}

/// Whatever the machine is told, each of its orders to links tells of what was done with a link, in order: that it was
/// opened, by the next number, that its request in hand was answered, that it got More where that was due, and that the
/// daemon ended it. What becomes of the links is what these deeds make of them, and nothing else is sent to a client.
pub fn each_link_has_a_history()
    ensures { (config : Config) (sizes : List (List ℕ × ℕ)) (host : Host) (inputs : List Input) →
        LinksHaveAHistory (after (opening config sizes host) inputs)
        (deeds (opening config sizes host) inputs) }
{}

/// Whatever the machine is told, what it sends on a link are the replies to the first requests of the link, in order, one to
/// each; while the link is open, to all that were begun but the one in hand. None is sent after one that closes the link,
/// and none by a number that no link has.
pub fn each_request_gets_one_reply()
    ensures { (config : Config) (sizes : List (List ℕ × ℕ)) (host : Host)
        (inputs : List Input) (number : ℕ) →
        RequestsGetReplies number (after (opening config sizes host) inputs)
        (deeds (opening config sizes host) inputs) }
{}

/// Whatever the machine is told, at its halt every link is over, and each request of a link has its one reply, in order, unless the
/// client ended the link, an order to it failed, the reply before closes it, or a call of it still waits.
pub fn each_request_is_answered_at_the_halt()
    ensures { (config : Config) (sizes : List (List ℕ × ℕ)) (host : Host)
        (inputs : List Input) (number : ℕ) →
        let m = after (opening config sizes host) inputs in
        (now m).course.halted ≡ true
        → RequestsAreAnswered number m (deeds (opening config sizes host) inputs) }
{}

/// Whatever the machine is told, what it sends to clients are the replies to their calls: each call is begun, its parts and its requests
/// are, it is set back, waits and is answered, one thing after the other, and the calls in hand are those after these. A call that
/// waits is answered once each process that it started has left STARTING: between a report that it is STARTING and the reply stands
/// another report of it.
pub fn each_call_has_a_history(config: &Config)
    ensures { (sizes : List (List ℕ × ℕ)) (host : Host) (inputs : List Input) →
        CallsHaveAHistory config.now (after (opening config.now sizes host) inputs)
        (deeds (opening config.now sizes host) inputs) }
{
    let _groups = config.groups.as_slice();
}

/// Whatever the machine is told, a process is tried few times: of the edges of a child that are reported one after the other and all end
/// in STARTING or BACKOFF, at most one more than its `startretries` lead into STARTING, whatever the clock does.
pub fn each_child_is_tried_few_times(config: &Config)
    ensures { (sizes : List (List ℕ × ℕ)) (host : Host) (inputs : List Input) →
        ChildrenTryFewTimes config.now (deeds (opening config.now sizes host) inputs) }
{
    all_try_few_times(config.groups.as_slice());
}

/// Each process of these groups is tried again at most 1,000,000 times.
fn all_try_few_times(groups: &[GroupSpec])
    ensures { AllTryFewTimes groups.now }
{
    match groups {
        [] => {}
        [group, rest @ ..] => {
            try_few_times(group.members.as_slice());
            all_try_few_times(rest);
        }
    }
}

/// Each of these processes is.
fn try_few_times(processes: &[Spec])
    ensures { TryFewTimes processes.now }
{
    match processes {
        [] => {}
        [process, rest @ ..] => {
            let _retries = process.startretries.get();
            try_few_times(rest);
        }
    }
}

/// Whatever the machine is told, each process that is reported to be STARTING is spawned, and no other, one after the other, as long as
/// a number is left for a run, which are 4,294,967,295.
pub fn each_start_is_spawned()
    ensures { (config : Config) (sizes : List (List ℕ × ℕ)) (host : Host) (inputs : List Input) →
        EachStartIsSpawned (deeds (opening config sizes host) inputs) }
{}

/// The pool of each of these groups has room for an event.
fn have_room(groups: &[GroupSpec])
    ensures { HoldSome groups.now }
{
    match groups {
        [] => {}
        [group, rest @ ..] => {
            has_room(&group.pool);
            have_room(rest);
        }
    }
}

/// A pool has room for an event.
fn has_room(pool: &Option<PoolSpec>)
    ensures { IfSome pool.now (λ pool. 1 ≤ pool.buffer) }
{
    if let Some(pool) = pool {
        let _room = pool.buffer.get();
    }
}

/// The orders are only ever added to: the deeds of the inputs are all that was given in the end.
pub fn orders_are_only_added()
    ensures { (config : Config) (sizes : List (List ℕ × ℕ)) (host : Host) (inputs : List Input) →
        let m = opening config sizes host in
        (now (after m inputs)).given ≡ deeds m inputs }
{}

/// Journals that were worked out by hand give the deeds that they should.
pub fn worked_journals()
    ensures starts_stays_up_and_exits { (rest : Rest) → StartsStaysUpAndExits rest }
    ensures three_retries_then_fatal { (rest : Rest) → ThreeRetriesThenFatal rest }
    ensures up_at_once { (rest : Rest) → UpAtOnce rest }
    ensures clock_goes_back { (rest : Rest) → ClockGoesBack rest }
    ensures kill_at_each_deadline { (rest : Rest) → KillAtEachDeadline rest }
    ensures spawn_that_fails { (rest : Rest) → SpawnThatFails rest }
    ensures groups_stop_one_by_one { (rest : Rest) → GroupsStopOneByOne rest }
    ensures no_run_number_left { (rest : Rest) → NoRunNumberLeft rest }
    ensures order_numbers_begin_again { (rest : Rest) → OrderNumbersBeginAgain rest }
{}
