//! The steps of the commands, as the table of `specs/Commands.antt` has them.
ghost use Rattle.std.specs.Prelude.{◌≡◌, ◌++◌, ◌∷◌, [], Some, None, IfOk, OnOk, true};
ghost use Rattle.std.specs.Option.{option_copied, option_map};
ghost use Rattle.sv_commands.specs.Commands.{act_on_each, alone, count_of, digits_from, is_option};
ghost use Rattle.sv_commands.specs.Commands.{log_end, main_end, of_some, pid_of, reading};
ghost use Rattle.sv_commands.specs.Commands.{restarted, shutdown, signalled, status_of, step_view};
ghost use Rattle.sv_commands.specs.Commands.{steps_by, steps_of, steps_view, tail_by, tail_of};
ghost use Rattle.sv_commands.specs.Commands.{version};

use crate::act::Act;
use crate::calls::{act_on, asked, last_bytes, last_bytes_of, one_name};
use crate::step::{Show, Step};
use crate::subjects::sent_name;
use crate::verb::Verb;
use std::alloc::{AllocError, Global};
use sv_base::{Items, Text};

/// The calls of a command's words, in order, each with how its answer is shown; none exactly where the words are no
/// command.
pub fn steps_of(alloc: Global, words: &[Text]) -> Result<Option<Items<Step>>, AllocError>
    ensures { IfOk result (λ steps. option_map steps_view steps ≡ steps_of words.now) }
{
    let [word, words @ ..] = words else {
        return Ok(None);
    };
    match Verb::of(word.as_str()) {
        Some(verb) => steps_by(alloc, verb, words),
        None => Ok(None),
    }
}

fn steps_by(alloc: Global, verb: Verb, words: &[Text]) -> Result<Option<Items<Step>>, AllocError>
    ensures { IfOk result (λ steps. option_map steps_view steps ≡ steps_by verb words.now) }
{
    match verb {
        Verb::Status => Ok(Some(status_of(alloc, words)?)),
        Verb::Start => act_on_some(alloc, Act::Start, None, words),
        Verb::Stop => act_on_some(alloc, Act::Stop, None, words),
        Verb::Restart => restarted(alloc, words),
        Verb::Signal => signalled(alloc, words),
        Verb::Clear => act_on_some(alloc, Act::Clear, None, words),
        Verb::Tail => tail_of(alloc, words),
        Verb::MainTail => alone(alloc, main_end(alloc)?, words),
        Verb::Pid => pid_of(alloc, words),
        Verb::Version => alone(alloc, version(alloc), words),
        Verb::Shutdown => alone(alloc, shutdown(alloc), words),
    }
}

/// One step, where there are no further words.
fn alone(alloc: Global, step: Step, words: &[Text]) -> Result<Option<Items<Step>>, AllocError>
    ensures { IfOk result (λ steps.
        option_map steps_view steps ≡ alone (step_view step) words.now) }
{
    match words {
        [] => Ok(Some(one_step(alloc, step)?)),
        _ => Ok(None),
    }
}

fn one_step(alloc: Global, step: Step) -> Result<Items<Step>, AllocError>
    ensures { IfOk result (λ steps. steps_view steps ≡ step_view step ∷ []) }
{
    let mut steps = Items::new(alloc);
    steps.push(step)?;
    Ok(steps)
}

/// The table of processes.
fn status_of(alloc: Global, names: &[Text]) -> Result<Items<Step>, AllocError>
    ensures { IfOk result (λ steps. steps_view steps ≡ status_of names.now) }
{
    let names = copied(alloc, names)?;
    let step = asked(
        "supervisor.getAllProcessInfo",
        Vec::new(alloc),
        None,
        Show::Table(names),
        true,
    );
    one_step(alloc, step)
}

fn copied(alloc: Global, names: &[Text]) -> Result<Items<Text>, AllocError>
    ensures { IfOk result (λ copy. copy ≡ names.now) }
{
    let mut copy = Items::new(alloc);
    let mut left = names;
    while let [name, rest @ ..] = left {
        copy.push(name.clone()?)?;
        left = rest;
    }
    Ok(copy)
}

/// What is asked to act on names, which have to be there.
#[tactic(auto, using(crate::proofs::StepLists::of_names))]
fn act_on_some(
    alloc: Global,
    act: Act,
    signal: Option<&Text>,
    names: &[Text],
) -> Result<Option<Items<Step>>, AllocError>
    ensures { IfOk result (λ steps.
        option_map steps_view steps
        ≡ of_some (act_on_each act (option_copied signal.entry) true) names.now) }
{
    if names.is_empty() {
        return Ok(None);
    }
    Ok(Some(act_on_each(alloc, act, signal, true, names)?))
}

/// What is asked to act on each name, in order.
fn act_on_each(
    alloc: Global,
    act: Act,
    signal: Option<&Text>,
    counts: bool,
    names: &[Text],
) -> Result<Items<Step>, AllocError>
    ensures { IfOk result (λ steps.
        steps_view steps ≡ act_on_each act (option_copied signal.entry) counts names.now) }
{
    let mut steps = Items::new(alloc);
    add_each(alloc, &mut steps, act, signal, counts, names)?;
    Ok(steps)
}

fn add_each(
    alloc: Global,
    steps: &mut Items<Step>,
    act: Act,
    signal: Option<&Text>,
    counts: bool,
    names: &[Text],
) -> Result<(), AllocError>
    ensures { OnOk result (steps_view steps.new
        ≡ steps_view steps.old ++ act_on_each act (option_copied signal.entry) counts names.now) }
{
    let mut left = names;
    while let [name, rest @ ..] = left {
        steps.push(act_on(alloc, act, signal, counts, name)?)?;
        left = rest;
    }
    Ok(())
}

/// The names are stopped, then started; only a start counts.
#[tactic(auto, using(crate::proofs::StepLists::of_names))]
fn restarted(alloc: Global, names: &[Text]) -> Result<Option<Items<Step>>, AllocError>
    ensures { IfOk result (λ steps. option_map steps_view steps ≡ of_some restarted names.now) }
{
    if names.is_empty() {
        return Ok(None);
    }
    let mut steps = act_on_each(alloc, Act::Stop, None, false, names)?;
    add_each(alloc, &mut steps, Act::Start, None, true, names)?;
    Ok(Some(steps))
}

/// A signal, then names.
fn signalled(alloc: Global, words: &[Text]) -> Result<Option<Items<Step>>, AllocError>
    ensures { IfOk result (λ steps. option_map steps_view steps ≡ signalled words.now) }
{
    match words {
        [signal, names @ ..] => act_on_some(alloc, Act::Signal, Some(signal), names),
        [] => Ok(None),
    }
}

/// The daemon's process number, or that of a process.
fn pid_of(alloc: Global, words: &[Text]) -> Result<Option<Items<Step>>, AllocError>
    ensures { IfOk result (λ steps. option_map steps_view steps ≡ pid_of words.now) }
{
    match words {
        [] => {
            let step = asked(
                "supervisor.getPID",
                Vec::new(alloc),
                None,
                Show::Number,
                true,
            );
            Ok(Some(one_step(alloc, step)?))
        }
        [name] => {
            let params = one_name(alloc, sent_name(alloc, name)?)?;
            let name = Some(name.clone()?);
            let step = asked("supervisor.getProcessInfo", params, name, Show::Pid, true);
            Ok(Some(one_step(alloc, step)?))
        }
        _ => Ok(None),
    }
}

/// The end of a process's log: of 1,600 bytes where no count is told.
fn tail_of(alloc: Global, words: &[Text]) -> Result<Option<Items<Step>>, AllocError>
    ensures { IfOk result (λ steps. option_map steps_view steps ≡ tail_of words.now) }
{
    let [word, rest @ ..] = words else {
        return Ok(None);
    };
    match word.as_str().as_bytes() {
        [b'-', digits @ ..] => tail_by(alloc, count_of(digits), rest),
        _ => tail_by(alloc, Some(1_600), words),
    }
}

/// A name, and a stream where it is told.
fn tail_by(
    alloc: Global,
    count: Option<u32>,
    words: &[Text],
) -> Result<Option<Items<Step>>, AllocError>
    ensures { IfOk result (λ steps. option_map steps_view steps ≡ tail_by count words.now) }
{
    match words {
        [name] => log_end(alloc, name, count, reading("stdout")),
        [name, stream] => log_end(alloc, name, count, reading(stream.as_str())),
        _ => Ok(None),
    }
}

fn log_end(
    alloc: Global,
    name: &Text,
    count: Option<u32>,
    method: Option<&'static str>,
) -> Result<Option<Items<Step>>, AllocError>
    ensures { IfOk result (λ steps. option_map steps_view steps
        ≡ log_end name.now count (option_copied method.entry)) }
{
    let Some(count) = count else {
        return Ok(None);
    };
    let Some(method) = method else {
        return Ok(None);
    };
    let params = last_bytes_of(alloc, sent_name(alloc, name)?, count)?;
    let step = asked(method, params, Some(name.clone()?), Show::Log, true);
    Ok(Some(one_step(alloc, step)?))
}

/// The method that reads the log of a stream.
fn reading(stream: &str) -> Option<&'static str>
    ensures { option_map (λ method. method.now) result ≡ reading stream.now }
{
    if stream == "stdout" {
        Some("supervisor.readProcessStdoutLog")
    } else if stream == "stderr" {
        Some("supervisor.readProcessStderrLog")
    } else {
        None
    }
}

/// A count of bytes: digits without leading zeros, a number from 1 to 2,147,483,647.
fn count_of(digits: &[u8]) -> Option<u32>
    ensures { result ≡ count_of digits.now }
{
    match digits {
        [first, ..] if *first != b'0' => number_of(digits),
        _ => None,
    }
}

/// The number of decimal digits, where it is at most 2,147,483,647.
fn number_of(digits: &[u8]) -> Option<u32>
    ensures { result ≡ digits_from 0 digits.now }
{
    let mut number = 0u32;
    let mut left = digits;
    while let [digit, rest @ ..] = left {
        if !digit.is_ascii_digit() {
            return None;
        }
        let longer = 10 * u64::from(number) + u64::from(*digit - b'0');
        if longer > 2_147_483_647 {
            return None;
        }
        number = longer as u32;
        left = rest;
    }
    Some(number)
}

/// The end of the daemon's log.
fn main_end(alloc: Global) -> Result<Step, AllocError>
    ensures { IfOk result (λ step. step_view step ≡ main_end) }
{
    let params = last_bytes(alloc, 1_600)?;
    Ok(asked("supervisor.readLog", params, None, Show::Log, true))
}

fn version(alloc: Global) -> Step
    ensures { step_view result ≡ version }
{
    asked(
        "supervisor.getSupervisorVersion",
        Vec::new(alloc),
        None,
        Show::Version,
        true,
    )
}

fn shutdown(alloc: Global) -> Step
    ensures { step_view result ≡ shutdown }
{
    asked(
        "supervisor.shutdown",
        Vec::new(alloc),
        None,
        Show::ShutDown,
        true,
    )
}
