//! What comes of a call.
ghost use Rattle.std.specs.Prelude.{◌≡◌, IfOk};
ghost use Rattle.sv_methods.specs.Logs.{log_row, reads_main};
ghost use Rattle.sv_methods.specs.MethodTable.{after_params, is_here, is_shut, planned, row};
ghost use Rattle.sv_methods.specs.MethodTable.{row_if_here, text_wait_row, texts_row, wait_row};
ghost use Rattle.sv_methods.specs.Outcomes.{outcome};
ghost use Rattle.sv_methods.specs.Params.{log_in, numbers_in, text_and_wait_in, texts_in, wait_in};
ghost use Rattle.sv_methods.specs.Scenes.{scene};
ghost use Rattle.sv_xmlcall.specs.Trees.{call_view, no_tree, trees_view};

use crate::logs::{log_row, reads_main};
use crate::method::{
    LogMethod, Method, PlainMethod, TextMethod, TextWaitMethod, TextsMethod, WaitMethod,
};
use crate::params::{log_in, numbers_in, text_and_wait_in, text_in, texts_in, wait_in};
use crate::planned::{Planned, refused};
use crate::rows::{plain_row, text_row, text_wait_row, texts_row, wait_row};
use crate::stand::Stand;
use std::alloc::{AllocError, Global};
use sv_base::config::Config;
use sv_base::moment::Moment;
use sv_base::state::Mood;
use sv_info::fault::Fault;
use sv_xmlcall::call::Call;
use sv_xmlcall::value::Value;

/// What comes of a call at this moment: a value, a fault, a read of a part of a file, or requests with what ends the wait. It
/// looks and decides, and changes nothing. `system.multicall` has no plan of its own: it is refused as a call with wrong
/// parameters.
pub fn plan(alloc: Global, stand: &Stand, call: &Call, now: Moment) -> Result<Planned, AllocError>
    ensures { IfOk result (λ plan. outcome plan
        ≡ planned (scene stand.now) (call_view call.now) now) }
{
    let method = Method::named(call.method.as_str());
    let planned = row_if_here(alloc, method, stand, call.params.as_slice(), now)?;
    Ok(planned)
}

/// The row of a method that the daemon has.
fn row_if_here(
    alloc: Global,
    method: Option<Method>,
    stand: &Stand,
    params: &[Value],
    now: Moment,
) -> Result<Planned, AllocError>
    ensures { IfOk result (λ plan. outcome plan
        ≡ row_if_here method (scene stand.now) (trees_view params.now) now) }
{
    match method {
        Some(method) if is_here(stand.config, method) => row(alloc, method, stand, params, now),
        _ => Ok(refused(Fault::UnknownMethod)),
    }
}

/// Whether the daemon has the method.
fn is_here(config: &Config, method: Method) -> bool
    ensures { result ≡ is_here config.now method }
{
    config.rpc || !method.is_ours()
}

/// Whether the method is refused in this mood.
fn is_shut(method: Method, mood: Mood) -> bool
    ensures { result ≡ is_shut method mood }
{
    match mood {
        Mood::Running => false,
        _ => !method.is_always_open(),
    }
}

fn row(
    alloc: Global,
    method: Method,
    stand: &Stand,
    params: &[Value],
    now: Moment,
) -> Result<Planned, AllocError>
    ensures { IfOk result (λ plan. outcome plan
        ≡ row method (scene stand.now) (trees_view params.now) now) }
{
    match method {
        Method::Plain(method) => plain(alloc, method, stand, params, now),
        Method::OfText(method) => of_text(alloc, method, stand, params, now),
        Method::OfWait(method) => of_wait(alloc, method, stand, params),
        Method::OfTextAndWait(method) => of_text_and_wait(alloc, method, stand, params),
        Method::OfTexts(method) => of_texts(alloc, method, stand, params),
        Method::ReadLog => read_log(stand, params),
        Method::OfLog(method) => of_log(alloc, method, stand, params),
        Method::Multicall => Ok(refused(Fault::IncorrectParameters)),
    }
}

#[tactic(auto, using(crate::proofs::ParamLaws::ended_more))]
fn plain(
    alloc: Global,
    method: PlainMethod,
    stand: &Stand,
    params: &[Value],
    now: Moment,
) -> Result<Planned, AllocError>
    ensures { IfOk result (λ plan. outcome plan
        ≡ row (Method.Plain method) (scene stand.now) (trees_view params.now) now) }
{
    match params {
        [] => plain_alone(alloc, method, stand, now),
        [_, ..] => Ok(refused(Fault::IncorrectParameters)),
    }
}

fn plain_alone(
    alloc: Global,
    method: PlainMethod,
    stand: &Stand,
    now: Moment,
) -> Result<Planned, AllocError>
    ensures { IfOk result (λ plan. outcome plan
        ≡ row (Method.Plain method) (scene stand.now) no_tree now) }
{
    if is_shut(Method::Plain(method), stand.mood) {
        return Ok(refused(Fault::ShutdownState));
    }
    plain_row(alloc, method, stand, now)
}

fn of_text(
    alloc: Global,
    method: TextMethod,
    stand: &Stand,
    params: &[Value],
    now: Moment,
) -> Result<Planned, AllocError>
    ensures { IfOk result (λ plan. outcome plan
        ≡ row (Method.OfText method) (scene stand.now) (trees_view params.now) now) }
{
    match text_in(params) {
        None => Ok(refused(Fault::IncorrectParameters)),
        Some(_) if is_shut(Method::OfText(method), stand.mood) => Ok(refused(Fault::ShutdownState)),
        Some(name) => text_row(alloc, method, stand, name, now),
    }
}

fn of_wait(
    alloc: Global,
    method: WaitMethod,
    stand: &Stand,
    params: &[Value],
) -> Result<Planned, AllocError>
    ensures { IfOk result (λ plan. outcome plan
        ≡ after_params (Method.OfWait method) (scene stand.now) (wait_in (trees_view params.now))
        (λ given. wait_row method (scene stand.now) given)) }
{
    match wait_in(params) {
        None => Ok(refused(Fault::IncorrectParameters)),
        Some(_) if is_shut(Method::OfWait(method), stand.mood) => Ok(refused(Fault::ShutdownState)),
        Some(wait) => wait_row(alloc, method, stand, wait),
    }
}

fn of_text_and_wait(
    alloc: Global,
    method: TextWaitMethod,
    stand: &Stand,
    params: &[Value],
) -> Result<Planned, AllocError>
    ensures { IfOk result (λ plan. outcome plan
        ≡ after_params (Method.OfTextAndWait method) (scene stand.now)
        (text_and_wait_in (trees_view params.now))
        (λ given. text_wait_row method (scene stand.now) given.0 given.1)) }
{
    let Some((name, wait)) = text_and_wait_in(params) else {
        return Ok(refused(Fault::IncorrectParameters));
    };
    if is_shut(Method::OfTextAndWait(method), stand.mood) {
        return Ok(refused(Fault::ShutdownState));
    }
    text_wait_row(alloc, method, stand, name, wait)
}

fn of_texts(
    alloc: Global,
    method: TextsMethod,
    stand: &Stand,
    params: &[Value],
) -> Result<Planned, AllocError>
    ensures { IfOk result (λ plan. outcome plan
        ≡ after_params (Method.OfTexts method) (scene stand.now) (texts_in (trees_view params.now))
        (λ given. texts_row method (scene stand.now) given.0 given.1)) }
{
    let Some((first, second)) = texts_in(params) else {
        return Ok(refused(Fault::IncorrectParameters));
    };
    if is_shut(Method::OfTexts(method), stand.mood) {
        return Ok(refused(Fault::ShutdownState));
    }
    texts_row(alloc, method, stand, first, second)
}

fn read_log(stand: &Stand, params: &[Value]) -> Result<Planned, AllocError>
    ensures { IfOk result (λ plan. outcome plan
        ≡ after_params Method.ReadLog (scene stand.now) (numbers_in (trees_view params.now))
        (λ given. reads_main (scene stand.now) given.0 given.1)) }
{
    let Some((offset, length)) = numbers_in(params) else {
        return Ok(refused(Fault::IncorrectParameters));
    };
    if is_shut(Method::ReadLog, stand.mood) {
        return Ok(refused(Fault::ShutdownState));
    }
    reads_main(stand, offset, length)
}

fn of_log(
    alloc: Global,
    method: LogMethod,
    stand: &Stand,
    params: &[Value],
) -> Result<Planned, AllocError>
    ensures { IfOk result (λ plan. outcome plan
        ≡ after_params (Method.OfLog method) (scene stand.now) (log_in (trees_view params.now))
        (λ given. log_row method (scene stand.now) given.0 given.1 given.2)) }
{
    let Some((name, offset, length)) = log_in(params) else {
        return Ok(refused(Fault::IncorrectParameters));
    };
    if is_shut(Method::OfLog(method), stand.mood) {
        return Ok(refused(Fault::ShutdownState));
    }
    log_row(alloc, method, stand, name, offset, length)
}
