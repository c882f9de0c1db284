//! What a method takes.
ghost use Rattle.std.specs.Prelude.{◌≡◌};
ghost use Rattle.std.specs.Option.{option_map, option_copied};
ghost use Rattle.sv_methods.specs.Params.{ended, log_in, number_first, numbers_in};
ghost use Rattle.sv_methods.specs.Params.{text_and_wait_in, text_first, text_in, texts_in, wait_in};
ghost use Rattle.sv_xmlcall.specs.Trees.{tree, trees_view, view};

use sv_base::text::Text;
use sv_xmlcall::value::Value;

/// A text that comes first, and what follows it.
fn text_first(params: &[Value]) -> Option<(&Text, &[Value])>
    ensures { option_map (λ a. (a.0.now, trees_view a.1.now)) result
        ≡ text_first (trees_view params.now) }
{
    let [first, rest @ ..] = params else {
        return None;
    };
    match first {
        Value::Text(content) => Some((content, rest)),
        _ => None,
    }
}

/// An integer that comes first, and what follows it.
fn number_first(params: &[Value]) -> Option<(i64, &[Value])>
    ensures { option_map (λ a. (a.0, trees_view a.1.now)) result
        ≡ number_first (trees_view params.now) }
{
    let [first, rest @ ..] = params else {
        return None;
    };
    match first {
        Value::Int(number) => Some((*number, rest)),
        _ => None,
    }
}

/// Whether to wait, which may be left out and is then true.
pub(crate) fn wait_in(params: &[Value]) -> Option<bool>
    ensures { result ≡ wait_in (trees_view params.now) }
{
    match params {
        [] => Some(true),
        [first, rest @ ..] => wait_alone(first, rest),
    }
}

/// Whether to wait, where nothing follows it.
fn wait_alone(first: &Value, rest: &[Value]) -> Option<bool>
    ensures { result ≡ wait_in (tree (view first.now) (trees_view rest.now)) }
{
    match first {
        Value::Truth(wait) => wait_only(*wait, rest),
        _ => None,
    }
}

/// This, where nothing follows it.
#[tactic(auto, using(crate::proofs::ParamLaws::ended_more))]
fn wait_only(wait: bool, rest: &[Value]) -> Option<bool>
    ensures { result ≡ ended wait (trees_view rest.now) }
{
    match rest {
        [] => Some(wait),
        [_, ..] => None,
    }
}

/// A text alone.
pub(crate) fn text_in(params: &[Value]) -> Option<&Text>
    ensures { option_copied result ≡ text_in (trees_view params.now) }
{
    let Some((content, rest)) = text_first(params) else {
        return None;
    };
    text_alone(content, rest)
}

/// This text, where nothing follows it.
#[tactic(auto, using(crate::proofs::ParamLaws::ended_more))]
fn text_alone<'a>(content: &'a Text, rest: &[Value]) -> Option<&'a Text>
    ensures { option_copied result ≡ ended content.now (trees_view rest.now) }
{
    match rest {
        [] => Some(content),
        [_, ..] => None,
    }
}

/// A text and whether to wait.
pub(crate) fn text_and_wait_in(params: &[Value]) -> Option<(&Text, bool)>
    ensures { option_map (λ a. (a.0.now, a.1)) result ≡ text_and_wait_in (trees_view params.now) }
{
    let Some((content, rest)) = text_first(params) else {
        return None;
    };
    match wait_in(rest) {
        Some(wait) => Some((content, wait)),
        None => None,
    }
}

/// Two texts.
#[tactic(auto, using(crate::proofs::ParamLaws::ended_more))]
pub(crate) fn texts_in(params: &[Value]) -> Option<(&Text, &Text)>
    ensures { option_map (λ a. (a.0.now, a.1.now)) result ≡ texts_in (trees_view params.now) }
{
    let Some((first, rest)) = text_first(params) else {
        return None;
    };
    let Some((second, rest)) = text_first(rest) else {
        return None;
    };
    match rest {
        [] => Some((first, second)),
        [_, ..] => None,
    }
}

/// Two integers.
pub(crate) fn numbers_in(params: &[Value]) -> Option<(i64, i64)>
    ensures { result ≡ numbers_in (trees_view params.now) }
{
    let Some((first, rest)) = number_first(params) else {
        return None;
    };
    let Some((second, rest)) = number_first(rest) else {
        return None;
    };
    both(first, second, rest)
}

/// Two integers, where nothing follows them.
#[tactic(auto, using(crate::proofs::ParamLaws::ended_more))]
fn both(first: i64, second: i64, rest: &[Value]) -> Option<(i64, i64)>
    ensures { result ≡ ended (first, second) (trees_view rest.now) }
{
    match rest {
        [] => Some((first, second)),
        [_, ..] => None,
    }
}

/// A text and two integers.
pub(crate) fn log_in(params: &[Value]) -> Option<(&Text, i64, i64)>
    ensures { option_map (λ a. (a.0.now, a.1, a.2)) result ≡ log_in (trees_view params.now) }
{
    let Some((content, rest)) = text_first(params) else {
        return None;
    };
    match numbers_in(rest) {
        Some((offset, length)) => Some((content, offset, length)),
        None => None,
    }
}
