//! The calls that a value asks for.
ghost use Rattle.std.specs.Prelude.{◌≡◌, IfErr, IfOk, Some};
ghost use Rattle.std.specs.Option.{option_copied, option_map};
ghost use Rattle.sv_multi.specs.MultiCall.{IsRefused, bad_part, call_of, called_with, member_named};
ghost use Rattle.sv_multi.specs.MultiCall.{part_in, part_of, parts_in, parts_of};
ghost use Rattle.sv_multi.specs.Views.{part_view, parts_view};
ghost use Rattle.sv_xmlcall.specs.Trees.{view, trees_view, members_view};

use crate::copy::copied_values;
use crate::fault::MultiFault;
use crate::part::Part;
use std::alloc::{AllocError, Global};
use sv_base::text::Text;
use sv_xmlcall::call::Call;
use sv_xmlcall::value::Value;

/// The calls that the value of `system.multicall` asks for, in their order. A struct without a method's name, with params
/// that aren't an array, or that asks for several calls in turn, is the fault 2 in its place. Of members of one name the
/// first counts, and absent params are empty. `NotParts` exactly where the value isn't an array of structs.
pub fn parts(alloc: Global, value: &Value) -> Result<Vec<Part>, MultiFault>
    ensures parts { IfOk result (λ given. parts_of (view value.now)
        ≡ Some (parts_view given.items)) }
    ensures refused { IfErr result (IsRefused (parts_of (view value.now))) }
{
    match value {
        Value::Array(values) => parts_in(alloc, values),
        _ => Err(MultiFault::NotParts),
    }
}

fn parts_in(alloc: Global, values: &[Value]) -> Result<Vec<Part>, MultiFault>
    ensures parts { IfOk result (λ given. parts_in (trees_view values.now)
        ≡ Some (parts_view given.items)) }
    ensures refused { IfErr result (IsRefused (parts_in (trees_view values.now))) }
{
    let mut parts = Vec::new(alloc);
    for value in values {
        parts.push(part_in(alloc, value)?)?;
    }
    Ok(parts)
}

/// The part that a value is, or `NotParts` exactly where it isn't a struct.
fn part_in(alloc: Global, value: &Value) -> Result<Part, MultiFault>
    ensures part { IfOk result (λ part. part_in (view value.now) ≡ Some (part_view part)) }
    ensures refused { IfErr result (λ fault. fault ≡ MultiFault.NotParts
        → part_in (view value.now) ≡ None) }
{
    match value {
        Value::Struct(members) => Ok(part_of(alloc, members)?),
        _ => Err(MultiFault::NotParts),
    }
}

/// The part that a struct of these members is.
fn part_of(alloc: Global, members: &Vec<(Text, Value)>) -> Result<Part, AllocError>
    ensures { IfOk result (λ part. part_view part ≡ part_of (members_view members.now.items)) }
{
    match member(members, "methodName") {
        Some(Value::Text(method)) => called_with(alloc, method, member(members, "params")),
        _ => Ok(bad_part()),
    }
}

fn called_with(alloc: Global, method: &Text, params: Option<&Value>) -> Result<Part, AllocError>
    ensures { IfOk result (λ part. part_view part
        ≡ called_with method.now (option_map view (option_copied params.entry))) }
{
    match params {
        None => call_of(method, Vec::new(alloc)),
        Some(Value::Array(params)) => call_of(method, copied_values(alloc, params)?),
        Some(_) => Ok(bad_part()),
    }
}

/// The call of this method, unless it asks for several calls in turn.
fn call_of(method: &Text, params: Vec<Value>) -> Result<Part, AllocError>
    ensures { IfOk result (λ part. part_view part ≡ call_of method.now (trees_view params.items)) }
{
    if method.as_str() == "system.multicall" {
        return Ok(bad_part());
    }
    let method = method.clone()?;
    Ok(Part::Call(Call { method, params }))
}

fn bad_part() -> Part
    ensures { part_view result ≡ bad_part }
{
    Part::Fault(2, Text::fixed("INCORRECT_PARAMETERS"))
}

/// The value of the first member of this name.
fn member<'a>(members: &'a [(Text, Value)], name: &str) -> Option<&'a Value>
    ensures { option_map view (option_copied result)
        ≡ member_named name.now (members_view members.now) }
{
    let mut left = members;
    while let [(own, value), rest @ ..] = left {
        if own.as_str() == name {
            return Some(value);
        }
        left = rest;
    }
    None
}
