//! Copies of values.
ghost use Rattle.std.specs.Prelude.{◌≡◌, IfOk, map};
ghost use Rattle.sv_xmlcall.specs.Trees.{view};
ghost use Rattle.sv_multi.specs.Views.{trees_by_name};

use std::alloc::{AllocError, Global};
use sv_base::text::Text;
use sv_xmlcall::value::Value;

/// A copy of a value.
#[cycle(copy)]
fn copied(alloc: Global, value: &Value) -> Result<Value, AllocError>
    ensures { IfOk result (λ copy. view copy ≡ view value.now) }
{
    match value {
        Value::Int(number) => Ok(Value::Int(*number)),
        Value::Truth(truth) => Ok(Value::Truth(*truth)),
        Value::Text(text) => Ok(Value::Text(text.clone()?)),
        Value::Other(form, content) => Ok(Value::Other(form.clone()?, content.clone()?)),
        Value::Struct(members) => Ok(Value::Struct(copied_members(alloc, members)?)),
        Value::Array(values) => Ok(Value::Array(copied_values(alloc, values)?)),
    }
}

/// A copy of these values, in their order.
#[cycle(copy)]
pub(crate) fn copied_values(alloc: Global, values: &Vec<Value>) -> Result<Vec<Value>, AllocError>
    ensures { IfOk result (λ copies. map view copies.items ≡ map view values.now.items) }
{
    let mut copies = Vec::new(alloc);
    for value in values {
        copies.push(copied(alloc, value)?)?;
    }
    Ok(copies)
}

#[cycle(copy)]
fn copied_members(
    alloc: Global,
    members: &Vec<(Text, Value)>,
) -> Result<Vec<(Text, Value)>, AllocError>
    ensures { IfOk result (λ copies. trees_by_name copies.items ≡ trees_by_name members.now.items) }
{
    let mut copies = Vec::new(alloc);
    for (name, value) in members {
        copies.push((name.clone()?, copied(alloc, value)?))?;
    }
    Ok(copies)
}
