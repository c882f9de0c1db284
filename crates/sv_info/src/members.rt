//! The members of a struct, one after the other.
ghost use Rattle.std.specs.Prelude.{◌≡◌, ◌++◌, ◌∷◌, [], IfOk, OnOk, pos};
ghost use Rattle.sv_info.specs.Info.{log_name};
ghost use Rattle.sv_info.specs.Members.{trees_by_name};
ghost use Rattle.sv_xmlcall.specs.Trees.{integer, text, view};

use std::alloc::AllocError;
use sv_base::spec::LogSpec;
use sv_base::text::Text;
use sv_xmlcall::value::Value;

/// Adds a member.
pub(crate) fn put(
    members: &mut Vec<(Text, Value)>,
    name: &'static str,
    value: Value,
) -> Result<(), AllocError>
    ensures { OnOk result (trees_by_name members.new.items
        ≡ trees_by_name members.old.items ++ (name.now, view value) ∷ []) }
{
    members.push((Text::fixed(name), value))?;
    Ok(())
}

/// Adds a member that is an integer.
pub(crate) fn put_number(
    members: &mut Vec<(Text, Value)>,
    name: &'static str,
    number: i64,
) -> Result<(), AllocError>
    ensures { OnOk result (trees_by_name members.new.items
        ≡ trees_by_name members.old.items ++ (name.now, integer number) ∷ []) }
{
    put(members, name, Value::Int(number))
}

/// Adds a member that is a text.
pub(crate) fn put_text(
    members: &mut Vec<(Text, Value)>,
    name: &'static str,
    content: Text,
) -> Result<(), AllocError>
    ensures { OnOk result (trees_by_name members.new.items
        ≡ trees_by_name members.old.items ++ (name.now, text content) ∷ []) }
{
    put(members, name, Value::Text(content))
}

/// Adds a member that is a number without a sign.
pub(crate) fn put_count(
    members: &mut Vec<(Text, Value)>,
    name: &'static str,
    number: u32,
) -> Result<(), AllocError>
    ensures { OnOk result (trees_by_name members.new.items
        ≡ trees_by_name members.old.items ++ (name.now, integer (pos number)) ∷ []) }
{
    put_number(members, name, i64::from(number))
}

/// Adds a member that is a fixed text.
pub(crate) fn put_word(
    members: &mut Vec<(Text, Value)>,
    name: &'static str,
    word: &'static str,
) -> Result<(), AllocError>
    ensures { OnOk result (trees_by_name members.new.items
        ≡ trees_by_name members.old.items ++ (name.now, text word.now) ∷ []) }
{
    put_text(members, name, Text::fixed(word))
}

/// Adds a member that is the name of a log, empty where there is none.
pub(crate) fn put_log(
    members: &mut Vec<(Text, Value)>,
    name: &'static str,
    log: &LogSpec,
) -> Result<(), AllocError>
    ensures { OnOk result (trees_by_name members.new.items
        ≡ trees_by_name members.old.items ++ (name.now, text (log_name log.now)) ∷ []) }
{
    let log = log_name(log)?;
    put_text(members, name, log)
}

fn log_name(log: &LogSpec) -> Result<Text, AllocError>
    ensures { IfOk result (λ name. name ≡ log_name log.now) }
{
    match &log.file {
        None => Ok(Text::fixed("")),
        Some(name) => name.clone(),
    }
}
