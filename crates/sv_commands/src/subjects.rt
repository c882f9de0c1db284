//! The names of processes and groups, as they are sent and as they are printed.
ghost use Rattle.std.specs.Prelude.{◌≡◌, ◌++◌, ◌∷◌, IfOk};
ghost use Rattle.sv_commands.specs.Subjects.{printed, printed_name, is_group, sent_name};

use std::alloc::{AllocError, Global};
use sv_base::{Text, split_name};

/// The text of a process of a group: its own name alone where the group has the same.
pub(crate) fn printed(alloc: Global, group: &Text, name: &Text) -> Result<Text, AllocError>
    ensures { IfOk result (λ text. text ≡ printed group.now name.now) }
{
    if group == name {
        return name.clone();
    }
    let group = group.as_str();
    let name = name.as_str();
    Ok(Text::from_string(format!(in alloc; "{group}:{name}")?))
}

/// The text of a name as a command gives it.
pub(crate) fn printed_name(alloc: Global, given: &Text) -> Result<Text, AllocError>
    ensures { IfOk result (λ text. text ≡ printed_name given.now) }
{
    match split_name(alloc, given.as_str())? {
        (group, None) => Ok(group),
        (group, Some(name)) => printed(alloc, &group, &name),
    }
}

/// Whether a name is that of a whole group.
pub(crate) fn is_group(alloc: Global, given: &Text) -> Result<bool, AllocError>
    ensures { IfOk result (λ group. group ≡ is_group given.now) }
{
    let (_, name) = split_name(alloc, given.as_str())?;
    Ok(name.is_none())
}

/// A name as it is sent: `g:` as `g:*`, every other as it stands.
pub(crate) fn sent_name(alloc: Global, given: &Text) -> Result<Text, AllocError>
    ensures { IfOk result (λ text. text ≡ sent_name given.now) }
{
    match split_name(alloc, given.as_str())? {
        (group, None) => {
            let group = group.as_str();
            Ok(Text::from_string(format!(in alloc; "{group}:*")?))
        }
        (_, Some(_)) => given.clone(),
    }
}
