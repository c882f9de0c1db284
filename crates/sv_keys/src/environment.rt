//! The environment of a process.

ghost use Rattle.std.specs.Prelude.{◌≡◌, [], IfOk, OnOk};
ghost use Rattle.sv_keys.specs.Environments.{with_variables, server_url, own_variables};
ghost use Rattle.sv_keys.specs.Environments.{environment_of};

use std::alloc::{AllocError, Global};
use std::collections::BTreeMap;
use sv_base::items::Items;
use sv_base::text::Text;

/// The environment of a process, sorted by name: what each process gets, then the daemon's pairs, then the program's
/// own. Of equal names the later one counts.
#[tactic(auto, unfolding(crate::specs::Environments::environment_of))]
pub fn environment_of(
    alloc: Global,
    group: &str,
    name: &str,
    url: Option<Text>,
    daemon: &[(Text, Text)],
    own: &[(Text, Text)],
) -> Result<Items<(Text, Text)>, AllocError>
    ensures { IfOk result (λ variables.
        variables ≡ environment_of group.now name.now url daemon.now own.now) }
{
    let first = own_variables(alloc, group, name, url)?;
    let mut variables = BTreeMap::new(alloc);
    add_all(&mut variables, first.as_slice())?;
    add_all(&mut variables, daemon)?;
    add_all(&mut variables, own)?;
    Ok(Items::from_vec(variables.into_iter().collect(alloc)?))
}

#[tactic(auto, unfolding(crate::specs::Environments::own_variables))]
fn own_variables(
    alloc: Global,
    group: &str,
    name: &str,
    url: Option<Text>,
) -> Result<Items<(Text, Text)>, AllocError>
    ensures { IfOk result (λ variables. variables ≡ own_variables group.now name.now url) }
{
    let mut variables = Items::new(alloc);
    variables.push((Text::fixed("SUPERVISOR_ENABLED"), Text::fixed("1")))?;
    variables.push((
        Text::fixed("SUPERVISOR_PROCESS_NAME"),
        Text::from_str(alloc, name)?,
    ))?;
    variables.push((
        Text::fixed("SUPERVISOR_GROUP_NAME"),
        Text::from_str(alloc, group)?,
    ))?;
    match url {
        Some(url) => variables.push((Text::fixed("SUPERVISOR_SERVER_URL"), url))?,
        None => {}
    }
    Ok(variables)
}

/// The address of a server for a program: its own, where it is set and isn't AUTO, or else the daemon's.
pub fn server_url(own: &Text, server: &Option<Text>) -> Result<Option<Text>, AllocError>
    ensures { IfOk result (λ url. url ≡ server_url own.now server.now) }
{
    if own.as_str().is_empty() || own.as_str().eq_ignore_ascii_case("auto") {
        server.clone()
    } else {
        Ok(Some(own.clone()?))
    }
}

fn add_all(variables: &mut BTreeMap<Text, Text>, more: &[(Text, Text)]) -> Result<(), AllocError>
    ensures { OnOk result (variables.new.entries ≡ with_variables variables.old.entries more.now) }
{
    for (name, value) in more {
        variables.insert(name.clone()?, value.clone()?)?;
    }
    Ok(())
}
