//! Names that stand twice among the processes of a group.

ghost use Rattle.std.specs.Prelude.{◌≡◌, [], IfOk, OnOk};
ghost use Rattle.std.specs.Option.{option_map};
ghost use Rattle.std.specs.List.{list_any};
ghost use Rattle.std.specs.Str.{bytes_eq};
ghost use Rattle.sv_base.specs.declared.spec.Spec.{Spec};
ghost use Rattle.sv_conf.specs.Duplicates.{twice_at, first_twice, AddsName};

use std::alloc::{AllocError, Global};
use std::collections::HashSet;
use sv_base::spec::Spec;
use sv_base::text::Text;

/// So many processes are compared with one another; more are looked up in a set.
const FEW: usize = 16;

/// The first process that has the name of one before it.
pub fn first_twice(alloc: Global, members: &[Spec]) -> Result<Option<&Text>, AllocError>
    ensures { IfOk result (λ twice. option_map (λ x. x.now) twice ≡ first_twice [] members.now) }
{
    if members.len() <= FEW {
        return Ok(first_of_few(members));
    }
    first_of_many(alloc, members)
}

fn is_named(members: &[Spec], name: &str) -> bool
    ensures { result ≡ list_any (λ (other : Spec). bytes_eq other.name name.now) members.now }
{
    members.iter().any(|member| member.name.as_str() == name)
}

#[tactic(auto, unfolding(crate::specs::Duplicates::twice_at))]
fn twice_at<'a>(before: &[Spec], member: &'a Spec) -> Option<&'a Text>
    ensures { option_map (λ x. x.now) result ≡ twice_at before.now member.now }
{
    if is_named(before, member.name.as_str()) {
        Some(&member.name)
    } else {
        None
    }
}

/// The same by comparing each with those before it.
#[tactic(auto, using(sv_sections::proofs::Folds::taken_more, sv_sections::proofs::Folds::dropped_more))]
fn first_of_few(members: &[Spec]) -> Option<&Text>
    ensures { option_map (λ x. x.now) result ≡ first_twice [] members.now }
{
    let mut place = 0;
    let mut left = members;
    while let [member, rest @ ..] = left {
        match twice_at(&members[..place], member) {
            Some(name) => return Some(name),
            None => {}
        }
        place += 1;
        left = rest;
    }
    None
}

/// The same by a set of the names.
fn first_of_many(alloc: Global, members: &[Spec]) -> Result<Option<&Text>, AllocError>
    ensures { IfOk result (λ twice. option_map (λ x. x.now) twice ≡ first_twice [] members.now) }
{
    let mut names = HashSet::new(alloc);
    let mut place: usize = 0;
    let mut left = members;
    while let [member, rest @ ..] = left {
        let name = member.name.as_str();
        if names.contains(name) {
            return Ok(Some(&member.name));
        }
        add_name(alloc, &mut names, name)?;
        place += 1;
        left = rest;
    }
    Ok(None)
}

/// Adds a name to a set.
pub fn add_name(alloc: Global, names: &mut HashSet<String>, name: &str) -> Result<(), AllocError>
    ensures { OnOk result (AddsName names.old names.new name.now) }
{
    let name = String::from_str(alloc, name)?;
    names.insert(name)?;
    Ok(())
}
