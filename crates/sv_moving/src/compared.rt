//! Where the two readings of a configuration differ.
ghost use Rattle.std.specs.Prelude.{◌≡◌, ◌++◌, IfOk, OnOk};
ghost use Rattle.std.specs.List.{flat_map};
ghost use Rattle.std.specs.Option.{option_map};
ghost use Rattle.sv_moving.specs.Differences.{is_same, said_of, differs_there, only_here};
ghost use Rattle.sv_moving.specs.Differences.{differences};

use crate::meaning::Meaning;
use std::alloc::{AllocError, Global};
use sv_base::{Items, Text};

/// A difference of the two readings.
#[derive(Drop)]
pub enum Difference {
    /// A section or a key that Supervisor reads, and this project doesn't.
    OnlyThere(Meaning),
    /// A section or a key that this project reads, and Supervisor doesn't.
    OnlyHere(Meaning),
    /// A key that has this meaning in Supervisor, and this value here.
    Changed(Meaning, Text),
}

/// Where the two readings differ: each section and each key that only one of them has, and each key that has two
/// values; those of Supervisor's reading first, each in order of first appearance.
pub fn differences(
    alloc: Global,
    there: &[Meaning],
    here: &[Meaning],
) -> Result<Items<Difference>, AllocError>
    ensures { IfOk result (λ told. told ≡ differences there.now here.now) }
{
    let mut told = Items::new(alloc);
    tell_there(&mut told, there, here)?;
    tell_here(&mut told, there, here)?;
    Ok(told)
}

fn tell_there(
    told: &mut Items<Difference>,
    there: &[Meaning],
    here: &[Meaning],
) -> Result<(), AllocError>
    ensures { OnOk result (told.new ≡ told.old ++ flat_map (differs_there here.now) there.now) }
{
    let mut left = there;
    while let [meaning, rest @ ..] = left {
        tell_against(told, meaning, here)?;
        left = rest;
    }
    Ok(())
}

fn tell_against(
    told: &mut Items<Difference>,
    meaning: &Meaning,
    here: &[Meaning],
) -> Result<(), AllocError>
    ensures { OnOk result (told.new ≡ told.old ++ differs_there here.now meaning.now) }
{
    match said_of(meaning, here) {
        None => told.push(Difference::OnlyThere(meaning.clone()?)),
        Some(other) if meaning.value.as_str() == other.value.as_str() => Ok(()),
        Some(other) => told.push(Difference::Changed(meaning.clone()?, other.value.clone()?)),
    }
}

fn tell_here(
    told: &mut Items<Difference>,
    there: &[Meaning],
    here: &[Meaning],
) -> Result<(), AllocError>
    ensures { OnOk result (told.new ≡ told.old ++ flat_map (only_here there.now) here.now) }
{
    let mut left = here;
    while let [meaning, rest @ ..] = left {
        tell_alone(told, meaning, there)?;
        left = rest;
    }
    Ok(())
}

fn tell_alone(
    told: &mut Items<Difference>,
    meaning: &Meaning,
    there: &[Meaning],
) -> Result<(), AllocError>
    ensures { OnOk result (told.new ≡ told.old ++ only_here there.now meaning.now) }
{
    match said_of(meaning, there) {
        None => told.push(Difference::OnlyHere(meaning.clone()?)),
        Some(_) => Ok(()),
    }
}

/// What is said of the key of which this meaning speaks.
fn said_of<'a>(meaning: &Meaning, meanings: &'a [Meaning]) -> Option<&'a Meaning>
    ensures { option_map (λ m. m.now) result ≡ said_of meaning.now meanings.now }
{
    let mut left = meanings;
    while let [other, rest @ ..] = left {
        if is_same(meaning, other) {
            return Some(other);
        }
        left = rest;
    }
    None
}

/// Whether both speak of the same key of the same section.
fn is_same(one: &Meaning, other: &Meaning) -> bool
    ensures { result ≡ is_same one.now other.now }
{
    one.section.as_str() == other.section.as_str() && one.key.as_str() == other.key.as_str()
}
