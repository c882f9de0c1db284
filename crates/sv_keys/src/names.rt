//! The names that stand in values.

ghost use Rattle.std.specs.Prelude.{◌≡◌, ◌++◌, ◌∷◌, [], IfOk, OnOk, map, codes};
ghost use Rattle.sv_keys.specs.KnownNames.{env_name, host_pairs, host_names, program_pairs};
ghost use Rattle.sv_keys.specs.KnownNames.{without_numbers, with_count, with_process};

use std::alloc::{AllocError, Global};
use sv_base::config::Host;
use sv_base::items::Items;
use sv_base::text::Text;
use sv_expand::names::{NamedTexts, Names};

/// The names of sections that are neither programs nor listeners.
pub fn host_names(alloc: Global, host: &Host) -> Result<Names, AllocError>
    ensures { IfOk result (λ names. names ≡ host_names host.now) }
{
    let mut pairs = NamedTexts::new(alloc);
    add_host(alloc, host, &mut pairs)?;
    Ok(Names {
        pairs,
        numbers: Items::new(alloc),
    })
}

/// The pairs of names of a program in a group.
pub fn program_pairs(
    alloc: Global,
    host: &Host,
    program: &str,
    group: &str,
) -> Result<NamedTexts, AllocError>
    ensures { IfOk result (λ pairs. pairs ≡ program_pairs host.now program.now group.now) }
{
    let mut pairs = NamedTexts::new(alloc);
    pairs.push((Text::fixed("program_name"), Text::from_str(alloc, program)?))?;
    pairs.push((Text::fixed("group_name"), Text::from_str(alloc, group)?))?;
    add_host(alloc, host, &mut pairs)?;
    Ok(pairs)
}

fn add_host(alloc: Global, host: &Host, pairs: &mut NamedTexts) -> Result<(), AllocError>
    ensures { OnOk result (pairs.new ≡ pairs.old ++ host_pairs host.now) }
{
    add_pair(pairs, "host_node_name", &host.name)?;
    add_pair(pairs, "here", &host.here)?;
    add_environment(alloc, host.environment.as_slice(), pairs)?;
    Ok(())
}

fn add_pair(pairs: &mut NamedTexts, name: &'static str, text: &Text) -> Result<(), AllocError>
    ensures { OnOk result (pairs.new ≡ pairs.old ++ (name.now, text.now) ∷ []) }
{
    pairs.push((Text::fixed(name), text.clone()?))?;
    Ok(())
}

fn add_environment(
    alloc: Global,
    environment: &[(Text, Text)],
    pairs: &mut NamedTexts,
) -> Result<(), AllocError>
    ensures { OnOk result (pairs.new ≡ pairs.old ++ map env_name environment.now) }
{
    let mut left = environment;
    while let [variable, rest @ ..] = left {
        pairs.push((env_name(alloc, &variable.0)?, variable.1.clone()?))?;
        left = rest;
    }
    Ok(())
}

fn env_name(alloc: Global, name: &Text) -> Result<Text, AllocError>
    ensures { IfOk result (λ text. text ≡ codes "ENV_" ++ name.now) }
{
    let name = name.as_str();
    Ok(Text::from_string(format!(in alloc; "ENV_{name}")?))
}

/// These names without numbers.
pub fn without_numbers(alloc: Global, pairs: NamedTexts) -> Names
    ensures { result ≡ without_numbers pairs }
{
    Names {
        pairs,
        numbers: Items::new(alloc),
    }
}

/// These names with the number of processes.
pub fn with_count(alloc: Global, pairs: NamedTexts, count: usize) -> Result<Names, AllocError>
    ensures { IfOk result (λ names. names ≡ with_count pairs count) }
{
    let mut numbers = Items::new(alloc);
    numbers.push((Text::fixed("numprocs"), count as u64))?;
    Ok(Names { pairs, numbers })
}

/// These names with the numbers of a process and of the processes.
pub fn with_process(
    alloc: Global,
    pairs: NamedTexts,
    count: u32,
    process: u32,
) -> Result<Names, AllocError>
    ensures { IfOk result (λ names. names ≡ with_process pairs count process) }
{
    let mut numbers = Items::new(alloc);
    numbers.push((Text::fixed("process_num"), u64::from(process)))?;
    numbers.push((Text::fixed("numprocs"), u64::from(count)))?;
    Ok(Names { pairs, numbers })
}
