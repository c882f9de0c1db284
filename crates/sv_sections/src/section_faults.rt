//! A key's fault with the name of its section.

ghost use Rattle.std.specs.Prelude.{◌≡◌, Ok, true, IfOk, IfErr};
ghost use Rattle.sv_sections.specs.FaultTexts.{IsFault};
ghost use Rattle.sv_sections.specs.SectionFaults.{section_fault, or_missing, check_name};

use crate::fault::ConfFault;
use std::alloc::{AllocError, Global};
use sv_base::text::Text;
use sv_keys::judged::{Cause, KeyFault};
use sv_keys::key::Key;
use sv_keys::server_keys::is_set;
use sv_keys::titles::is_name;

/// The fault of a key as that of a whole configuration.
pub fn section_fault(alloc: Global, section: &str, fault: KeyFault) -> Result<ConfFault, AllocError>
    ensures { IfOk result (λ told. told ≡ section_fault section.now fault) }
{
    let section = Text::from_str(alloc, section)?;
    let key = Text::fixed(fault.key.name());
    match fault.cause {
        Cause::Expand => Ok(ConfFault::Expand(section, key)),
        Cause::BadValue => Ok(ConfFault::BadValue(section, key)),
    }
}

/// Nothing where a key stands in its section, else the fault that it is missing.
pub fn must_have(
    alloc: Global,
    section: &str,
    key: Key,
    keys: &[(Text, Text)],
) -> Result<(), ConfFault>
    ensures there { IfOk result (λ _. or_missing section.now key keys.now ≡ Ok keys.now) }
    ensures fault { IfErr result (λ fault. IsFault fault (or_missing section.now key keys.now)) }
{
    if is_set(key, keys) {
        return Ok(());
    }
    Err(ConfFault::Missing(Text::from_str(alloc, section)?, Text::fixed(key.name())))
}

/// Nothing where the name in a section's title may be a name, else the fault that it may not.
pub fn check_name(alloc: Global, title: &str, name: &str) -> Result<(), ConfFault>
    ensures good { IfOk result (λ _. check_name title.now name.now ≡ Ok true) }
    ensures fault { IfErr result (λ fault. IsFault fault (check_name title.now name.now)) }
{
    if is_name(name) {
        return Ok(());
    }
    Err(ConfFault::BadValue(Text::from_str(alloc, title)?, Text::fixed("name")))
}
