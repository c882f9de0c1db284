//! The sections of a text with those of the texts that it includes.

ghost use Rattle.std.specs.Prelude.{◌≡◌, Ok, true, IfOk, IfErr, OnOk};
ghost use Rattle.sv_sections.specs.FaultTexts.{IsFault};
ghost use Rattle.sv_sections.specs.AllSections.{with_sections, with_included, is_not_supervisor};
ghost use Rattle.sv_sections.specs.AllSections.{is_unsupported};
ghost use Rattle.sv_sections.specs.AllSections.{all_supported};
ghost use Rattle.std.specs.Option.{option_map};

use crate::fault::ConfFault;
use crate::includes::sections_in;
use crate::joined::Joined;
use std::alloc::{AllocError, Global};
use sv_base::bytes::Bytes;
use sv_base::items::Items;
use sv_base::text::Text;
use sv_ini::section::Section;
use sv_keys::titles::titled;

/// These sections with those of included texts.
pub fn with_included(
    alloc: Global,
    sections: Items<Section>,
    included: &[(Text, Bytes)],
) -> Result<Items<Section>, ConfFault>
    ensures value { IfOk result (λ value. with_included sections included.now ≡ Ok value) }
    ensures fault { IfErr result (λ fault. IsFault fault (with_included sections included.now)) }
{
    let mut all = Joined::new(alloc, sections)?;
    let mut left = included;
    while let [text, rest @ ..] = left {
        let more = sections_in(alloc, text.1.as_slice())?;
        add_sections(alloc, &mut all, more)?;
        left = rest;
    }
    Ok(all.into_sections())
}

#[tactic(auto, using(crate::proofs::Folds::sections_more))]
fn add_sections(alloc: Global, all: &mut Joined, more: Items<Section>) -> Result<(), AllocError>
    ensures { OnOk result (all.new ≡ with_sections all.old more) }
{
    for section in more.into_vec() {
        all.add(alloc, section)?;
    }
    Ok(())
}

fn is_unsupported(section: &Section) -> bool
    ensures { result ≡ is_unsupported section.now }
{
    titled("fcgi-program", section.name.as_str()).is_some()
        || is_not_supervisor(titled("rpcinterface", section.name.as_str()))
}

fn is_not_supervisor(name: Option<&str>) -> bool
    ensures { result ≡ is_not_supervisor (option_map (λ x. x.now) name.entry) }
{
    match name {
        Some(name) => name != "supervisor",
        None => false,
    }
}

/// Nothing where all sections are supported, else the first that isn't as a fault.
#[tactic(auto, unfolding(crate::specs::AllSections::all_supported))]
pub fn all_supported(sections: &[Section]) -> Result<(), ConfFault>
    ensures good { IfOk result (λ _. all_supported sections.now ≡ Ok true) }
    ensures fault { IfErr result (λ fault. IsFault fault (all_supported sections.now)) }
{
    let mut left = sections;
    while let [section, rest @ ..] = left {
        if is_unsupported(section) {
            return Err(ConfFault::Unsupported(section.name.clone()?));
        }
        left = rest;
    }
    Ok(())
}
