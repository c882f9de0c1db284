//! The reading of a configuration from a shelf.
ghost use Rattle.std.specs.Prelude.{◌≡◌, ◌≤◌, Ok, Some, None, IfOk, IfErr};
ghost use Rattle.std.specs.Option.{ForSome};
ghost use Rattle.sv_conf.specs.Configuration.{configuration_of};
ghost use Rattle.sv_out.specs.Faults.{RisesWhere};
ghost use Rattle.sv_load.specs.Loading.{Loads, AreIncluded, CantInclude, IsUnreadable};

use crate::fault::LoadFault;
use crate::listing::{each_once, names_of_all};
use crate::texts::{text_of, texts_of};
use std::alloc::Global;
use sv_base::{Bytes, Config, Host, Items, Text};
use sv_conf::config::config;
use sv_out::Shelf;
use sv_sections::includes::includes;

/// A configuration with the texts that it was read from.
#[derive(Drop)]
pub struct Loaded {
    /// The text of the main file.
    pub main: Bytes,
    /// The included texts, each with the name of its file, in the order in which they were read.
    pub included: Items<(Text, Bytes)>,
    pub config: Config,
}

/// Reads a configuration: the main file, then the names that each pattern of its `include` section lists, in order, then
/// the files of these names, each once over all patterns. A listed file that is missing when it is read is left out. A
/// fault of the main text or of its `include` section is told before any pattern is looked at, every other one when all
/// files were read.
pub fn load<S: Shelf>(
    alloc: Global,
    file: &str,
    host: &Host,
    shelf: &mut S,
) -> Result<Loaded, LoadFault>
    ensures loads { ForSome (S.files shelf.old) (λ files. Loads files file.now host.now result) }
    ensures config { IfOk result (λ loaded.
        configuration_of loaded.main loaded.included host.now ≡ Ok loaded.config) }
    ensures kept { S.files shelf.new ≡ S.files shelf.old }
    ensures cause { RisesWhere (S.faults shelf.old) (S.faults shelf.new) (IsUnreadable result) }
{
    let Some(main) = text_of(alloc, file, shelf)? else {
        return Err(LoadFault::Missing);
    };
    let included = included_in(alloc, main.as_slice(), host, shelf)?;
    let config = config(alloc, main.as_slice(), included.as_slice(), host)?;
    Ok(Loaded {
        main,
        included,
        config,
    })
}

/// The texts that a main text includes, each with the name of its file.
fn included_in<S: Shelf>(
    alloc: Global,
    main: &[u8],
    host: &Host,
    shelf: &mut S,
) -> Result<Items<(Text, Bytes)>, LoadFault>
    ensures texts { IfOk result (λ texts. ForSome (S.files shelf.old) (λ files.
        AreIncluded files host.now main.now texts)) }
    ensures fault { IfErr result (λ fault. ForSome (S.files shelf.old) (λ files.
        CantInclude files host.now main.now fault)) }
    ensures kept { S.files shelf.new ≡ S.files shelf.old }
    ensures cause { RisesWhere (S.faults shelf.old) (S.faults shelf.new) (IsUnreadable result) }
{
    let patterns = includes(alloc, main, host)?;
    let names = names_of_all(alloc, patterns.as_slice(), shelf)?;
    let names = each_once(alloc, names.as_slice())?;
    texts_of(alloc, names.as_slice(), shelf)
}
