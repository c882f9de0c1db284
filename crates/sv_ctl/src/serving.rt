//! The server that the options and the configuration name.
ghost use Rattle.std.specs.Prelude.{◌≡◌, ◌≤◌};
ghost use Rattle.std.specs.Option.{ForSome};
ghost use Rattle.sv_out.specs.Faults.{RisesWhere};
ghost use Rattle.sv_ctl.specs.Ask.ServerUrl.{place_of};
ghost use Rattle.sv_load.specs.Loading as load;
ghost use Rattle.sv_ctl.specs.Serving.{EndsUnreadable, Freely, Reads, Serves, chosen, client_in};
ghost use Rattle.sv_ctl.specs.Serving.{default_client, server_at, with_options};

use crate::ask::place_of;
use crate::refusal::Refusal;
use crate::talk::Server;
use crate::{Options, options_of};
use std::alloc::Global;
use sv_base::{ClientSpec, Host, Text};
use sv_load::{LoadFault, Loaded, load};
use sv_out::Shelf;

/// The server that the words of the options name, with the configuration that they name. The refusals are tried in this
/// order: the words, the file of `-c`, the URL. `Unreadable` comes only where the shelf's count of faults rose.
#[tactic(auto, using(crate::proofs::Free::freely_from, crate::proofs::Free::freely))]
pub fn server_of<S: Shelf>(
    alloc: Global,
    words: &[Text],
    host: &Host,
    shelf: &mut S,
) -> Result<Server, Refusal>
    ensures serves { ForSome (S.files shelf.old)
        (λ files. Freely (Serves files host.now words.now) result) }
    ensures cause { RisesWhere (S.faults shelf.old) (S.faults shelf.new) (EndsUnreadable result) }
{
    match options_of(alloc, words)? {
        Some(options) => {
            let client = client_of(alloc, &options.file, host, shelf)?;
            server_at(alloc, with_options(options, client))
        }
        None => Err(Refusal::Words),
    }
}

/// What the client is told by the configuration file, where one is named.
#[tactic(auto, using(crate::proofs::Free::freely_from, crate::proofs::Free::freely))]
fn client_of<S: Shelf>(
    alloc: Global,
    file: &Option<Text>,
    host: &Host,
    shelf: &mut S,
) -> Result<ClientSpec, Refusal>
    ensures reads { ForSome (S.files shelf.old)
        (λ files. Freely (Reads files host.now file.now) result) }
    ensures cause { RisesWhere (S.faults shelf.old) (S.faults shelf.new) (EndsUnreadable result) }
{
    match file {
        Some(file) => client_in(file, load(alloc, file.as_str(), host, shelf)),
        None => Ok(default_client()),
    }
}

fn default_client() -> ClientSpec
    ensures { result ≡ default_client }
{
    ClientSpec {
        url: Text::fixed("http://localhost:9001"),
        username: Text::fixed(""),
        password: Text::fixed(""),
    }
}

/// What the file tells, or why it tells nothing.
fn client_in(file: &Text, loaded: Result<Loaded, LoadFault>) -> Result<ClientSpec, Refusal>
    ensures client { Freely (λ client. client ≡ client_in file.now loaded) result }
    ensures cause { EndsUnreadable result → load.IsUnreadable loaded }
{
    match loaded {
        Ok(loaded) => Ok(loaded.config.client.clone()?),
        Err(LoadFault::Missing) => Err(Refusal::Missing(file.clone()?)),
        Err(LoadFault::Refused(fault)) => Err(Refusal::Conf(fault)),
        Err(LoadFault::Failed(name)) => Err(Refusal::Unreadable(name)),
        Err(LoadFault::OutOfMemory) => Err(Refusal::OutOfMemory),
    }
}

/// What the client is told, with the values of the options in place of it.
fn with_options(options: Options, client: ClientSpec) -> ClientSpec
    ensures { result ≡ with_options options client }
{
    ClientSpec {
        url: chosen(options.url, client.url),
        username: chosen(options.username, client.username),
        password: chosen(options.password, client.password),
    }
}

fn chosen(value: Option<Text>, configured: Text) -> Text
    ensures { result ≡ chosen value configured }
{
    match value {
        Some(value) => value,
        None => configured,
    }
}

/// The server of a client, where its URL leads to a place.
fn server_at(alloc: Global, client: ClientSpec) -> Result<Server, Refusal>
    ensures server { Freely (λ server. server ≡ server_at client (place_of client.url)) result }
    ensures readable { EndsUnreadable result → ⊥ }
{
    match place_of(alloc, client.url.as_str())? {
        Some(place) => Ok(Server { place, client }),
        None => Err(Refusal::Words),
    }
}
