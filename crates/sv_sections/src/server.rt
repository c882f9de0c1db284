//! The sections of the servers, the daemon and the client.

ghost use Rattle.std.specs.Prelude.{◌≡◌, ◌++◌, ◌∷◌, [], Ok, IfOk, IfErr, codes, Option, List, ℕ};
ghost use Rattle.std.specs.Prelude.{Result};
ghost use Rattle.sv_base.specs.declared.config.Host.{Host};
ghost use Rattle.sv_sections.specs.FaultTexts.{IsFault};
ghost use Rattle.sv_sections.specs.SectionFaults.{or_missing, or_section_fault};
ghost use Rattle.sv_sections.specs.ServerSections.{first_others, with_server, after_unix, after_inet};
ghost use Rattle.sv_sections.specs.ServerSections.{after_daemon, after_client, after_section};
ghost use Rattle.sv_sections.specs.ServerSections.{after_sections, others_of, or_else, host_in_url};
ghost use Rattle.sv_sections.specs.ServerSections.{unix_url, inet_url, first_url, url_of, common_of};
ghost use Rattle.sv_sections.specs.declared.fault.ConfFault.{ConfFault};
ghost use Rattle.sv_sections.specs.declared.server.Others.{Others};
ghost use Rattle.sv_keys.specs.KnownNames.{host_names};
ghost use Rattle.sv_keys.specs.ServerKeys.{unix_server, inet_server, daemon_of, client_of};

use crate::fault::ConfFault;
use crate::section_faults::{must_have, section_fault};
use std::alloc::{AllocError, Global};
use sv_base::config::{ClientSpec, Host, Place, ServerSpec};
use sv_base::items::Items;
use sv_base::text::Text;
use sv_expand::names::Names;
use sv_ini::section::Section;
use sv_keys::judged::Unread;
use sv_keys::key::Key;
use sv_keys::names;
use sv_keys::server_keys::{
    Daemon, client_of, daemon_of, first_client, first_daemon, inet_server, unix_server,
};

/// What the processes of all sections share.
#[derive(Drop)]
pub struct Common {
    /// Where the logs of processes go that are named for them.
    pub childlogdir: Text,
    /// The pairs that each environment gets from the daemon's section.
    pub environment: Items<(Text, Text)>,
    /// The address of the daemon's own server.
    pub url: Option<Text>,
}

/// What the sections of the daemon, its servers and its client tell.
pub struct Others {
    pub daemon: Daemon,
    pub client: ClientSpec,
    pub servers: Items<ServerSpec>,
}

impl Drop for Others {
    fn drop(self) {
        let Self {
            daemon: _,
            client: _,
            servers: _,
        } = self;
    }
}

impl Others {
    /// What the three kinds of sections tell.
    pub fn into_parts(self) -> (Daemon, ClientSpec, Items<ServerSpec>)
        ensures { result ≡ (self.daemon, self.client, self.servers) }
    {
        let Self {
            daemon,
            client,
            servers,
        } = self;
        (daemon, client, servers)
    }
}

fn first_others(alloc: Global) -> Others
    ensures { result ≡ first_others }
{
    Others {
        daemon: first_daemon(alloc),
        client: first_client(),
        servers: Items::new(alloc),
    }
}

fn with_server(others: Others, server: ServerSpec) -> Result<Others, AllocError>
    ensures { IfOk result (λ next. next ≡ with_server others server) }
{
    let mut others = others;
    others.servers.push(server)?;
    Ok(others)
}

/// The server of a `unix_http_server` section.
fn unix_in(
    alloc: Global,
    title: &str,
    keys: &[(Text, Text)],
    names: &Names,
) -> Result<ServerSpec, ConfFault>
    ensures value { IfOk result (λ value.
        or_section_fault title.now (unix_server keys.now names.now) ≡ Ok value) }
    ensures fault { IfErr result (λ fault.
        IsFault fault (or_section_fault title.now (unix_server keys.now names.now))) }
{
    match unix_server(alloc, keys, names) {
        Ok(value) => Ok(value),
        Err(Unread::Faulty(fault)) => Err(section_fault(alloc, title, fault)?),
        Err(Unread::OutOfMemory) => Err(ConfFault::OutOfMemory),
    }
}

/// The server of an `inet_http_server` section.
fn inet_in(
    alloc: Global,
    title: &str,
    keys: &[(Text, Text)],
    names: &Names,
) -> Result<ServerSpec, ConfFault>
    ensures value { IfOk result (λ value.
        or_section_fault title.now (inet_server keys.now names.now) ≡ Ok value) }
    ensures fault { IfErr result (λ fault.
        IsFault fault (or_section_fault title.now (inet_server keys.now names.now))) }
{
    match inet_server(alloc, keys, names) {
        Ok(value) => Ok(value),
        Err(Unread::Faulty(fault)) => Err(section_fault(alloc, title, fault)?),
        Err(Unread::OutOfMemory) => Err(ConfFault::OutOfMemory),
    }
}

/// What a `supervisord` section tells.
fn daemon_in(
    alloc: Global,
    title: &str,
    keys: &[(Text, Text)],
    names: &Names,
) -> Result<Daemon, ConfFault>
    ensures value { IfOk result (λ value.
        or_section_fault title.now (daemon_of keys.now names.now) ≡ Ok value) }
    ensures fault { IfErr result (λ fault.
        IsFault fault (or_section_fault title.now (daemon_of keys.now names.now))) }
{
    match daemon_of(alloc, keys, names) {
        Ok(value) => Ok(value),
        Err(Unread::Faulty(fault)) => Err(section_fault(alloc, title, fault)?),
        Err(Unread::OutOfMemory) => Err(ConfFault::OutOfMemory),
    }
}

/// What a `supervisorctl` section tells.
fn client_in(
    alloc: Global,
    title: &str,
    keys: &[(Text, Text)],
    names: &Names,
) -> Result<ClientSpec, ConfFault>
    ensures value { IfOk result (λ value.
        or_section_fault title.now (client_of keys.now names.now) ≡ Ok value) }
    ensures fault { IfErr result (λ fault.
        IsFault fault (or_section_fault title.now (client_of keys.now names.now))) }
{
    match client_of(alloc, keys, names) {
        Ok(value) => Ok(value),
        Err(Unread::Faulty(fault)) => Err(section_fault(alloc, title, fault)?),
        Err(Unread::OutOfMemory) => Err(ConfFault::OutOfMemory),
    }
}

#[tactic(auto, unfolding(crate::specs::ServerSections::after_unix))]
fn after_unix(
    alloc: Global,
    names: &Names,
    others: Others,
    section: &Section,
) -> Result<Others, ConfFault>
    ensures value { IfOk result (λ value. after_unix names.now others section.now ≡ Ok value) }
    ensures fault { IfErr result (λ fault.
        IsFault fault (after_unix names.now others section.now)) }
{
    let name = section.name.as_str();
    let keys = section.keys.as_slice();
    must_have(alloc, name, Key::File, keys)?;
    let server = unix_in(alloc, name, keys, names)?;
    Ok(with_server(others, server)?)
}

#[tactic(auto, unfolding(crate::specs::ServerSections::after_inet))]
fn after_inet(
    alloc: Global,
    names: &Names,
    others: Others,
    section: &Section,
) -> Result<Others, ConfFault>
    ensures value { IfOk result (λ value. after_inet names.now others section.now ≡ Ok value) }
    ensures fault { IfErr result (λ fault.
        IsFault fault (after_inet names.now others section.now)) }
{
    let name = section.name.as_str();
    let keys = section.keys.as_slice();
    must_have(alloc, name, Key::Port, keys)?;
    let server = inet_in(alloc, name, keys, names)?;
    Ok(with_server(others, server)?)
}

#[tactic(auto, unfolding(crate::specs::ServerSections::after_daemon))]
fn after_daemon(
    alloc: Global,
    names: &Names,
    others: Others,
    section: &Section,
) -> Result<Others, ConfFault>
    ensures value { IfOk result (λ value. after_daemon names.now others section.now ≡ Ok value) }
    ensures fault { IfErr result (λ fault.
        IsFault fault (after_daemon names.now others section.now)) }
{
    let name = section.name.as_str();
    let daemon = daemon_in(alloc, name, section.keys.as_slice(), names)?;
    let (_, client, servers) = others.into_parts();
    Ok(Others {
        daemon,
        client,
        servers,
    })
}

#[tactic(auto, unfolding(crate::specs::ServerSections::after_client))]
fn after_client(
    alloc: Global,
    names: &Names,
    others: Others,
    section: &Section,
) -> Result<Others, ConfFault>
    ensures value { IfOk result (λ value. after_client names.now others section.now ≡ Ok value) }
    ensures fault { IfErr result (λ fault.
        IsFault fault (after_client names.now others section.now)) }
{
    let name = section.name.as_str();
    let client = client_in(alloc, name, section.keys.as_slice(), names)?;
    let (daemon, _, servers) = others.into_parts();
    Ok(Others {
        daemon,
        client,
        servers,
    })
}

#[tactic(auto, unfolding(crate::specs::ServerSections::after_section))]
fn after_section(
    alloc: Global,
    names: &Names,
    others: Others,
    section: &Section,
) -> Result<Others, ConfFault>
    ensures value { IfOk result (λ value. after_section names.now others section.now ≡ Ok value) }
    ensures fault { IfErr result (λ fault.
        IsFault fault (after_section names.now others section.now)) }
{
    let name = section.name.as_str();
    if name == "unix_http_server" {
        after_unix(alloc, names, others, section)
    } else if name == "inet_http_server" {
        after_inet(alloc, names, others, section)
    } else if name == "supervisord" {
        after_daemon(alloc, names, others, section)
    } else if name == "supervisorctl" {
        after_client(alloc, names, others, section)
    } else {
        Ok(others)
    }
}

/// What the sections of the daemon, its servers and its client tell.
#[tactic(auto, unfolding(crate::specs::ServerSections::others_of))]
fn read_others(alloc: Global, host: &Host, sections: &[Section]) -> Result<Others, ConfFault>
    ensures value { IfOk result (λ value. others_of host.now sections.now ≡ Ok value) }
    ensures fault { IfErr result (λ fault. IsFault fault (others_of host.now sections.now)) }
{
    let names = names::host_names(alloc, host)?;
    let mut others = first_others(alloc);
    let mut left = sections;
    while let [section, rest @ ..] = left {
        others = after_section(alloc, &names, others, section)?;
        left = rest;
    }
    Ok(others)
}

/// What the sections of the daemon, its servers and its client tell, or the first fault in them.
pub fn others_of(
    alloc: Global,
    host: &Host,
    sections: &[Section],
) -> Result<Result<Others, ConfFault>, AllocError>
    ensures { IfOk result (λ others. others ≡ others_of host.now sections.now) }
{
    match read_others(alloc, host, sections) {
        Ok(others) => Ok(Ok(others)),
        Err(ConfFault::OutOfMemory) => Err(AllocError),
        Err(fault) => Ok(Err(fault)),
    }
}

fn unix_url(alloc: Global, place: &Place) -> Result<Option<Text>, AllocError>
    ensures { IfOk result (λ url. url ≡ unix_url place.now) }
{
    match place {
        Place::Inet(_, _) => Ok(None),
        Place::Unix(file) => {
            let file = file.as_str();
            Ok(Some(Text::from_string(format!(in alloc; "unix://{file}")?)))
        }
    }
}

fn inet_url(alloc: Global, place: &Place) -> Result<Option<Text>, AllocError>
    ensures { IfOk result (λ url. url ≡ inet_url place.now) }
{
    match place {
        Place::Inet(host, port) => {
            let host = host_in_url(host.as_str());
            let port = *port;
            Ok(Some(Text::from_string(format!(in alloc; "http://{host}:{port}")?)))
        }
        Place::Unix(_) => Ok(None),
    }
}

fn host_in_url(host: &str) -> &str
    ensures { result.now ≡ host_in_url host.now }
{
    if host.is_empty() { "localhost" } else { host }
}

fn first_unix(alloc: Global, servers: &[ServerSpec]) -> Result<Option<Text>, AllocError>
    ensures { IfOk result (λ url. url ≡ first_url unix_url servers.now) }
{
    let mut left = servers;
    while let [server, rest @ ..] = left {
        match unix_url(alloc, &server.place)? {
            Some(url) => return Ok(Some(url)),
            None => {}
        }
        left = rest;
    }
    Ok(None)
}

fn first_inet(alloc: Global, servers: &[ServerSpec]) -> Result<Option<Text>, AllocError>
    ensures { IfOk result (λ url. url ≡ first_url inet_url servers.now) }
{
    let mut left = servers;
    while let [server, rest @ ..] = left {
        match inet_url(alloc, &server.place)? {
            Some(url) => return Ok(Some(url)),
            None => {}
        }
        left = rest;
    }
    Ok(None)
}

#[tactic(auto, unfolding(crate::specs::ServerSections::url_of))]
fn url_of(alloc: Global, servers: &[ServerSpec]) -> Result<Option<Text>, AllocError>
    ensures { IfOk result (λ url. url ≡ url_of servers.now) }
{
    match first_unix(alloc, servers)? {
        Some(url) => Ok(Some(url)),
        None => first_inet(alloc, servers),
    }
}

/// What all processes share; a fault in the sections that tell it leaves it empty.
#[tactic(auto, unfolding(crate::specs::ServerSections::common_of))]
pub fn common_of(alloc: Global, others: &Result<Others, ConfFault>) -> Result<Common, AllocError>
    ensures { IfOk result (λ common. common ≡ common_of others.now) }
{
    match others {
        Ok(others) => Ok(Common {
            childlogdir: others.daemon.childlogdir.clone()?,
            environment: others.daemon.environment.clone()?,
            url: url_of(alloc, others.servers.as_slice())?,
        }),
        Err(_) => Ok(Common {
            childlogdir: Text::fixed(""),
            environment: Items::new(alloc),
            url: None,
        }),
    }
}
