//! Links that are opened and that get Close: at which server, and who may ask.
ghost use Rattle.std.specs.Prelude.{◌≡◌, IfOk, IsTrue, OnOk};
ghost use Rattle.std.specs.Option.{option_copied};
ghost use Rattle.sv_core.specs.Frames.{Makes, ServesLinks};
ghost use Rattle.sv_core.specs.Openings.{closes_all, closes_links, guard_at, guard_of, is_at};
ghost use Rattle.sv_core.specs.Openings.{opens, server_of, welcome};
ghost use Rattle.sv_links.specs.StandsFor.{follows};

use crate::machine::Machine;
use std::alloc::{AllocError, Global};
use sv_base::config::{Password, Place, ServerSpec};
use sv_base::ids::LinkId;
use sv_base::state::Side;
use sv_http::Guard;
use sv_out::order::Order;

/// Whether a server listens at a side.
fn is_at(side: Side, place: &Place) -> bool
    ensures { result ≡ is_at side place.now }
{
    match (side, place) {
        (Side::Inet, Place::Inet(_, _)) | (Side::Unix, Place::Unix(_)) => true,
        _ => false,
    }
}

/// The server of a side.
pub(crate) fn server_of(side: Side, servers: &[ServerSpec]) -> Option<&ServerSpec>
    ensures { option_copied result ≡ server_of side servers.now }
{
    let mut left = servers;
    while let [server, rest @ ..] = left {
        if is_at(side, &server.place) {
            return Some(server);
        }
        left = rest;
    }
    None
}

/// Who may ask a server.
fn guard_of(server: &ServerSpec) -> Result<Guard, AllocError>
    ensures { IfOk result (λ guard. guard ≡ guard_of server.now) }
{
    let password = match &server.password {
        Password::None => Password::None,
        Password::Plain(text) => Password::Plain(text.clone()?),
        Password::Sha(sum) => Password::Sha(*sum),
    };
    Ok(Guard {
        username: server.username.clone()?,
        password,
    })
}

/// Who may ask the server of a side, if there is one.
fn guard_at(side: Side, servers: &[ServerSpec]) -> Result<Option<Guard>, AllocError>
    ensures { IfOk result (λ guard. guard ≡ guard_at side servers.now) }
{
    match server_of(side, servers) {
        None => Ok(None),
        Some(server) => Ok(Some(guard_of(server)?)),
    }
}

/// What a link gets at its opening.
fn welcome(link: LinkId, is_served: bool) -> Order
    ensures { result ≡ welcome link is_served }
{
    if is_served {
        Order::More { link }
    } else {
        Order::Close { link }
    }
}

impl Machine {
    /// A link is opened at a side, where there is a server.
    pub(crate) fn open_link(&mut self, link: LinkId, side: Side) -> Result<(), AllocError>
        requires { IsTrue (follows self.old.links link) }
        ensures kept { ServesLinks self.old self.new }
        ensures opens { OnOk result (Makes (opens link side) self.old self.new) }
    {
        match guard_at(side, self.config.servers.as_slice())? {
            None => Ok(()),
            Some(guard) => {
                let is_served = self.links.begin(self.alloc, link, guard)?;
                self.hand.given.push(welcome(link, is_served))?;
                Ok(())
            }
        }
    }

    /// All links that are open get Close.
    pub(crate) fn close_links(&mut self) -> Result<(), AllocError>
        ensures kept { ServesLinks self.old self.new }
        ensures closes { OnOk result (Makes closes_links self.old self.new) }
    {
        let links = self.links.open_links(self.alloc)?;
        self.close_all(links.as_slice())?;
        Ok(())
    }

    /// These links get Close.
    fn close_all(&mut self, links: &[LinkId]) -> Result<(), AllocError>
        ensures kept { ServesLinks self.old self.new }
        ensures closes { OnOk result (Makes (closes_all links.now) self.old self.new) }
    {
        for link in links {
            self.hand.given.push(Order::Close { link: *link })?;
            self.links.close(*link);
        }
        Ok(())
    }
}
