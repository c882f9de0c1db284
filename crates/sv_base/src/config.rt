//! A whole configuration, and the machine that it is for.
ghost use Rattle.std.specs.Prelude.{◌≡◌};

use crate::bytes::Bytes;
use crate::groups::Groups;
use crate::items::Items;
use crate::moment::Moment;
use crate::spec::LogSpec;
use crate::state::Level;
use crate::text::Text;
use std::alloc::AllocError;

/// Where a server listens: a host, empty for all interfaces, with a port from 1 on; or the path of a socket.
#[derive(Drop)]
pub enum Place {
    Inet(Text, u16),
    Unix(Text),
}

/// The password that a server asks for, plain or as the SHA-1 of it.
#[derive(Drop)]
pub enum Password {
    None,
    Plain(Text),
    Sha([u8; 20]),
}

/// A server of the daemon.
pub struct ServerSpec {
    pub place: Place,
    /// Empty where none is asked for.
    pub username: Text,
    pub password: Password,
}

impl Drop for ServerSpec {
    fn drop(self) {
        let Self {
            place: _,
            username: _,
            password: _,
        } = self;
    }
}

/// What the client is told of the daemon's server.
#[derive(Drop)]
pub struct ClientSpec {
    pub url: Text,
    pub username: Text,
    pub password: Text,
}

/// A whole configuration.
pub struct Config {
    /// The name by which the daemon calls itself.
    pub identifier: Text,
    /// The main log.
    pub main: LogSpec,
    /// Lines of the main log below this level aren't written.
    pub level: Level,
    /// The groups in start order.
    pub groups: Groups,
    /// The servers in the order of the text.
    pub servers: Items<ServerSpec>,
    /// What the client reads.
    pub client: ClientSpec,
    /// Whether the methods of `supervisor` are served.
    pub rpc: bool,
}

impl Drop for Config {
    fn drop(self) {
        let Self {
            identifier: _,
            main: _,
            level: _,
            groups: _,
            servers: _,
            client: _,
            rpc: _,
        } = self;
    }
}

/// The machine that the daemon runs on, as it was when the daemon began.
pub struct Host {
    pub name: Text,
    /// The directory of the configuration file.
    pub here: Text,
    /// The daemon's own process number.
    pub pid: u32,
    /// The daemon's environment.
    pub environment: Items<(Text, Text)>,
    /// When the daemon began.
    pub start: Moment,
}

impl Drop for Host {
    fn drop(self) {
        let Self {
            name: _,
            here: _,
            pid: _,
            environment: _,
            start: _,
        } = self;
    }
}

/// One step in the keeping of a log: bytes added at a file's end, a file renamed over another, a file made
/// empty.
#[derive(Drop)]
pub enum FileOrder {
    Append(Text, Bytes),
    Shift(Text, Text),
    Fresh(Text),
}

impl Clone for Place {
    ghost is_clone = { λ place copy. copy ≡ place };

    fn clone(&self) -> Result<Place, AllocError> {
        match self {
            Place::Inet(host, port) => Ok(Place::Inet(host.clone()?, *port)),
            Place::Unix(path) => Ok(Place::Unix(path.clone()?)),
        }
    }
}

impl Clone for Password {
    ghost is_clone = { λ password copy. copy ≡ password };

    fn clone(&self) -> Result<Password, AllocError> {
        match self {
            Password::None => Ok(Password::None),
            Password::Plain(text) => Ok(Password::Plain(text.clone()?)),
            Password::Sha(digest) => Ok(Password::Sha(*digest)),
        }
    }
}

impl Clone for ServerSpec {
    ghost is_clone = { λ server copy. copy ≡ server };

    fn clone(&self) -> Result<ServerSpec, AllocError> {
        Ok(ServerSpec {
            place: self.place.clone()?,
            username: self.username.clone()?,
            password: self.password.clone()?,
        })
    }
}

impl Clone for ClientSpec {
    ghost is_clone = { λ client copy. copy ≡ client };

    fn clone(&self) -> Result<ClientSpec, AllocError> {
        Ok(ClientSpec {
            url: self.url.clone()?,
            username: self.username.clone()?,
            password: self.password.clone()?,
        })
    }
}

impl Clone for FileOrder {
    ghost is_clone = { λ order copy. copy ≡ order };

    fn clone(&self) -> Result<FileOrder, AllocError> {
        match self {
            FileOrder::Append(file, bytes) => Ok(FileOrder::Append(file.clone()?, bytes.clone()?)),
            FileOrder::Shift(from, to) => Ok(FileOrder::Shift(from.clone()?, to.clone()?)),
            FileOrder::Fresh(file) => Ok(FileOrder::Fresh(file.clone()?)),
        }
    }
}
