//! The keys of the sections of the servers, the daemon and the client.

ghost use Rattle.std.specs.Prelude.{◌≡◌, Ok, IfOk, IfErr};
ghost use Rattle.sv_keys.specs.Judged.{IsFault};
ghost use Rattle.sv_keys.specs.ServerKeys.{usual_file, usual_identifier, usual_url, first_daemon};
ghost use Rattle.sv_keys.specs.ServerKeys.{first_client, is_set, guarded, unix_server, inet_server};
ghost use Rattle.sv_keys.specs.ServerKeys.{main_log, daemon_of, client_of};

use crate::judged::Judged;
use crate::key::Key;
use crate::rows::{needed, row};
use crate::table::variables;
use crate::values::{AnyText, Inet, MainLevel, MainLog, Number, Path, ServerPassword, Size};
use std::alloc::Global;
use sv_base::config::{ClientSpec, Password, Place, ServerSpec};
use sv_base::items::Items;
use sv_base::number::{Backups, CaptureBytes};
use sv_base::spec::LogSpec;
use sv_base::state::Level;
use sv_base::text::Text;
use sv_expand::names::{Names, text_of};

/// What the daemon's own section tells.
#[derive(Drop)]
pub struct Daemon {
    pub main: LogSpec,
    pub level: Level,
    pub identifier: Text,
    pub environment: Items<(Text, Text)>,
    pub childlogdir: Text,
}

#[tactic(auto, unfolding(crate::specs::ServerKeys::usual_file))]
fn usual_file() -> Option<Text>
    ensures { result ≡ usual_file }
{
    Some(Text::fixed("supervisord.log"))
}

#[tactic(auto, unfolding(crate::specs::ServerKeys::usual_identifier))]
fn usual_identifier() -> Text
    ensures { result ≡ usual_identifier }
{
    Text::fixed("supervisor")
}

#[tactic(auto, unfolding(crate::specs::ServerKeys::usual_url))]
fn usual_url() -> Text
    ensures { result ≡ usual_url }
{
    Text::fixed("http://localhost:9001")
}

/// What the daemon's section tells where it doesn't stand.
pub fn first_daemon(alloc: Global) -> Daemon
    ensures { result ≡ first_daemon }
{
    Daemon {
        main: LogSpec {
            file: usual_file(),
            maxbytes: 52_428_800,
            backups: Backups::new(10).unwrap(),
            capture: CaptureBytes::least(),
            events: false,
        },
        level: Level::Info,
        identifier: usual_identifier(),
        environment: Items::new(alloc),
        childlogdir: Text::fixed("/tmp"),
    }
}

/// What the client's section tells where it doesn't stand.
pub fn first_client() -> ClientSpec
    ensures { result ≡ first_client }
{
    ClientSpec {
        url: usual_url(),
        username: Text::fixed(""),
        password: Text::fixed(""),
    }
}

/// Whether a key stands in its section.
pub fn is_set(key: Key, keys: &[(Text, Text)]) -> bool
    ensures { result ≡ is_set key keys.now }
{
    text_of(keys, key.name()).is_some()
}

#[tactic(auto, unfolding(crate::specs::ServerKeys::guarded))]
fn guarded(alloc: Global, place: Place, keys: &[(Text, Text)], names: &Names) -> Judged<ServerSpec>
    ensures value { IfOk result (λ value. guarded place keys.now names.now ≡ Ok value) }
    ensures fault { IfErr result (λ fault. IsFault fault (guarded place keys.now names.now)) }
{
    let username = row::<AnyText>(alloc, Key::Username, Text::fixed(""), keys, names)?;
    let password = row::<ServerPassword>(alloc, Key::Password, Password::None, keys, names)?;
    Ok(ServerSpec {
        place,
        username,
        password,
    })
}

/// A server at a file.
#[tactic(auto, unfolding(crate::specs::ServerKeys::unix_server))]
pub fn unix_server(alloc: Global, keys: &[(Text, Text)], names: &Names) -> Judged<ServerSpec>
    ensures value { IfOk result (λ value. unix_server keys.now names.now ≡ Ok value) }
    ensures fault { IfErr result (λ fault. IsFault fault (unix_server keys.now names.now)) }
{
    let file = needed::<Path>(alloc, Key::File, keys, names)?;
    guarded(alloc, Place::Unix(file), keys, names)
}

/// A server at a port.
#[tactic(auto, unfolding(crate::specs::ServerKeys::inet_server))]
pub fn inet_server(alloc: Global, keys: &[(Text, Text)], names: &Names) -> Judged<ServerSpec>
    ensures value { IfOk result (λ value. inet_server keys.now names.now ≡ Ok value) }
    ensures fault { IfErr result (λ fault. IsFault fault (inet_server keys.now names.now)) }
{
    let place = needed::<Inet>(alloc, Key::Port, keys, names)?;
    guarded(alloc, place, keys, names)
}

#[tactic(auto, unfolding(crate::specs::ServerKeys::main_log))]
fn main_log(alloc: Global, keys: &[(Text, Text)], names: &Names) -> Judged<LogSpec>
    ensures value { IfOk result (λ value. main_log keys.now names.now ≡ Ok value) }
    ensures fault { IfErr result (λ fault. IsFault fault (main_log keys.now names.now)) }
{
    Ok(LogSpec {
        file: row::<MainLog>(alloc, Key::Logfile, usual_file(), keys, names)?,
        maxbytes: row::<Size>(alloc, Key::LogfileMaxbytes, 52_428_800, keys, names)?,
        backups: row::<Number<0, 1_000>>(
            alloc,
            Key::LogfileBackups,
            Backups::new(10).unwrap(),
            keys,
            names,
        )?,
        capture: CaptureBytes::least(),
        events: false,
    })
}

/// The daemon's section.
#[tactic(auto, unfolding(crate::specs::ServerKeys::daemon_of))]
pub fn daemon_of(alloc: Global, keys: &[(Text, Text)], names: &Names) -> Judged<Daemon>
    ensures value { IfOk result (λ value. daemon_of keys.now names.now ≡ Ok value) }
    ensures fault { IfErr result (λ fault. IsFault fault (daemon_of keys.now names.now)) }
{
    Ok(Daemon {
        main: main_log(alloc, keys, names)?,
        level: row::<MainLevel>(alloc, Key::Loglevel, Level::Info, keys, names)?,
        identifier: row::<AnyText>(alloc, Key::Identifier, usual_identifier(), keys, names)?,
        environment: variables(alloc, keys, names)?,
        childlogdir: row::<Path>(alloc, Key::Childlogdir, Text::fixed("/tmp"), keys, names)?,
    })
}

/// The client's section.
#[tactic(auto, unfolding(crate::specs::ServerKeys::client_of))]
pub fn client_of(alloc: Global, keys: &[(Text, Text)], names: &Names) -> Judged<ClientSpec>
    ensures value { IfOk result (λ value. client_of keys.now names.now ≡ Ok value) }
    ensures fault { IfErr result (λ fault. IsFault fault (client_of keys.now names.now)) }
{
    Ok(ClientSpec {
        url: row::<AnyText>(alloc, Key::Serverurl, usual_url(), keys, names)?,
        username: row::<AnyText>(alloc, Key::Username, Text::fixed(""), keys, names)?,
        password: row::<AnyText>(alloc, Key::Password, Text::fixed(""), keys, names)?,
    })
}
