//! The short header: its programs, and the configuration that they make.
ghost use Rattle.std.specs.Prelude.{◌≡◌, ◌∷◌, [], codes, IfOk};
ghost use Rattle.sv_judge.specs.ShortHeader.{no_log, spec_of, group_of, config_of, host_at};

use std::alloc::{AllocError, Global};
use sv_base::config::{ClientSpec, Config, Host};
use sv_base::groups::Groups;
use sv_base::items::Items;
use sv_base::moment::Moment;
use sv_base::number::{Backups, CaptureBytes};
use sv_base::spec::{GroupSpec, LogSpec, Spec};
use sv_base::state::Level;
use sv_base::text::Text;
use sv_journal::header::Program;

/// No log, with the defaults of its other keys.
fn no_log() -> LogSpec
    ensures { result ≡ no_log }
{
    LogSpec {
        file: None,
        maxbytes: 52_428_800,
        backups: Backups::new(10).unwrap(),
        capture: CaptureBytes::least(),
        events: false,
    }
}

fn environment(alloc: Global, name: &Text) -> Result<Items<(Text, Text)>, AllocError>
    ensures { IfOk result (λ pairs. pairs ≡ (codes "SUPERVISOR_ENABLED", codes "1") ∷
        (codes "SUPERVISOR_GROUP_NAME", name.now) ∷
        (codes "SUPERVISOR_PROCESS_NAME", name.now) ∷ []) }
{
    let mut pairs = Items::new(alloc);
    pairs.push((Text::fixed("SUPERVISOR_ENABLED"), Text::fixed("1")))?;
    pairs.push((Text::fixed("SUPERVISOR_GROUP_NAME"), name.clone()?))?;
    pairs.push((Text::fixed("SUPERVISOR_PROCESS_NAME"), name.clone()?))?;
    Ok(pairs)
}

/// The process of a program line.
fn spec_of(alloc: Global, program: Program) -> Result<Spec, AllocError>
    ensures { IfOk result (λ spec. spec ≡ spec_of program) }
{
    let mut words = Items::new(alloc);
    words.push(program.name.as_text().clone()?)?;
    Ok(Spec {
        group: program.name.as_text().clone()?,
        environment: environment(alloc, program.name.as_text())?,
        name: program.name.into_text(),
        words,
        priority: 999,
        autostart: true,
        startsecs: program.startsecs,
        startretries: program.startretries,
        autorestart: program.autorestart,
        exitcodes: program.exitcodes.into_items(),
        stopsignal: program.stopsignal,
        stopwaitsecs: program.stopwaitsecs,
        stopasgroup: false,
        killasgroup: false,
        redirect_stderr: false,
        stdout: no_log(),
        stderr: no_log(),
        directory: Text::fixed(""),
        umask: Text::fixed(""),
        user: Text::fixed(""),
    })
}

/// The group of a program line.
pub fn group_of(alloc: Global, program: Program) -> Result<GroupSpec, AllocError>
    ensures { IfOk result (λ group. group ≡ group_of program) }
{
    let name = program.name.as_text().clone()?;
    let mut members = Items::new(alloc);
    members.push(spec_of(alloc, program)?)?;
    Ok(GroupSpec {
        name,
        priority: 999,
        members,
        pool: None,
    })
}

/// The configuration of these groups, without logs, servers and rpcinterface.
pub fn config_of(alloc: Global, groups: Groups) -> Config
    ensures { result ≡ config_of groups }
{
    Config {
        identifier: Text::fixed("supervisor"),
        main: no_log(),
        level: Level::Info,
        groups,
        servers: Items::new(alloc),
        client: ClientSpec {
            url: Text::fixed("http://localhost:9001"),
            username: Text::fixed(""),
            password: Text::fixed(""),
        },
        rpc: false,
    }
}

/// The host on which a journal of the short header runs.
pub fn host_at(alloc: Global, start: Moment) -> Host
    ensures { result ≡ host_at start }
{
    Host {
        name: Text::fixed(""),
        here: Text::fixed("."),
        pid: 0,
        environment: Items::new(alloc),
        start,
    }
}
