//! The table of a program's keys.

ghost use Rattle.std.specs.Prelude.{◌≡◌, ◌∷◌, [], Ok, IfOk, IfErr};
ghost use Rattle.sv_keys.specs.Judged.{IsFault};
ghost use Rattle.sv_keys.specs.KeyTable.{numprocs, numprocs_start, priority, first_priority};
ghost use Rattle.sv_keys.specs.KeyTable.{running_of, redirect, stopping_of, logs_of, variables};
ghost use Rattle.sv_keys.specs.KeyTable.{around_of, draft_of, pool_of, settings_of};

use crate::judged::{Judged, or_bad};
use crate::key::Key;
use crate::rows::{needed, row, value_at};
use crate::values::{
    AnyText, ChildLog, EventTypes, ExitCodes, LogFile, Number, OnlyFalse, ProcessName, Restart,
    Signed, Size, SizeUpTo, StopSignal, Truth, Umask, Words, environment_of,
};
use std::alloc::{AllocError, Global};
use sv_base::items::Items;
use sv_base::number::{Backups, BufferSize, CaptureBytes, Retries, Seconds, Within};
use sv_base::signal::Signal;
use sv_base::spec::PoolSpec;
use sv_base::state::Autorestart;
use sv_base::text::Text;
use sv_expand::names::Names;

/// How many processes a section of a program stands for.
pub type Count = Within<1, 1_024>;

/// The number of a section's first process.
pub type Start = Within<0, 1_000_000>;

/// What is read once for all processes of a section in a group.
#[derive(Drop)]
pub struct Settings {
    pub count: Count,
    pub start: Start,
    pub priority: i32,
    pub pool: Option<PoolSpec>,
}

/// How a process is started and when it is started again.
#[derive(Drop)]
pub struct Running {
    pub words: Items<Text>,
    pub name: Text,
    pub autostart: bool,
    pub startsecs: Seconds,
    pub startretries: Retries,
    pub stopwaitsecs: Seconds,
    pub autorestart: Autorestart,
    pub exitcodes: Items<u8>,
    pub stopsignal: Signal,
}

/// Whom signals reach, and where standard error goes.
#[derive(Drop)]
pub struct Stopping {
    pub stopasgroup: bool,
    pub killasgroup: bool,
    pub redirect_stderr: bool,
}

/// The log of a stream.
#[derive(Drop)]
pub struct Log {
    pub file: LogFile,
    pub maxbytes: u64,
    pub backups: Backups,
    pub capture: CaptureBytes,
    pub events: bool,
}

/// What is round a process.
#[derive(Drop)]
pub struct Around {
    pub environment: Items<(Text, Text)>,
    pub directory: Text,
    pub umask: Text,
    pub user: Text,
    pub serverurl: Text,
}

/// All keys of a process.
#[derive(Drop)]
pub struct Draft {
    pub running: Running,
    pub stopping: Stopping,
    pub stdout: Log,
    pub stderr: Log,
    pub around: Around,
}

// For all processes of a program in a group.

/// How many processes the section stands for in a group.
#[tactic(auto, unfolding(crate::specs::KeyTable::numprocs))]
pub fn numprocs(alloc: Global, keys: &[(Text, Text)], names: &Names) -> Judged<Count>
    ensures value { IfOk result (λ value. numprocs keys.now names.now ≡ Ok value) }
    ensures fault { IfErr result (λ fault. IsFault fault (numprocs keys.now names.now)) }
{
    row::<Number<1, 1_024>>(alloc, Key::Numprocs, Count::new(1).unwrap(), keys, names)
}

/// The number of the first of them.
#[tactic(auto, unfolding(crate::specs::KeyTable::numprocs_start))]
pub fn numprocs_start(alloc: Global, keys: &[(Text, Text)], names: &Names) -> Judged<Start>
    ensures value { IfOk result (λ value. numprocs_start keys.now names.now ≡ Ok value) }
    ensures fault { IfErr result (λ fault. IsFault fault (numprocs_start keys.now names.now)) }
{
    row::<Number<0, 1_000_000>>(alloc, Key::NumprocsStart, Start::least(), keys, names)
}

/// The priority of a section; that of a listener is lower by default.
#[tactic(auto, unfolding(crate::specs::KeyTable::priority))]
pub fn priority(alloc: Global, listener: bool, keys: &[(Text, Text)], names: &Names) -> Judged<i32>
    ensures value { IfOk result (λ value. priority listener keys.now names.now ≡ Ok value) }
    ensures fault { IfErr result (λ fault. IsFault fault (priority listener keys.now names.now)) }
{
    row::<Signed>(alloc, Key::Priority, first_priority(listener), keys, names)
}

fn first_priority(listener: bool) -> i32
    ensures { result ≡ first_priority listener }
{
    if listener { -1 } else { 999 }
}

// For each process.

#[tactic(auto, unfolding(crate::specs::KeyTable::running_of))]
fn running_of(alloc: Global, program: &str, keys: &[(Text, Text)], names: &Names) -> Judged<Running>
    ensures value { IfOk result (λ value. running_of program.now keys.now names.now ≡ Ok value) }
    ensures fault { IfErr result (λ fault.
        IsFault fault (running_of program.now keys.now names.now)) }
{
    Ok(Running {
        words: needed::<Words>(alloc, Key::Command, keys, names)?,
        name: row::<ProcessName>(
            alloc,
            Key::ProcessName,
            Text::from_str(alloc, program)?,
            keys,
            names,
        )?,
        autostart: row::<Truth>(alloc, Key::Autostart, true, keys, names)?,
        startsecs: row::<Number<0, 1_000_000>>(
            alloc,
            Key::Startsecs,
            Seconds::new(1).unwrap(),
            keys,
            names,
        )?,
        startretries: row::<Number<0, 1_000_000>>(
            alloc,
            Key::Startretries,
            Retries::new(3).unwrap(),
            keys,
            names,
        )?,
        stopwaitsecs: row::<Number<0, 1_000_000>>(
            alloc,
            Key::Stopwaitsecs,
            Seconds::new(10).unwrap(),
            keys,
            names,
        )?,
        autorestart: row::<Restart>(
            alloc,
            Key::Autorestart,
            Autorestart::Unexpected,
            keys,
            names,
        )?,
        exitcodes: row::<ExitCodes>(alloc, Key::Exitcodes, only_zero(alloc)?, keys, names)?,
        stopsignal: row::<StopSignal>(alloc, Key::Stopsignal, Signal::Term, keys, names)?,
    })
}

fn only_zero(alloc: Global) -> Result<Items<u8>, AllocError>
    ensures { IfOk result (λ codes. codes ≡ 0 ∷ []) }
{
    let mut codes = Items::new(alloc);
    codes.push(0)?;
    Ok(codes)
}

#[tactic(auto, unfolding(crate::specs::KeyTable::stopping_of))]
fn stopping_of(
    alloc: Global,
    listener: bool,
    keys: &[(Text, Text)],
    names: &Names,
) -> Judged<Stopping>
    ensures value { IfOk result (λ value. stopping_of listener keys.now names.now ≡ Ok value) }
    ensures fault { IfErr result (λ fault.
        IsFault fault (stopping_of listener keys.now names.now)) }
{
    let stopasgroup = row::<Truth>(alloc, Key::Stopasgroup, false, keys, names)?;
    let killasgroup = row::<Truth>(alloc, Key::Killasgroup, stopasgroup, keys, names)?;
    let redirect_stderr = redirect(alloc, listener, keys, names)?;
    Ok(Stopping {
        stopasgroup,
        killasgroup,
        redirect_stderr,
    })
}

#[tactic(auto, unfolding(crate::specs::KeyTable::redirect))]
fn redirect(alloc: Global, listener: bool, keys: &[(Text, Text)], names: &Names) -> Judged<bool>
    ensures value { IfOk result (λ value. redirect listener keys.now names.now ≡ Ok value) }
    ensures fault { IfErr result (λ fault. IsFault fault (redirect listener keys.now names.now)) }
{
    if listener {
        row::<OnlyFalse>(alloc, Key::RedirectStderr, false, keys, names)
    } else {
        row::<Truth>(alloc, Key::RedirectStderr, false, keys, names)
    }
}

#[tactic(auto, unfolding(crate::specs::KeyTable::logs_of))]
fn logs_of(alloc: Global, keys: &[(Text, Text)], names: &Names) -> Judged<(Log, Log)>
    ensures value { IfOk result (λ value. logs_of keys.now names.now ≡ Ok value) }
    ensures fault { IfErr result (λ fault. IsFault fault (logs_of keys.now names.now)) }
{
    let ten = Backups::new(10).unwrap();
    let none = CaptureBytes::least();
    let stdout_file = row::<ChildLog>(alloc, Key::StdoutLogfile, LogFile::Auto, keys, names)?;
    let stderr_file = row::<ChildLog>(alloc, Key::StderrLogfile, LogFile::Auto, keys, names)?;
    let stdout_maxbytes = row::<Size>(alloc, Key::StdoutLogfileMaxbytes, 52_428_800, keys, names)?;
    let stderr_maxbytes = row::<Size>(alloc, Key::StderrLogfileMaxbytes, 52_428_800, keys, names)?;
    let stdout_backups = row::<Number<0, 1_000>>(
        alloc,
        Key::StdoutLogfileBackups,
        ten,
        keys,
        names,
    )?;
    let stderr_backups = row::<Number<0, 1_000>>(
        alloc,
        Key::StderrLogfileBackups,
        ten,
        keys,
        names,
    )?;
    let stdout_capture = row::<SizeUpTo<16_777_216>>(
        alloc,
        Key::StdoutCaptureMaxbytes,
        none,
        keys,
        names,
    )?;
    let stderr_capture = row::<SizeUpTo<16_777_216>>(
        alloc,
        Key::StderrCaptureMaxbytes,
        none,
        keys,
        names,
    )?;
    let stdout_events = row::<Truth>(alloc, Key::StdoutEventsEnabled, false, keys, names)?;
    let stderr_events = row::<Truth>(alloc, Key::StderrEventsEnabled, false, keys, names)?;
    let stdout = Log {
        file: stdout_file,
        maxbytes: stdout_maxbytes,
        backups: stdout_backups,
        capture: stdout_capture,
        events: stdout_events,
    };
    let stderr = Log {
        file: stderr_file,
        maxbytes: stderr_maxbytes,
        backups: stderr_backups,
        capture: stderr_capture,
        events: stderr_events,
    };
    Ok((stdout, stderr))
}

/// The pairs of an `environment` key, none where it isn't set.
#[tactic(auto, unfolding(crate::specs::KeyTable::variables, crate::specs::Rows::row))]
pub fn variables(alloc: Global, keys: &[(Text, Text)], names: &Names) -> Judged<Items<(Text, Text)>>
    ensures value { IfOk result (λ value. variables keys.now names.now ≡ Ok value) }
    ensures fault { IfErr result (λ fault. IsFault fault (variables keys.now names.now)) }
{
    match value_at(alloc, Key::Environment, keys, names) {
        Ok(Some(text)) => or_bad(Key::Environment, environment_of(alloc, text.as_str())?),
        Ok(None) => Ok(Items::new(alloc)),
        Err(fault) => Err(fault),
    }
}

#[tactic(auto, unfolding(crate::specs::KeyTable::around_of))]
fn around_of(alloc: Global, keys: &[(Text, Text)], names: &Names) -> Judged<Around>
    ensures value { IfOk result (λ value. around_of keys.now names.now ≡ Ok value) }
    ensures fault { IfErr result (λ fault. IsFault fault (around_of keys.now names.now)) }
{
    Ok(Around {
        environment: variables(alloc, keys, names)?,
        directory: row::<AnyText>(alloc, Key::Directory, Text::fixed(""), keys, names)?,
        umask: row::<Umask>(alloc, Key::Umask, Text::fixed(""), keys, names)?,
        user: row::<AnyText>(alloc, Key::User, Text::fixed(""), keys, names)?,
        serverurl: row::<AnyText>(alloc, Key::Serverurl, Text::fixed(""), keys, names)?,
    })
}

/// All keys of a process of this section.
#[tactic(auto, unfolding(crate::specs::KeyTable::draft_of))]
pub fn draft_of(
    alloc: Global,
    listener: bool,
    program: &str,
    keys: &[(Text, Text)],
    names: &Names,
) -> Judged<Draft>
    ensures value { IfOk result (λ value.
        draft_of listener program.now keys.now names.now ≡ Ok value) }
    ensures fault { IfErr result (λ fault.
        IsFault fault (draft_of listener program.now keys.now names.now)) }
{
    let running = running_of(alloc, program, keys, names)?;
    let stopping = stopping_of(alloc, listener, keys, names)?;
    let (stdout, stderr) = logs_of(alloc, keys, names)?;
    let around = around_of(alloc, keys, names)?;
    Ok(Draft {
        running,
        stopping,
        stdout,
        stderr,
        around,
    })
}

#[tactic(auto, unfolding(crate::specs::KeyTable::pool_of))]
fn pool_of(
    alloc: Global,
    listener: bool,
    keys: &[(Text, Text)],
    names: &Names,
) -> Judged<Option<PoolSpec>>
    ensures value { IfOk result (λ value. pool_of listener keys.now names.now ≡ Ok value) }
    ensures fault { IfErr result (λ fault. IsFault fault (pool_of listener keys.now names.now)) }
{
    if !listener {
        return Ok(None);
    }
    let kinds = needed::<EventTypes>(alloc, Key::Events, keys, names)?;
    let default = BufferSize::new(10).unwrap();
    let buffer = row::<Number<1, 65_536>>(alloc, Key::BufferSize, default, keys, names)?;
    Ok(Some(PoolSpec { kinds, buffer }))
}

/// What is read once for all processes of this section in a group.
#[tactic(auto, unfolding(crate::specs::KeyTable::settings_of))]
pub fn settings_of(
    alloc: Global,
    listener: bool,
    keys: &[(Text, Text)],
    names: &Names,
) -> Judged<Settings>
    ensures value { IfOk result (λ value. settings_of listener keys.now names.now ≡ Ok value) }
    ensures fault { IfErr result (λ fault.
        IsFault fault (settings_of listener keys.now names.now)) }
{
    Ok(Settings {
        count: numprocs(alloc, keys, names)?,
        start: numprocs_start(alloc, keys, names)?,
        priority: priority(alloc, listener, keys, names)?,
        pool: pool_of(alloc, listener, keys, names)?,
    })
}
