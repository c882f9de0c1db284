//! What a configuration says of a process, its logs, its group and its pool.
ghost use Rattle.std.specs.Prelude.{◌≡◌};

use crate::items::Items;
use crate::kind::Kind;
use crate::number::{Backups, BufferSize, CaptureBytes, Retries, Seconds};
use crate::ranked::Ranked;
use crate::signal::Signal;
use crate::state::Autorestart;
use crate::text::Text;
use std::alloc::AllocError;

/// Where a log goes and how it is kept.
#[derive(Drop)]
pub struct LogSpec {
    /// The file's name; none is no log.
    pub file: Option<Text>,
    /// The size in bytes from which the file is rotated; 0 is never.
    pub maxbytes: u64,
    /// How many rotated files are kept.
    pub backups: Backups,
    /// The most bytes of a captured message; 0 is no capture.
    pub capture: CaptureBytes,
    /// Whether each piece that is logged makes an event.
    pub events: bool,
}

/// One process of a program or an event listener, with each key of its section (the manual's chapter on
/// configuration).
pub struct Spec {
    /// The name of its group.
    pub group: Text,
    /// Its own name.
    pub name: Text,
    /// The command's words.
    pub words: Items<Text>,
    /// Lower starts earlier.
    pub priority: i32,
    /// Whether it is started when the daemon starts.
    pub autostart: bool,
    /// How long it has to stay up for a start to count.
    pub startsecs: Seconds,
    /// How many failed starts in a row are tried again.
    pub startretries: Retries,
    /// When it is started again after its exit.
    pub autorestart: Autorestart,
    /// The expected exit codes.
    pub exitcodes: Items<u8>,
    /// The signal that asks it to stop.
    pub stopsignal: Signal,
    /// How long it may take to stop before it is sent KILL.
    pub stopwaitsecs: Seconds,
    /// Whether the stop signal goes to its whole process group.
    pub stopasgroup: bool,
    /// Whether KILL goes to its whole process group.
    pub killasgroup: bool,
    /// Whether its standard error goes where its standard output goes.
    pub redirect_stderr: bool,
    /// The log of its standard output.
    pub stdout: LogSpec,
    /// The log of its standard error.
    pub stderr: LogSpec,
    /// The variables that its environment gets, sorted by name, each name once.
    pub environment: Items<(Text, Text)>,
    /// The directory in which it starts; empty is the daemon's.
    pub directory: Text,
    /// Octal digits; empty is the daemon's.
    pub umask: Text,
    /// The user that it runs as; empty is the daemon's.
    pub user: Text,
}

impl Drop for Spec {
    fn drop(self) {
        let Self {
            group: _,
            name: _,
            words: _,
            priority: _,
            autostart: _,
            startsecs: _,
            startretries: _,
            autorestart: _,
            exitcodes: _,
            stopsignal: _,
            stopwaitsecs: _,
            stopasgroup: _,
            killasgroup: _,
            redirect_stderr: _,
            stdout: _,
            stderr: _,
            environment: _,
            directory: _,
            umask: _,
            user: _,
        } = self;
    }
}

impl Ranked for Spec {
    ghost priority_of = { λ m. m.priority };

    ghost name_of = { λ m. m.name };

    fn priority(&self) -> i32 {
        self.priority
    }

    fn name(&self) -> &Text {
        &self.name
    }
}

/// The event pool of a listener.
#[derive(Drop)]
pub struct PoolSpec {
    /// The kinds of events that it takes.
    pub kinds: Items<Kind>,
    /// How many events can wait.
    pub buffer: BufferSize,
}

/// A group of processes; an event listener's has a pool.
pub struct GroupSpec {
    pub name: Text,
    /// Lower starts earlier.
    pub priority: i32,
    /// The processes of the group.
    pub members: Items<Spec>,
    /// The event pool, for an event listener.
    pub pool: Option<PoolSpec>,
}

impl Drop for GroupSpec {
    fn drop(self) {
        let Self {
            name: _,
            priority: _,
            members: _,
            pool: _,
        } = self;
    }
}

impl Ranked for GroupSpec {
    ghost priority_of = { λ g. g.priority };

    ghost name_of = { λ g. g.name };

    fn priority(&self) -> i32 {
        self.priority
    }

    fn name(&self) -> &Text {
        &self.name
    }
}

impl Clone for LogSpec {
    ghost is_clone = { λ log copy. copy ≡ log };

    fn clone(&self) -> Result<LogSpec, AllocError> {
        Ok(LogSpec {
            file: self.file.clone()?,
            maxbytes: self.maxbytes,
            backups: self.backups,
            capture: self.capture,
            events: self.events,
        })
    }
}

impl Clone for Spec {
    ghost is_clone = { λ spec copy. copy ≡ spec };

    fn clone(&self) -> Result<Spec, AllocError> {
        Ok(Spec {
            group: self.group.clone()?,
            name: self.name.clone()?,
            words: self.words.clone()?,
            priority: self.priority,
            autostart: self.autostart,
            startsecs: self.startsecs,
            startretries: self.startretries,
            autorestart: self.autorestart,
            exitcodes: self.exitcodes.clone()?,
            stopsignal: self.stopsignal,
            stopwaitsecs: self.stopwaitsecs,
            stopasgroup: self.stopasgroup,
            killasgroup: self.killasgroup,
            redirect_stderr: self.redirect_stderr,
            stdout: self.stdout.clone()?,
            stderr: self.stderr.clone()?,
            environment: self.environment.clone()?,
            directory: self.directory.clone()?,
            umask: self.umask.clone()?,
            user: self.user.clone()?,
        })
    }
}

impl Clone for PoolSpec {
    ghost is_clone = { λ pool copy. copy ≡ pool };

    fn clone(&self) -> Result<PoolSpec, AllocError> {
        Ok(PoolSpec {
            kinds: self.kinds.clone()?,
            buffer: self.buffer,
        })
    }
}

impl Clone for GroupSpec {
    ghost is_clone = { λ group copy. copy ≡ group };

    fn clone(&self) -> Result<GroupSpec, AllocError> {
        Ok(GroupSpec {
            name: self.name.clone()?,
            priority: self.priority,
            members: self.members.clone()?,
            pool: self.pool.clone()?,
        })
    }
}
