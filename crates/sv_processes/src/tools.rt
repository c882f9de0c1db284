//! The small programs of the system through which programs are started and signalled.

use std::alloc::{AllocError, Global};
use std::fs;
use std::rt::Files;
use sv_base::Text;

/// Where they are looked for, in this order.
static PLACES: [&str; 4] = ["/usr/bin", "/bin", "/usr/sbin", "/sbin"];

/// The programs of the system that are there, each by its path. They are looked for once.
pub struct Tools {
    /// An `env` that knows `--default-signal`.
    pub env: Option<Text>,
    /// `setsid`
    pub setsid: Option<Text>,
    /// A `setpriv` that knows `--reuid`.
    pub setpriv: Option<Text>,
    /// The `su` of busybox.
    pub su: Option<Text>,
    /// `sh`
    pub shell: Option<Text>,
    /// `getent`
    pub getent: Option<Text>,
}

impl Drop for Tools {
    fn drop(self) {
        let Self {
            env: _,
            setsid: _,
            setpriv: _,
            su: _,
            shell: _,
            getent: _,
        } = self;
    }
}

impl Tools {
    /// None.
    pub fn none() -> Tools {
        Tools {
            env: None,
            setsid: None,
            setpriv: None,
            su: None,
            shell: None,
            getent: None,
        }
    }

    /// Those that are there.
    pub fn find<R: Files>(rt: &R, alloc: Global) -> Result<Tools, AllocError> {
        let mut tools = Tools::none();
        tools.env = found(rt, alloc, "env", Make::Whole)?;
        tools.setsid = found(rt, alloc, "setsid", Make::Any)?;
        tools.setpriv = found(rt, alloc, "setpriv", Make::Whole)?;
        tools.su = found(rt, alloc, "su", Make::Busybox)?;
        tools.shell = found(rt, alloc, "sh", Make::Any)?;
        tools.getent = found(rt, alloc, "getent", Make::Any)?;
        Ok(tools)
    }

    /// What doesn't work without those that are missing, a line each. `is_root`: whether the daemon could become other users;
    /// `ignores`: whether it ignores signals that its programs are to have.
    pub fn lacks(&self, is_root: bool, ignores: bool) -> [Option<&'static str>; 4] {
        [
            missing(
                self.setsid.is_none(),
                "no setsid in /usr/bin or /bin: programs stay in the daemon's process group, and a signal to a group reaches \
                 the program alone; install util-linux or busybox",
            ),
            missing(
                self.shell.is_none(),
                "no sh in /usr/bin or /bin: no signal but KILL is sent, and no umask is set; install a shell",
            ),
            missing(
                is_root && self.setpriv.is_none() && self.su.is_none(),
                "no setpriv in /usr/bin or /bin: programs with a user are refused; install util-linux",
            ),
            missing(
                ignores && self.env.is_none(),
                "no env that knows --default-signal in /usr/bin or /bin: the signals that the daemon ignores are ignored by its \
                 programs too; install coreutils, or start the daemon in the foreground",
            ),
        ]
    }
}

fn missing(is: bool, line: &'static str) -> Option<&'static str> {
    if is { Some(line) } else { None }
}

/// Which make of a tool is meant.
#[derive(Clone, Copy, PartialEq, Eq)]
enum Make {
    Any,
    /// Not the one of busybox, which knows less.
    Whole,
    Busybox,
}

/// The path of the first tool of this name and make.
fn found<R: Files>(
    rt: &R,
    alloc: Global,
    name: &str,
    make: Make,
) -> Result<Option<Text>, AllocError> {
    for place in PLACES {
        let path = format!(in alloc; "{place}/{name}")?;
        if fs::metadata(rt, path.as_str()).is_ok() && is_of(rt, alloc, path.as_str(), make) {
            return Ok(Some(Text::from_string(path)));
        }
    }
    Ok(None)
}

fn is_of<R: Files>(rt: &R, alloc: Global, path: &str, make: Make) -> bool {
    match make {
        Make::Any => true,
        Make::Whole => !is_busybox(rt, alloc, path),
        Make::Busybox => is_busybox(rt, alloc, path),
    }
}

/// Whether this path leads to busybox.
fn is_busybox<R: Files>(rt: &R, alloc: Global, path: &str) -> bool {
    match fs::canonicalize(&(rt, alloc), path) {
        Ok(path) => path.as_path().as_str().contains("busybox"),
        Err(_) => false,
    }
}
