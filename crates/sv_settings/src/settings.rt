//! The settings of the daemon itself.
ghost use Rattle.std.specs.Prelude.{◌≡◌, IfOk, Ok};
ghost use Rattle.std.specs.Option.{option_map};
ghost use Rattle.sv_expand.specs.Values.{value_of};
ghost use Rattle.sv_keys.specs.KnownNames.{host_names};
ghost use Rattle.sv_sections.specs.Includes.{section_named};
ghost use Rattle.sv_settings.specs.Settings.{AreSettings, expanded_or_empty, keys_of, setting};

use crate::values::{mode_of, whole_of};
use std::alloc::Global;
use sv_base::words::truth_of;
use sv_base::{Host, Text};
use sv_expand::expand::expand;
use sv_expand::fault::ExpandFault;
use sv_expand::names::{Names, text_of};
use sv_ini::section::Section;
use sv_keys::names::host_names;
use sv_sections::ConfFault;
use sv_sections::includes::section_named;

/// The section of the daemon.
const DAEMON: &str = "supervisord";

/// The section of the server at a file.
const UNIX: &str = "unix_http_server";

/// The keys of a configuration that are for the edge alone, each expanded, and empty where it isn't set.
pub struct Settings {
    /// The user that the daemon becomes, by name or number.
    pub user: Text,
    /// The file mode creation mask of the daemon, in octal digits.
    pub umask: Text,
    /// The directory that the daemon works in.
    pub directory: Text,
    /// The file that has the daemon's number.
    pub pidfile: Text,
    /// How many descriptors there must be, as decimal digits.
    pub minfds: Text,
    /// How many processes there must be, as decimal digits.
    pub minprocs: Text,
    /// A truth value: whether old logs of programs stay at the start.
    pub nocleanup: Text,
    /// A truth value: whether the main log isn't written to standard output as well.
    pub silent: Text,
    /// Where the logs go that have no name of their own.
    pub childlogdir: Text,
    /// The rights of the socket's file, in octal digits.
    pub chmod: Text,
    /// Who the socket's file belongs to: a user, or a user and a group with a colon or a point between them.
    pub chown: Text,
}

impl Drop for Settings {
    fn drop(self) {
        let Self {
            user: _,
            umask: _,
            directory: _,
            pidfile: _,
            minfds: _,
            minprocs: _,
            nocleanup: _,
            silent: _,
            childlogdir: _,
            chmod: _,
            chown: _,
        } = self;
    }
}

impl Settings {
    /// Whether the main log isn't written to standard output as well.
    pub fn is_silent(&self) -> bool {
        truth_of(self.silent.as_str()) == Some(true)
    }

    /// Nothing where each value can be read, else the first that can't.
    pub fn judged(&self) -> Result<(), ConfFault> {
        let octal = [(DAEMON, "umask", &self.umask), (UNIX, "chmod", &self.chmod)];
        for (section, key, value) in octal {
            let read = mode_of(value.as_str()).is_some();
            judge(section, key, value.as_str(), read)?;
        }
        for (key, value) in [("minfds", &self.minfds), ("minprocs", &self.minprocs)] {
            let read = whole_of(value.as_str()).is_some();
            judge(DAEMON, key, value.as_str(), read)?;
        }
        for (key, value) in [("nocleanup", &self.nocleanup), ("silent", &self.silent)] {
            let read = truth_of(value.as_str()).is_some();
            judge(DAEMON, key, value.as_str(), read)?;
        }
        Ok(())
    }
}

/// Refuses a value that is set and wasn't read.
fn judge(
    section: &'static str,
    key: &'static str,
    value: &str,
    read: bool,
) -> Result<(), ConfFault> {
    if value.is_empty() || read {
        return Ok(());
    }
    Err(ConfFault::BadValue(Text::fixed(section), Text::fixed(key)))
}

/// The settings of these sections on this host. Refused as `Expand` where a value can't be expanded.
pub fn settings_of(alloc: Global, sections: &[Section], host: &Host) -> Result<Settings, ConfFault>
    ensures { IfOk result (λ settings. AreSettings sections.now (host_names host.now) settings) }
{
    let names = host_names(alloc, host)?;
    Ok(Settings {
        user: setting(alloc, sections, &names, DAEMON, "user")?,
        umask: setting(alloc, sections, &names, DAEMON, "umask")?,
        directory: setting(alloc, sections, &names, DAEMON, "directory")?,
        pidfile: setting(alloc, sections, &names, DAEMON, "pidfile")?,
        minfds: setting(alloc, sections, &names, DAEMON, "minfds")?,
        minprocs: setting(alloc, sections, &names, DAEMON, "minprocs")?,
        nocleanup: setting(alloc, sections, &names, DAEMON, "nocleanup")?,
        silent: setting(alloc, sections, &names, DAEMON, "silent")?,
        childlogdir: setting(alloc, sections, &names, DAEMON, "childlogdir")?,
        chmod: setting(alloc, sections, &names, UNIX, "chmod")?,
        chown: setting(alloc, sections, &names, UNIX, "chown")?,
    })
}

/// The value of a key of a section, expanded; empty where it isn't set.
fn setting(
    alloc: Global,
    sections: &[Section],
    names: &Names,
    section: &'static str,
    key: &'static str,
) -> Result<Text, ConfFault>
    ensures { IfOk result (λ text. setting sections.now names.now section.now key.now ≡ Ok text) }
{
    let Some(found) = section_named(section, sections) else {
        return Ok(Text::fixed(""));
    };
    let Some(text) = text_of(found.keys.as_slice(), key) else {
        return Ok(Text::fixed(""));
    };
    match expand(alloc, text, names) {
        Ok(text) => Ok(text),
        Err(ExpandFault::OutOfMemory) => Err(ConfFault::OutOfMemory),
        Err(_) => Err(ConfFault::Expand(Text::fixed(section), Text::fixed(key))),
    }
}
