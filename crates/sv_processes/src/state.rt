//! What the system tells of this process.

use std::alloc::{AllocError, Global};
use std::fs;
use std::rt::Files;

/// Where Linux tells it.
const STATUS: &str = "/proc/self/status";

/// The rights of this process, its mask and the signals that it ignores. What the system doesn't tell is 0 or empty, and then
/// the process counts as root.
pub struct ProcessState {
    /// The number of its effective user.
    pub user: u32,
    /// The number of its effective group.
    pub group: u32,
    /// Its further groups.
    pub groups: Vec<u32>,
    /// The signals that it ignores: bit n - 1 is signal n.
    pub ignored: u64,
    /// Its mask of rights, where it is told.
    pub mask: Option<u32>,
}

impl Drop for ProcessState {
    fn drop(self) {
        let Self {
            user: _,
            group: _,
            groups: _,
            ignored: _,
            mask: _,
        } = self;
    }
}

impl ProcessState {
    /// The state of this process.
    pub fn of_self<R: Files>(rt: &R, alloc: Global) -> Result<ProcessState, AllocError> {
        match fs::read_to_string(&(rt, alloc), STATUS) {
            Ok(text) => ProcessState::told(alloc, text.as_str()),
            Err(_) => ProcessState::told(alloc, ""),
        }
    }

    /// The state that these lines tell, each a name, a colon and a value.
    pub fn told(alloc: Global, text: &str) -> Result<ProcessState, AllocError> {
        let mut state = ProcessState {
            user: 0,
            group: 0,
            groups: Vec::new(alloc),
            ignored: 0,
            mask: None,
        };
        for line in text.lines() {
            if let Some((name, value)) = line.split_once(':') {
                state.take(name, value.trim())?;
            }
        }
        Ok(state)
    }

    fn take(&mut self, name: &str, value: &str) -> Result<(), AllocError> {
        match name {
            "Uid" => self.user = effective(value),
            "Gid" => self.group = effective(value),
            "Groups" => self.take_groups(value)?,
            "SigIgn" => self.ignored = u64::from_str_radix(value, 16).unwrap_or(0),
            "Umask" => self.mask = u32::from_str_radix(value, 8).ok(),
            _ => {}
        }
        Ok(())
    }

    fn take_groups(&mut self, value: &str) -> Result<(), AllocError> {
        for number in value.split_ascii_whitespace() {
            if let Ok(number) = number.parse::<u32>() {
                self.groups.push(number)?;
            }
        }
        Ok(())
    }

    /// The signals that it ignores and that a daemon of Python would catch, so that its programs would have their defaults:
    /// their names, with commas between them.
    pub fn given_back(&self, alloc: Global) -> Result<String, AllocError> {
        let mut names = String::new(alloc);
        for &(bit, name) in &CAUGHT {
            if self.ignored & bit != 0 {
                if !names.is_empty() {
                    names.push(',')?;
                }
                names.push_str(name)?;
            }
        }
        Ok(names)
    }
}

/// The signals that are given back to programs, by their bits.
static CAUGHT: [(u64, &str); 6] = [
    (0x1, "HUP"),
    (0x2, "INT"),
    (0x4, "QUIT"),
    (0x800, "USR2"),
    (0x4000, "TERM"),
    (0x1_0000, "CHLD"),
];

/// The second of four numbers, which is the effective one.
fn effective(value: &str) -> u32 {
    match value.split_ascii_whitespace().nth(1) {
        Some(number) => number.parse::<u32>().unwrap_or(0),
        None => 0,
    }
}
