//! The signals that wait for a process which has them blocked.
ghost use Rattle.std.specs.Prelude.{◌≡◌};

use std::fs;
use std::rt::Files;

/// Where Linux tells of this process.
const STATUS: &str = "/proc/self/status";

/// The signals that stop the daemon, each as its bit in the sets that Linux tells, and the console's line for it, which begins by ending
/// any other.
const LINES: [(u64, &str); 3] = [
    (0x4000, "\nsignal TERM\n"),
    (0x2, "\nsignal INT\n"),
    (0x4, "\nsignal QUIT\n"),
];

/// The set of signals in a field of `/proc/PID/status`, as `SigBlk`: bit n - 1 stands for the signal of number n. It is empty
/// where the field isn't there.
pub fn signal_set(status: &str, field: &str) -> u64 {
    for line in status.lines() {
        if let Some((name, value)) = line.split_once(':') {
            if name == field {
                return u64::from_str_radix(value.trim(), 16).unwrap_or(0);
            }
        }
    }
    0
}

/// Which of the signals that stop the daemon are blocked and were not told yet.
#[derive(Clone, Copy)]
pub(crate) struct Waiting {
    blocked: u64,
}

impl Waiting {
    /// Whether none is looked for.
    pub(crate) fn is_none(self) -> bool {
        self.blocked == 0
    }

    /// The line of the first signal of this set that is looked for; it isn't told again.
    pub(crate) fn next_line(&mut self, waiting: u64) -> Option<&'static str> {
        for (bit, line) in LINES {
            if self.blocked & waiting & bit != 0 {
                self.blocked &= !bit;
                return Some(line);
            }
        }
        None
    }
}

/// Which of the signals that stop the daemon this process has blocked.
pub(crate) fn blocked_now<R: Files + AllocGlobal>(rt: &R) -> Waiting {
    let all = LINES.iter().fold(0, |all, (bit, _)| all | bit);
    Waiting {
        blocked: set_now(rt, "SigBlk") & all,
    }
}

/// The signals that wait for this process; none is looked for where none of them counts.
pub(crate) fn waiting_now<R: Files + AllocGlobal>(rt: &R, signals: Waiting) -> u64 {
    if signals.is_none() {
        return 0;
    }
    set_now(rt, "ShdPnd")
}

fn set_now<R: Files + AllocGlobal>(rt: &R, field: &str) -> u64 {
    match fs::read_to_string(rt, STATUS) {
        Ok(status) => signal_set(status.as_str(), field),
        Err(_) => 0,
    }
}
