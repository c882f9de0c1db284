//! The lines of a header.
use crate::code_list::ExitCodes;
use crate::program_name::ProgramName;
use sv_base::bytes::Bytes;
use sv_base::moment::Moment;
use sv_base::number::{Retries, Seconds, Within};
use sv_base::signal::Signal;
use sv_base::state::Autorestart;
use sv_base::text::Text;

/// The version of a journal: 0 of the short header, 1 of the long one.
pub type Version = Within<0, 1>;

/// One line of a journal's header.
#[derive(Drop)]
pub enum Header {
    /// The first line, with the version of the journal.
    Journal(Version),
    /// A program, by the keys that a short header gives it.
    Program(Program),
    /// The name of the host.
    Host(Text),
    /// The directory of the configuration, which is `here` in it.
    Here(Text),
    /// The daemon's process id, which may be 0.
    Pid(u32),
    /// A name in the environment, and its value.
    Env(Text, Text),
    /// A log file, and its size in bytes.
    Size(Text, u64),
    /// The text of the configuration, which may be any bytes.
    Conf(Bytes),
    /// The name of a file that the configuration includes, and its text, which may be any bytes.
    Include(Text, Bytes),
    /// The last line, with the moment at which the daemon starts.
    Go(Moment),
}

/// A program of a short header, whose command is its name; every other key has its default.
#[derive(Drop)]
pub struct Program {
    pub name: ProgramName,
    /// How long a start has to stay up to count.
    pub startsecs: Seconds,
    /// How many failed starts in a row are tried again.
    pub startretries: Retries,
    /// When an exited process is started again.
    pub autorestart: Autorestart,
    /// The expected exit codes.
    pub exitcodes: ExitCodes,
    /// The signal that asks it to stop.
    pub stopsignal: Signal,
    /// How long it may take to stop before it is sent KILL.
    pub stopwaitsecs: Seconds,
}
