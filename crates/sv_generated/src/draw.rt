//! An input of the run.
use sv_base::ids::Run;
use sv_base::moment::Moment;

/// An input of the run, with its moment.
#[derive(Clone, Copy, PartialEq, Eq)]
pub enum Draw {
    /// A clock moment.
    Tick(Moment),
    /// This run ended, with the exit code 1.
    Exit(Moment, Run),
    /// The console asks for the stop of the program of this number, from 0 to 199.
    Stop(Moment, u32),
    /// The console asks for its start.
    Start(Moment, u32),
}
