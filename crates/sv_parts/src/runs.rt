//! The loop's side of runs: orders to send a signal to a run and to write its standard input become calls of the spawner
//! and words to a lane; and what the notes of a run change.
pub use life::{Life, close, stdin_lane};
pub use live_runs::LiveRuns;
pub use spawning::{SpawnAnswer, spawn};

mod ends;
mod life;
mod live_runs;
mod spawning;
mod starting;
