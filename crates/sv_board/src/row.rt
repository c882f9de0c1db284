//! A row of the board, and a report of a process's state.

ghost use Rattle.std.specs.Prelude.{◌≡◌, IfOk};

use std::alloc::AllocError;
use sv_base::state::State;
use sv_base::text::Text;

/// The state of a process.
#[derive(Drop)]
pub struct Row {
    /// The name of its group.
    pub group: Text,
    /// Its own name.
    pub name: Text,
    pub state: State,
}

/// The news that a process went to a state.
#[derive(Drop)]
pub struct Report {
    /// The name of its group.
    pub group: Text,
    /// Its own name.
    pub name: Text,
    /// The state to which it went.
    pub to: State,
}

impl Clone for Row {
    ghost is_clone = { λ row copy. copy ≡ row };

    fn clone(&self) -> Result<Row, AllocError> {
        Ok(Row {
            group: self.group.clone()?,
            name: self.name.clone()?,
            state: self.state,
        })
    }
}

impl Clone for Report {
    ghost is_clone = { λ report copy. copy ≡ report };

    fn clone(&self) -> Result<Report, AllocError> {
        Ok(Report {
            group: self.group.clone()?,
            name: self.name.clone()?,
            to: self.to,
        })
    }
}
