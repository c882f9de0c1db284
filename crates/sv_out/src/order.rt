//! What the machine tells the world.

use sv_base::bytes::Bytes;
use sv_base::ids::{LinkId, Run};
use sv_base::items::Items;
use sv_base::signal::Signal;
use sv_base::state::State;
use sv_base::text::Text;

/// All that is needed to start one process.
pub struct SpawnOrder {
    pub run: Run,
    /// The name of the child's group.
    pub group: Text,
    /// The child's own name.
    pub name: Text,
    /// The directory in which it starts; empty is the daemon's.
    pub directory: Text,
    /// Octal digits; empty is the daemon's.
    pub umask: Text,
    /// The user that it runs as; empty is the daemon's.
    pub user: Text,
    /// The command's words.
    pub words: Items<Text>,
    /// The variables that are added to the daemon's environment.
    pub environment: Items<(Text, Text)>,
}

impl Drop for SpawnOrder {
    fn drop(self) {
        let Self {
            run: _,
            group: _,
            name: _,
            directory: _,
            umask: _,
            user: _,
            words: _,
            environment: _,
        } = self;
    }
}

/// One thing that the machine tells the world to do, or reports.
pub enum Order {
    /// Reports that a child went from one state to another.
    State {
        group: Text,
        name: Text,
        from: State,
        to: State,
    },
    /// Reports that the full buffer of a pool dropped an event: its number among all events, and that in the pool, both
    /// modulo 2^64.
    Dropped {
        pool: Text,
        serial: u64,
        poolserial: u64,
    },
    /// Asks for a process; a question, which is answered by an input.
    Spawn(SpawnOrder),
    /// Sends a signal to the process of a run, or to its process group.
    Kill {
        run: Run,
        signal: Signal,
        group: bool,
    },
    /// Writes bytes to the standard input of a run.
    Stdin {
        run: Run,
        bytes: Bytes,
    },
    /// Adds bytes at the end of a file, which is made where there is none.
    Append {
        file: Text,
        bytes: Bytes,
    },
    /// Gives a file another name; a file of that name is replaced. Nothing happens where there is none.
    Shift {
        from: Text,
        to: Text,
    },
    /// Makes a file anew and empty.
    Fresh {
        file: Text,
    },
    /// Asks for so many bytes of a file from a place on; a question, which is answered by an input.
    ReadFile {
        file: Text,
        start: u64,
        length: u64,
    },
    /// Asks that a file becomes empty; a question, which is answered by an input.
    ClearFile {
        file: Text,
    },
    /// Asks which files' names a pattern matches, in which `*` is any run without `/` and `?` one character but `/`; a
    /// question, which is answered by an input.
    Names {
        pattern: Text,
    },
    /// Asks how many bytes a file has; a question, which is answered by an input.
    Size {
        file: Text,
    },
    /// Sends bytes over a link.
    Send {
        link: LinkId,
        bytes: Bytes,
    },
    /// Reads on from a link: one more piece of it is wanted.
    More {
        link: LinkId,
    },
    /// Closes a link.
    Close {
        link: LinkId,
    },
    /// The daemon ends: every group is at rest.
    Halt,
}

impl Drop for Order {
    fn drop(self) {
        match self {
            Self::State {
                group: _,
                name: _,
                from: _,
                to: _,
            } => {}
            Self::Dropped {
                pool: _,
                serial: _,
                poolserial: _,
            } => {}
            Self::Spawn(_) => {}
            Self::Kill {
                run: _,
                signal: _,
                group: _,
            } => {}
            Self::Stdin { run: _, bytes: _ } => {}
            Self::Append { file: _, bytes: _ } => {}
            Self::Shift { from: _, to: _ } => {}
            Self::Fresh { file: _ } => {}
            Self::ReadFile {
                file: _,
                start: _,
                length: _,
            } => {}
            Self::ClearFile { file: _ } => {}
            Self::Names { pattern: _ } => {}
            Self::Size { file: _ } => {}
            Self::Send { link: _, bytes: _ } => {}
            Self::More { link: _ } => {}
            Self::Close { link: _ } => {}
            Self::Halt => {}
        }
    }
}
