//! The words of the whole product: texts, moments, numbers with their limits, and the records that describe
//! a configuration. Each type keeps its limits by itself, and contracts see each as plain data: a text as the
//! list of its bytes, a list as the list of its elements, a limited number as the number.
#![tactic(auto)]

pub mod bytes;
pub mod config;
pub mod groups;
pub mod ids;
pub mod items;
pub mod kind;
pub mod laws;
pub mod moment;
pub mod names;
pub mod number;
pub mod ranked;
pub mod signal;
pub mod sizes;
pub mod spec;
pub mod state;
pub mod text;
pub mod words;

pub use crate::bytes::{Bytes, PIECE_LIMIT, Piece};
pub use crate::config::{ClientSpec, Config, FileOrder, Host, Password, Place, ServerSpec};
pub use crate::groups::{Groups, MOST_GROUPS, MOST_PROCESSES};
pub use crate::ids::{ChildId, LinkId, Run};
pub use crate::items::Items;
pub use crate::kind::Kind;
pub use crate::moment::{DEADLINE_LIMIT, Deadline, MOMENT_LIMIT, Moment};
pub use crate::names::split_name;
pub use crate::number::{
    Backups, BufferSize, CaptureBytes, ExitSignal, Pid, Retries, Seconds, Tries, Within,
};
pub use crate::signal::{DaemonSignal, Signal};
pub use crate::sizes::size_of_text;
pub use crate::spec::{GroupSpec, LogSpec, PoolSpec, Spec};
pub use crate::state::{Autorestart, How, Level, Mood, Side, State, Stream};
pub use crate::text::Text;
pub use crate::words::{kind_of, signal_of, truth_of};
