//! What a client's request is: refused, or a call; and what its answer looks like on the link. `specs/Served.antt` is the
//! definition. Nothing here carries anything out.
mod read;
mod request;
mod sent;
mod several;

pub use read::{FileReply, LogRead, read_back};
pub use request::{Heard, hear, subject_of};
pub use sent::{Sent, say};
pub use several::{is_several, no_parts, parts_asked};
