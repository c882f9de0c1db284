//! The connections of the machine over TCP and Unix sockets: a dial, what accepts links, and the gate whose threads serve
//! them. Each object counts its errors, and tells nothing of what came over a link.
#![tactic(auto)]

mod accepted;
mod gate;
mod idle;
mod links;
mod listening;
mod opening;
mod refused;
mod socket_file;
mod sockets;

pub use accepted::AcceptedLink;
pub use gate::{Errand, LinksAtWork, OsGate, SpareThreads, receive_and_work, receive_and_work_all};
pub use idle::{Standing, claim, longest_idle};
pub use links::{LinkTable, MOST_LINKS, MOST_OF_A_SIDE};
pub use listening::OsListen;
pub use opening::{Listener, open_address};
pub use refused::{OpenFault, opening_line};
pub use socket_file::{OwnSocket, SocketRules, socket_rules};
pub use sockets::{OsDial, OsLink};
