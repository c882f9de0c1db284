//! A law of both halves of HTTP: what the client sends is read as the call that was sent.
mod laws;

pub use laws::a_request_is_read_as_its_call;
