//! The server that is asked.
use sv_base::{ClientSpec, Place};

/// The server that is asked: where it is, and its URL with the username and the password.
pub struct Server {
    pub place: Place,
    pub client: ClientSpec,
}

impl Drop for Server {
    fn drop(self) {
        let Self {
            place: _,
            client: _,
        } = self;
    }
}
