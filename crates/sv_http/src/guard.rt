//! Who may ask.
ghost use Rattle.std.specs.Prelude.{◌≡◌, IfOk};
ghost use Rattle.sv_http.specs.Authorization.{is_set, is_open, is_password, opens, lets_in};

use base64::DecodeAllocError;
use base64::engine::general_purpose::STANDARD;
use sha1::Sha1;
use std::alloc::{AllocError, Global};
use sv_base::config::Password;
use sv_base::text::Text;

/// Who is let in.
#[derive(Drop)]
pub struct Guard {
    /// Empty where none is asked for.
    pub username: Text,
    /// `None` or empty where none is asked for.
    pub password: Password,
}

impl Guard {
    /// Whether neither a username nor a password is set.
    pub(crate) fn is_open(&self) -> bool
        ensures { result ≡ is_open self.now }
    {
        self.username.as_str().is_empty() && !is_set(&self.password)
    }

    /// Whether the value of an Authorization field is `Basic` and the base64 of the username, a colon and the password.
    pub(crate) fn lets_in(&self, alloc: Global, value: &[u8]) -> Result<bool, AllocError>
        ensures { IfOk result (λ let_in. let_in ≡ lets_in self.now value.now) }
    {
        let Some(text) = value.strip_prefix(b"Basic ".as_slice()) else {
            return Ok(false);
        };
        match STANDARD.decode(alloc, text) {
            Ok(given) => Ok(self.opens(given.as_slice())),
            Err(DecodeAllocError::OutOfMemory) => Err(AllocError),
            Err(DecodeAllocError::DecodeError(_)) => Ok(false),
        }
    }

    /// Whether these bytes are the username, a colon and the password.
    fn opens(&self, given: &[u8]) -> bool
        ensures { result ≡ opens self.now given.now }
    {
        match given.strip_prefix(self.username.as_str().as_bytes()) {
            Some([b':', password @ ..]) => is_password(&self.password, password),
            _ => false,
        }
    }
}

fn is_set(password: &Password) -> bool
    ensures { result ≡ is_set password.now }
{
    match password {
        Password::None => false,
        Password::Plain(text) => !text.as_str().is_empty(),
        Password::Sha(_) => true,
    }
}

fn is_password(password: &Password, given: &[u8]) -> bool
    ensures { result ≡ is_password password.now given.now }
{
    match password {
        Password::None => given.is_empty(),
        Password::Plain(text) => given == text.as_str().as_bytes(),
        Password::Sha(digest) => Sha1::digest(given) == *digest,
    }
}
