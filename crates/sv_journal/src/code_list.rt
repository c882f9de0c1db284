//! Lists of exit codes.
ghost use Rattle.std.specs.Prelude.{◌≡◌, ◌↔◌, ◌<◌, length, IsSome, IfSome};

use std::marker::Model;
use sv_base::items::Items;

/// Exit codes, at least one, which contracts see as the list of the codes.
#[derive(Drop)]
pub struct ExitCodes {
    codes: Items<u8>,
}

impl Model for ExitCodes {
    ghost use Rattle.std.specs.Prelude.{List, ℕ, ◌<◌, length};

    ghost Value = { List ℕ };

    ghost view = { λ c. c.codes };

    ghost invariant = { λ c. 0 < length c.codes };
}

impl ExitCodes {
    /// These codes, or `None` exactly where there is none of them.
    pub fn new(codes: Items<u8>) -> Option<ExitCodes>
        ensures valid { IsSome result ↔ (0 < length codes) }
        ensures value { IfSome result (λ exitcodes. exitcodes ≡ codes) }
    {
        if codes.as_slice().is_empty() {
            None
        } else {
            Some(ExitCodes { codes })
        }
    }

    /// The codes, in order.
    pub fn as_slice(&self) -> &[u8]
        ensures value { result.now ≡ self.now }
        ensures some { 0 < length result.now }
    {
        self.codes.as_slice()
    }

    /// Gives the codes as a plain list.
    pub fn into_items(self) -> Items<u8>
        ensures { result ≡ self }
    {
        let ExitCodes { codes } = self;
        codes
    }
}
