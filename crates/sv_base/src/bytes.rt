//! Owned bytes, and the pieces in which pipes and links bring them.
ghost use Rattle.std.specs.Prelude.{◌≡◌, ◌≤◌, ◌↔◌, IfOk, IsSome, IfSome, length};
ghost use Rattle.std.specs.Str.{bytes_eq};
ghost use Rattle.std.specs.Cmp.{partial_equiv_from_equiv};
ghost use Rattle.std.specs.Cmp.Lexicographic.{nat_list_eq_equiv};
ghost use Rattle.sv_base.specs.Limits.{piece_limit};

use std::alloc::{AllocError, Global};
use std::marker::Model;

/// The most bytes of one piece of a pipe or a link.
pub const PIECE_LIMIT: usize = 65_536;

/// Owned bytes, which contracts see as the list of the bytes.
#[derive(Drop)]
pub struct Bytes {
    bytes: Vec<u8>,
}

impl Model for Bytes {
    ghost use Rattle.std.specs.Prelude.{List, ℕ};

    ghost Value = { List ℕ };

    ghost view = { λ b. b.bytes.items };
}

impl Bytes {
    /// These bytes, which take no further memory.
    pub fn from_vec(bytes: Vec<u8>) -> Bytes
        ensures { result ≡ bytes.items }
    {
        Bytes { bytes }
    }

    /// A copy of these bytes.
    pub fn from_slice(alloc: Global, bytes: &[u8]) -> Result<Bytes, AllocError>
        ensures { IfOk result (λ b. b ≡ bytes.now) }
    {
        Ok(Bytes {
            bytes: Vec::from_slice(alloc, bytes)?,
        })
    }

    /// The bytes, in order.
    pub fn as_slice(&self) -> &[u8]
        ensures { result.now ≡ self.now }
    {
        self.bytes.as_slice()
    }

    /// Gives the bytes back as a vector.
    pub fn into_vec(self) -> Vec<u8>
        ensures { result.items ≡ self }
    {
        let Bytes { bytes } = self;
        bytes
    }
}

impl Clone for Bytes {
    ghost is_clone = { λ bytes copy. copy ≡ bytes };

    fn clone(&self) -> Result<Bytes, AllocError> {
        Ok(Bytes {
            bytes: self.bytes.clone()?,
        })
    }
}

impl PartialEq for Bytes {
    ghost eq = { bytes_eq };

    ghost laws = { partial_equiv_from_equiv nat_list_eq_equiv };

    fn eq(&self, other: &Bytes) -> bool {
        self.as_slice() == other.as_slice()
    }
}

impl Eq for Bytes {
    ghost laws = { nat_list_eq_equiv };
}

/// One piece of a pipe or a link: 1 to 65,536 bytes.
#[derive(Drop)]
pub struct Piece {
    bytes: Vec<u8>,
}

impl Model for Piece {
    ghost use Rattle.std.specs.Prelude.{List, ℕ, ◌≤◌, length};
    ghost use Rattle.sv_base.specs.Limits.{piece_limit};

    ghost Value = { List ℕ };

    ghost view = { λ p. p.bytes.items };

    ghost invariant = { λ p. (1 ≤ length p.bytes.items) × (length p.bytes.items ≤ piece_limit) };
}

impl Piece {
    /// A piece of these bytes, or `None` exactly where there is none of them or are too many.
    pub fn new(bytes: Vec<u8>) -> Option<Piece>
        ensures valid { IsSome result
            ↔ ((1 ≤ length bytes.items) × (length bytes.items ≤ piece_limit)) }
        ensures value { IfSome result (λ p. p ≡ bytes.items) }
    {
        let length = bytes.as_slice().len();
        if 1 <= length && length <= PIECE_LIMIT {
            Some(Piece { bytes })
        } else {
            None
        }
    }

    /// The bytes, in order.
    pub fn as_slice(&self) -> &[u8]
        ensures value { result.now ≡ self.now }
        ensures least { 1 ≤ length result.now }
        ensures most { length result.now ≤ piece_limit }
    {
        self.bytes.as_slice()
    }

    /// Gives the bytes, which are then of no fixed size.
    pub fn into_bytes(self) -> Bytes
        ensures { result ≡ self }
    {
        let Piece { bytes } = self;
        Bytes::from_vec(bytes)
    }
}
