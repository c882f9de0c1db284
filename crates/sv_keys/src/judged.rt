//! The value of a key, or why there is none.

ghost use Rattle.std.specs.Prelude.{◌≡◌, IfOk, IfErr, Ok};
ghost use Rattle.sv_keys.specs.Judged.{or_bad, earlier, joined, IsFault};
ghost use Rattle.sv_keys.specs.declared.judged.Unread.TheVariants.{Faulty, OutOfMemory};

use crate::key::Key;
use std::alloc::{AllocError, AllocFailed};

/// What can be wrong with the value of a key.
#[derive(Clone, Copy)]
pub enum Cause {
    /// It has no expansion.
    Expand,
    /// Its expansion isn't a value of the key.
    BadValue,
}

/// A key of a section whose value is faulty.
#[derive(Clone, Copy)]
pub struct KeyFault {
    pub key: Key,
    pub cause: Cause,
}

/// Why the keys of a section aren't read.
#[derive(Clone, Copy)]
pub enum Unread {
    /// This key is the first whose value is faulty.
    Faulty(KeyFault),
    /// There was no memory left.
    OutOfMemory,
}

/// The value of a key, or why there is none.
pub type Judged<T> = Result<T, Unread>;

/// A value that was read, or the fault that it wasn't one.
pub fn or_bad<T>(key: Key, value: Option<T>) -> Judged<T>
    ensures value { IfOk result (λ read. or_bad key value ≡ Ok read) }
    ensures fault { IfErr result (λ fault. IsFault fault (or_bad key value)) }
{
    match value {
        Some(value) => Ok(value),
        None => Err(Unread::Faulty(KeyFault {
            key,
            cause: Cause::BadValue,
        })),
    }
}

/// The fault of the key that is looked at earlier; of one key the first fault.
pub fn earlier(one: KeyFault, other: KeyFault) -> KeyFault
    ensures { result ≡ earlier one other }
{
    if other.key.place() < one.key.place() {
        other
    } else {
        one
    }
}

/// Both, or the fault of the earlier key.
pub fn joined<A: Drop, B: Drop>(
    one: Result<A, KeyFault>,
    other: Result<B, KeyFault>,
) -> Result<(A, B), KeyFault>
    ensures { result ≡ joined one other }
{
    match (one, other) {
        (Ok(one), Ok(other)) => Ok((one, other)),
        (Ok(_), Err(fault)) => Err(fault),
        (Err(fault), Ok(_)) => Err(fault),
        (Err(fault), Err(other)) => Err(earlier(fault, other)),
    }
}

impl From<KeyFault> for Unread {
    ghost from_gives = { λ f e. e ≡ Faulty f };

    fn from(fault: KeyFault) -> Unread {
        Unread::Faulty(fault)
    }
}

impl From<AllocError> for Unread {
    ghost from_gives = { λ _ e. e ≡ OutOfMemory };

    fn from(_: AllocError) -> Unread {
        Unread::OutOfMemory
    }
}

impl<T: Drop> From<AllocFailed<T>> for Unread {
    ghost from_gives = { λ _ e. e ≡ OutOfMemory };

    fn from(_: AllocFailed<T>) -> Unread {
        Unread::OutOfMemory
    }
}
