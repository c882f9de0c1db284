//! Why a text has no words, no pairs or no expansion.
ghost use Rattle.sv_expand.specs.declared.fault.WordFault.TheVariants as word;
ghost use Rattle.sv_expand.specs.declared.fault.PairFault.TheVariants as pair;
ghost use Rattle.sv_expand.specs.declared.fault.ExpandFault.TheVariants as expand;
ghost use Rattle.std.specs.Prelude.{◌≡◌};

use std::alloc::{AllocError, AllocFailed};
use sv_base::text::Text;
use thiserror::Error;

/// Why a text has no words.
#[derive(Debug, Drop, Error)]
pub enum WordFault {
    /// A quote isn't closed, or a backslash ends the text.
    #[error("1 OpenQuote")]
    OpenQuote,
    /// There was no memory left for the answer.
    #[error("out of memory")]
    OutOfMemory,
}

impl WordFault {
    ghost use Rattle.sv_expand.specs.Faults.{word_number};

    /// The number of the fault; out of memory has none.
    pub fn number(&self) -> Option<u32>
        ensures { result ≡ word_number self.now }
    {
        match self {
            WordFault::OpenQuote => Some(1),
            WordFault::OutOfMemory => None,
        }
    }
}

impl From<AllocError> for WordFault {
    ghost from_gives = { λ _ e. e ≡ word.OutOfMemory };

    fn from(_: AllocError) -> WordFault {
        WordFault::OutOfMemory
    }
}

impl<T: Drop> From<AllocFailed<T>> for WordFault {
    ghost from_gives = { λ _ e. e ≡ word.OutOfMemory };

    fn from(_: AllocFailed<T>) -> WordFault {
        WordFault::OutOfMemory
    }
}

/// Why a text isn't a list of pairs.
#[derive(Debug, Drop, Error)]
pub enum PairFault {
    /// The place of the first pair that isn't NAME=VALUE, counted in bytes from 0.
    #[error("1 BadPair {0}")]
    BadPair(usize),
    /// There was no memory left for the answer.
    #[error("out of memory")]
    OutOfMemory,
}

impl PairFault {
    ghost use Rattle.sv_expand.specs.Faults.{pair_number};

    /// The number of the fault; out of memory has none.
    pub fn number(&self) -> Option<u32>
        ensures { result ≡ pair_number self.now }
    {
        match self {
            PairFault::BadPair(_) => Some(1),
            PairFault::OutOfMemory => None,
        }
    }
}

impl From<AllocError> for PairFault {
    ghost from_gives = { λ _ e. e ≡ pair.OutOfMemory };

    fn from(_: AllocError) -> PairFault {
        PairFault::OutOfMemory
    }
}

impl<T: Drop> From<AllocFailed<T>> for PairFault {
    ghost from_gives = { λ _ e. e ≡ pair.OutOfMemory };

    fn from(_: AllocFailed<T>) -> PairFault {
        PairFault::OutOfMemory
    }
}

/// Why a text has no expansion: the leftmost cause.
#[derive(Debug, Drop, Error)]
pub enum ExpandFault {
    /// A name that stands for nothing, or for no number where one is to be printed.
    #[error("1 Unknown {}", .0.as_str())]
    Unknown(Text),
    /// The place of a `%` that begins no form, counted in bytes from 0.
    #[error("2 BadForm {0}")]
    BadForm(usize),
    /// There was no memory left for the answer.
    #[error("out of memory")]
    OutOfMemory,
}

impl ExpandFault {
    ghost use Rattle.sv_expand.specs.Faults.{expand_number};

    /// The number of the fault; out of memory has none.
    pub fn number(&self) -> Option<u32>
        ensures { result ≡ expand_number self.now }
    {
        match self {
            ExpandFault::Unknown(_) => Some(1),
            ExpandFault::BadForm(_) => Some(2),
            ExpandFault::OutOfMemory => None,
        }
    }
}

impl From<AllocError> for ExpandFault {
    ghost from_gives = { λ _ e. e ≡ expand.OutOfMemory };

    fn from(_: AllocError) -> ExpandFault {
        ExpandFault::OutOfMemory
    }
}

impl<T: Drop> From<AllocFailed<T>> for ExpandFault {
    ghost from_gives = { λ _ e. e ≡ expand.OutOfMemory };

    fn from(_: AllocFailed<T>) -> ExpandFault {
        ExpandFault::OutOfMemory
    }
}
