//! The known sizes of log files that a header names.
ghost use Rattle.std.specs.Prelude.{◌≡◌, ◌++◌, ◌∷◌, [], IsTrue, IfOk};
ghost use Rattle.sv_logs.specs.Sizes.{rise};
ghost use Rattle.sv_judge.specs.LongHeader.{is_behind};

use std::alloc::{AllocError, Global};
use std::marker::Model;
use sv_base::text::Text;

/// The known sizes of log files in bytes, by rising names.
#[derive(Drop)]
pub struct Sizes {
    sizes: Vec<(Text, u64)>,
}

impl Model for Sizes {
    ghost use Rattle.std.specs.Prelude.{List, ℕ, IsTrue};
    ghost use Rattle.sv_logs.specs.Sizes.{rise};

    ghost Value = { List (List ℕ × ℕ) };

    ghost view = { λ s. s.sizes.items };

    ghost invariant = { λ s. IsTrue (rise s.sizes.items) };
}

impl Sizes {
    /// No file has a known size.
    pub(crate) fn none(alloc: Global) -> Sizes
        ensures { result ≡ [] }
    {
        Sizes {
            sizes: Vec::new(alloc),
        }
    }

    /// These sizes and that of one more file, whose name stands after the others.
    pub(crate) fn with(self, file: Text, size: u64) -> Result<Sizes, AllocError>
        requires { IsTrue (is_behind file self) }
        ensures { IfOk result (λ more. more ≡ self ++ (file, size) ∷ []) }
    {
        let Sizes { sizes } = self;
        let mut sizes = sizes;
        sizes.push((file, size))?;
        Ok(Sizes { sizes })
    }

    /// The sizes by rising names.
    pub(crate) fn as_slice(&self) -> &[(Text, u64)]
        ensures { result.now ≡ self.now }
    {
        self.sizes.as_slice()
    }

    /// Gives the sizes back as a vector.
    pub(crate) fn into_vec(self) -> Vec<(Text, u64)>
        ensures items { result.items ≡ self }
        ensures rise { IsTrue (rise result.items) }
    {
        let Sizes { sizes } = self;
        sizes
    }
}

/// Whether the name stands after that of the last entry, if there is one.
pub(crate) fn is_behind<V>(name: &Text, entries: &[(Text, V)]) -> bool
    ensures { result ≡ is_behind name.now entries.now }
{
    match entries.last() {
        Some((last, _)) => last.cmp(name).is_lt(),
        None => true,
    }
}
