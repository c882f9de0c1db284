//! Names that rise by bytes.
ghost use Rattle.std.specs.Prelude.{◌≡◌, ◌↔◌, IsSome, IfSome};
ghost use Rattle.sv_out.specs.Files.{AreRising};
ghost use Rattle.sv_out.specs.Rising.{is_before, rise};

use std::alloc::AllocError;
use std::marker::Model;
use sv_base::items::Items;
use sv_base::text::Text;

/// Names that rise by bytes, each once, which contracts see as the list of the names.
#[derive(Drop)]
pub struct RisingNames {
    names: Items<Text>,
}

impl Model for RisingNames {
    ghost use Rattle.std.specs.Prelude.{List, ℕ};
    ghost use Rattle.sv_out.specs.Files.{AreRising};

    ghost Value = { List (List ℕ) };

    ghost view = { λ n. n.names };

    ghost invariant = { λ n. AreRising n.names };
}

impl RisingNames {
    /// These names, or `None` exactly where one of them doesn't stand above the one before it.
    #[tactic(auto, using(crate::proofs::NamesInOrder::rise_rising, crate::proofs::NamesInOrder::rising_rise))]
    pub fn new(names: Vec<Text>) -> Option<RisingNames>
        ensures valid { IsSome result ↔ AreRising names.items }
        ensures value { IfSome result (λ rising. rising ≡ names.items) }
    {
        if rise(names.as_slice()) {
            Some(RisingNames {
                names: Items::from_vec(names),
            })
        } else {
            None
        }
    }

    /// The names, in order.
    pub fn as_slice(&self) -> &[Text]
        ensures value { result.now ≡ self.now }
        ensures rising { AreRising result.now }
    {
        self.names.as_slice()
    }
}

impl Clone for RisingNames {
    ghost is_clone = { λ names copy. copy ≡ names };

    fn clone(&self) -> Result<RisingNames, AllocError> {
        Ok(RisingNames {
            names: self.names.clone()?,
        })
    }
}

/// Whether each name stands before the one after it.
fn rise(names: &[Text]) -> bool
    ensures { result ≡ rise names.now }
{
    let mut left = names;
    while let [name, rest @ ..] = left {
        if !is_before(name, rest) {
            return false;
        }
        left = rest;
    }
    true
}

/// Whether a name stands before the first of these, if there is one.
fn is_before(name: &Text, names: &[Text]) -> bool
    ensures { result ≡ is_before name.now names.now }
{
    match names {
        [next, ..] => name.cmp(next).is_lt(),
        [] => true,
    }
}
