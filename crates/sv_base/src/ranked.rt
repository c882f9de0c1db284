//! Start order: by priority, then by name.
ghost use Rattle.std.specs.Prelude.{◌≡◌, List, ℕ, ℤ};
ghost use Rattle.sv_base.specs.Order.{start_order, is_before, is_rising, is_named_again};
ghost use Rattle.sv_base.specs.Order.{are_distinct};

use crate::text::Text;
use std::cmp::Ordering;

/// What has a place in a start order: a process in its group, a group in the configuration.
pub trait Ranked {
    ghost priority_of: { Self → ℤ };

    ghost name_of: { Self → List ℕ };

    /// Lower starts earlier.
    fn priority(&self) -> i32
        ensures { result ≡ priority_of self.now };

    /// Decides between equal priorities, by its bytes.
    fn name(&self) -> &Text
        ensures { result.now ≡ name_of self.now };
}

/// The order in which the two start: by priority, then by name.
pub fn start_order<T: Ranked>(one: &T, other: &T) -> Ordering
    ensures { result ≡ start_order T.priority_of T.name_of one.now other.now }
{
    one.priority()
        .cmp(&other.priority())
        .then(one.name().cmp(other.name()))
}

/// Whether each starts before the one after it.
pub fn are_rising<T: Ranked>(items: &[T]) -> bool
    ensures { result ≡ is_rising T.priority_of T.name_of items.now }
{
    let mut left = items;
    while let [item, rest @ ..] = left {
        if !is_before(item, rest) {
            return false;
        }
        left = rest;
    }
    true
}

fn is_before<T: Ranked>(item: &T, rest: &[T]) -> bool
    ensures { result ≡ is_before T.priority_of T.name_of item.now rest.now }
{
    match rest {
        [next, ..] => start_order(item, next).is_lt(),
        [] => true,
    }
}

/// Whether no two have one name.
pub fn are_distinct<T: Ranked>(items: &[T]) -> bool
    ensures { result ≡ are_distinct T.name_of items.now }
{
    let mut left = items;
    while let [item, rest @ ..] = left {
        if is_named_again(item, rest) {
            return false;
        }
        left = rest;
    }
    true
}

fn is_named_again<T: Ranked>(item: &T, rest: &[T]) -> bool
    ensures { result ≡ is_named_again T.name_of item.now rest.now }
{
    rest.iter().any(|other| other.name() == item.name())
}
