//! Who looks at the children that are due.
ghost use Rattle.std.specs.Prelude.{◌≡◌, ◌++◌, ◌∷◌, ◌+◌, ◌<◌, ◌≤◌, [], List, ℕ, length};
ghost use Rattle.sv_base.specs.declared.ids.ChildId.{ChildId};

use sv_base::ChildId;

/// Looks at children, one by one. Clauses see the children that were given, in their order, as long as they are no more
/// than there is room for, and a count of the looks.
pub trait Rows {
    ghost room: { Self → ℕ };

    ghost looked: { Self → List ChildId };

    ghost looks: { Self → ℕ };

    /// Looks at this child. It refuses nothing and takes no memory.
    fn look(&mut self, child: ChildId)
        ensures room { room self.new ≡ room self.old }
        ensures looked { length (looked self.old) < room self.old
            → looked self.new ≡ looked self.old ++ child ∷ [] }
        ensures looks { looks self.new ≤ looks self.old + 1 };
}
