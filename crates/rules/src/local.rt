// The local lock tree of a job type. A relation here joins each item to itself and the items above it,
// or to its children.
ghost use Rattle.std.specs.Prelude.{ℕ, ◌<◌, MatchOption};
ghost use Rattle.rules.specs.Sets.{ChildIn, Deepest, Exactly, Rows};

use crate::closure::Relation;
use crate::tree::LockTree;
use itemset::ItemSet;

impl Relation<64> {
    // The item of the set that lies below all the others.
    pub(crate) fn deepest_of(&self, set: ItemSet) -> Option<u8>
        ensures { MatchOption result ((a : ℕ) → a < 64 → Deepest self.now.rows set a → ⊥) (Deepest self.now.rows set) }
    {
        for (a, row) in self.rows.iter().enumerate() {
            if set.contains(a as u8) && set.is_subset(*row) {
                return Some(a as u8);
            }
        }
        None
    }
}

impl<'a> LockTree<'a> {
    // The children of item d, where it and they are in the set.
    fn children_of(&self, d: usize, set: ItemSet) -> ItemSet
        requires { d < 64 }
        ensures { Exactly result (ChildIn self.now.tree.parents.now set d) }
    {
        if !set.contains(d as u8) {
            return ItemSet::empty();
        }
        self.children.rows[d].intersection(set)
    }

    // For each item its children, where both are in the set.
    pub(crate) fn children_in(&self, set: ItemSet) -> Relation<64>
        ensures { Rows 64 result.rows (ChildIn self.now.tree.parents.now set) }
    {
        Relation::from_fn(|d| self.children_of(d, set))
    }
}
