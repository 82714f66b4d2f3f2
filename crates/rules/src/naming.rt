// What the states of a job type name, over the tree of items, gathered in one look at the states.
ghost use Rattle.std.specs.Prelude.{◌≡◌, ℕ, ◌<◌, ◌≤◌, ◌⊎◌, ◌≢◌, true, length, MatchOption};
ghost use Rattle.itemset.specs.Members.{holds};
ghost use Rattle.rules.specs.Sets.{Exactly, NamingOf, item_at};

use crate::state::State;
use crate::tree::LockTree;
use itemset::ItemSet;

#[derive(Clone, Copy)]
pub(crate) struct Naming {
    // the items that the states name
    pub(crate) named: ItemSet,
    // those that lie above some of these
    pub(crate) above: ItemSet,
    // those that are, or lie above, each of these
    pub(crate) common: ItemSet,
}

impl Naming {
    // What no states name: every number is common, since there is none that it has to lie above.
    fn none() -> Naming
        ensures named { Exactly result.named (λ d. ⊥) }
        ensures above { Exactly result.above (λ a. ⊥) }
        ensures common { Exactly result.common (λ a. a < 64) }
    {
        Naming {
            named: ItemSet::empty(),
            above: ItemSet::empty(),
            common: ItemSet::below(64),
        }
    }

    // One more state names d. The row has d itself and the items above it.
    fn add(&mut self, d: u8, row: ItemSet)
        requires { d < 64 }
        ensures named { Exactly self.new.named (λ e. (holds self.old.named e ≡ true) ⊎ (e ≡ d)) }
        ensures above { Exactly self.new.above (λ a. (holds self.old.above a ≡ true) ⊎ ((d ≢ a) × (holds row a ≡ true))) }
        ensures common { Exactly self.new.common (λ a. (holds self.old.common a ≡ true) × (holds row a ≡ true)) }
    {
        self.named.insert(d);
        let mut above = row;
        above.remove(d);
        self.above = self.above.union(above);
        self.common = self.common.intersection(row);
    }

    // Nothing where a state names no item of the tree.
    pub(crate) fn of(lock: &LockTree, states: &[State]) -> Option<Naming>
        ensures { MatchOption result ((s : ℕ) × (s < length states.now) × (length lock.now.tree.parents.now ≤ item_at states.now s)) (NamingOf lock.now.tree.parents.now lock.now.above.rows states.now) }
    {
        let mut naming = Naming::none();
        for state in states {
            let d = state.item;
            if d as usize >= lock.tree.parents.len() {
                return None;
            }
            naming.add(d, lock.above.rows[d as usize]);
        }
        Some(naming)
    }

    // The items of the local lock tree: its root, and what the ways up from the named items pass and do not have in common.
    // The root is the deepest that they have in common, so the rest lies below it.
    pub(crate) fn local_items(&self, root: u8) -> ItemSet
        requires { root < 64 }
        ensures { Exactly result (λ d. (d ≡ root) ⊎ (((holds self.now.named d ≡ true) ⊎ (holds self.now.above d ≡ true)) × (holds self.now.common d ≡ true → ⊥))) }
    {
        let mut local = self.named.union(self.above).difference(self.common);
        local.insert(root);
        local
    }

    // The leaves of the local lock tree: what is named and lies above no other item that is.
    pub(crate) fn leaves(&self) -> ItemSet
        ensures { Exactly result (λ d. (holds self.now.named d ≡ true) × (holds self.now.above d ≡ true → ⊥)) }
    {
        self.named.difference(self.above)
    }
}
