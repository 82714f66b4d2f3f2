// What a job has no more need of: for each state of its type, the items that no state ahead names,
// and those of them that the job has just left behind.
ghost use Rattle.std.specs.Prelude.{◌≡◌, ℕ, ◌<◌, true, length, slice_index_or};
ghost use Rattle.itemset.specs.Members.{holds};
ghost use Rattle.rules.specs.Reach.{Converse, Joined};
ghost use Rattle.rules.specs.Sets.{Exactly, LeftBehind, Names, NamesAlong, Rows};

use crate::closure::{Order, Relation};
use crate::ways::Graph;
use itemset::ItemSet;

impl<'a> Graph<'a> {
    // The item that state s names; none where there is no such state.
    fn name(&self, s: usize) -> ItemSet
        ensures { Exactly result (λ d. (d < 64) × Names self.now.states.now s d) }
    {
        let mut name = ItemSet::empty();
        if let Some(state) = self.states.get(s) {
            name.insert(state.item);
        }
        name
    }

    // For each state the item that it names.
    pub(crate) fn names(&self) -> Relation<32>
        ensures { Rows 32 result.rows (λ s d. (d < 64) × Names self.now.states.now s d) }
    {
        Relation::from_fn(|s| self.name(s))
    }

    // For each state the items that are named on the ways from it; `names` has what each state names itself.
    pub(crate) fn named_ahead(&self, names: Relation<32>, arcs: &Relation<32>) -> Relation<32>
        requires names { Rows 32 names.rows (λ s d. (d < 64) × Names self.now.states.now s d) }
        requires within { (s m : ℕ) → Joined arcs.now.rows s m → s < length self.now.states.now }
        ensures { Rows 32 result.rows (λ s d. (d < 64) × NamesAlong (Joined arcs.now.rows) self.now.states.now s d) }
    {
        let mut named = names;
        named.spread(arcs, self.states.len(), Order::Down);
        named
    }

    // For each state the items that are named on the ways to it.
    pub(crate) fn named_behind(&self, names: Relation<32>, arcs: &Relation<32>) -> Relation<32>
        requires names { Rows 32 names.rows (λ s d. (d < 64) × Names self.now.states.now s d) }
        requires within { (s m : ℕ) → Joined arcs.now.rows s m → (s < length self.now.states.now) × (m < length self.now.states.now) }
        ensures { Rows 32 result.rows (λ s d. (d < 64) × NamesAlong (Converse (Joined arcs.now.rows)) self.now.states.now s d) }
    {
        let mut named = names;
        named.spread_on(arcs, self.states.len());
        named
    }
}

impl Relation<32> {
    // For each row what it lacks of the set.
    pub(crate) fn lacking(&self, set: ItemSet) -> Relation<32>
        ensures { Rows 32 result.rows (λ s d. (holds set d ≡ true) × (Joined self.now.rows s d → ⊥)) }
    {
        self.each(|row| set.difference(row))
    }
}

// What a job has just left behind when it comes to state s: what is unreachable there and named on a way there, but for what
// was unreachable already in a state before.
fn left_behind(
    unreachable: &Relation<32>,
    behind: &Relation<32>,
    already: &Relation<32>,
    s: usize,
) -> ItemSet
    requires { s < 32 }
    ensures { Exactly result (λ d. Joined unreachable.now.rows s d × Joined behind.now.rows s d × (Joined already.now.rows s d → ⊥)) }
{
    behind.rows[s]
        .intersection(unreachable.rows[s])
        .difference(already.rows[s])
}

// For each state what a job has just left behind when it comes there.
pub(crate) fn each_left_behind(
    arcs: &Relation<32>,
    unreachable: &Relation<32>,
    behind: &Relation<32>,
) -> Relation<32>
    requires { (s m : ℕ) → Joined arcs.now.rows s m → m < 32 }
    ensures { Rows 32 result.rows (LeftBehind arcs.now.rows unreachable.now.rows behind.now.rows) }
{
    let already = unreachable.handed_on(arcs);
    Relation::from_fn(|s| left_behind(unreachable, behind, &already, s))
}
