ghost use Rattle.std.specs.Prelude.{◌≡◌, ◌++◌, drop, refl};
ghost use Rattle.std.proofs.Common.{◌∙◌};
ghost use Rattle.stores.specs.Stores.{counted, counted_few};
ghost use Rattle.stores.specs.Parts.{Stands};

use crate::store::{CAPACITY, ShowingStore, WorkingStore};
use kinds::kind::Kind;

// Two stores of one kind as one: the first one's items stand in front. Of the joined list the first 4,096 values count.
#[derive(Drop)]
pub struct JoinedStore<First, Second> {
    first: First,
    second: Second,
}

impl<First, Second> JoinedStore<First, Second> {
    pub fn new(first: First, second: Second) -> Self
        ensures { (result.first ≡ first) × (result.second ≡ second) }
    {
        JoinedStore { first, second }
    }
}

// Where an item of the joined list stands: in the first store under the same number, or in the second under another.
enum Part {
    First,
    Second(usize),
}

// Where item i stands, if it counts, of a list whose front part has `front` items. In the second store there may be no such item.
fn part_of(i: usize, front: usize) -> Option<Part>
    ensures { Stands i front result }
{
    if i >= CAPACITY {
        None
    } else if i < front {
        Some(Part::First)
    } else {
        Some(Part::Second(i - front))
    }
}

impl<K: Kind, First: ShowingStore<K>, Second: ShowingStore<K>> ShowingStore<K>
    for JoinedStore<First, Second> {
    ghost values = { λ s. counted (First.ShowingStore.values s.first ++ Second.ShowingStore.values s.second) };

    ghost few = { λ s. counted_few (First.ShowingStore.values s.first ++ Second.ShowingStore.values s.second) };

    fn len(&self) -> usize {
        (self.first.len() + self.second.len()).min(CAPACITY)
    }

    fn shown(&self, i: usize) -> Option<i64> {
        match part_of(i, self.first.len())? {
            Part::First => self.first.shown(i),
            Part::Second(j) => self.second.shown(j),
        }
    }
}

impl<K: Kind, First: WorkingStore<K>, Second: WorkingStore<K>> WorkingStore<K>
    for JoinedStore<First, Second> {
    // What lies outside either part stays, and so do the values past the first 4,096 of the joined list.
    ghost stays = { λ s t. First.WorkingStore.stays s.first t.first × Second.WorkingStore.stays s.second t.second × (drop 4096 (First.ShowingStore.values t.first ++ Second.ShowingStore.values t.second) ≡ drop 4096 (First.ShowingStore.values s.first ++ Second.ShowingStore.values s.second)) };

    ghost still = { λ s. (First.WorkingStore.still s.first, Second.WorkingStore.still s.second, refl) };

    ghost chain = { λ s t u p q. (First.WorkingStore.chain s.first t.first u.first p.0 q.0, Second.WorkingStore.chain s.second t.second u.second p.1 q.1, q.2 ∙ p.2) };

    fn work(&mut self, i: usize, code: u8, operand: i32, register: i32) -> Option<i32> {
        match part_of(i, self.first.len())? {
            Part::First => self.first.work(i, code, operand, register),
            Part::Second(j) => self.second.work(j, code, operand, register),
        }
    }
}
