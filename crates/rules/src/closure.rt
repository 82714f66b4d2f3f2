// Relations on numbers, each held as a row of sets.
ghost use Rattle.std.specs.Prelude.{◌≡◌, ℕ, ◌<◌, ◌≤◌, ◌⊎◌, true, length, slice_index_or};
ghost use Rattle.rules.specs.Reach.{Ahead, Closed, Converse, Gives, Grows, HeldBy, Joined, Pulls, ReachedFrom, TakesIn, TakesOver, Through, along, turn};
ghost use Rattle.rules.specs.Sets.{Exactly, Rows};
ghost use Rattle.itemset.specs.Members.{holds, nothing};

use crate::places::{below, meet};
use itemset::ItemSet;

// After so many turns of the rows the relation is closed, in place of further turns: some orders of the numbers would take one for
// each number.
const TURNS: u32 = 4;

// The set of one number.
pub(crate) fn only(d: usize) -> ItemSet
    requires { d < 64 }
    ensures { Exactly result (λ t. t ≡ d) }
{
    let mut set = ItemSet::empty();
    set.insert(d as u8);
    set
}

// In which order the rows of a relation are gone through.
#[derive(Clone, Copy)]
pub(crate) enum Order {
    Up,
    Down,
}

impl Order {
    // The number whose turn it is after k others, of n.
    fn turn(self, n: usize, k: usize) -> usize
        requires { k < n }
        ensures { result ≡ turn self n k }
    {
        match self {
            Order::Up => k,
            Order::Down => n - 1 - k,
        }
    }
}

// Whether a relation is followed from a number to those that it is joined to, or from these back to it.
#[derive(Clone, Copy)]
pub(crate) enum Way {
    On,
    Back,
}

impl Way {
    // In which order the rows are gone through, so that ways to higher numbers are followed in one round.
    fn order(self) -> Order {
        match self {
            Way::On => Order::Up,
            Way::Back => Order::Down,
        }
    }
}

// A relation from the numbers below N, at most 64, to those that a set can hold: for each the set of those that it is joined to.
#[derive(Clone, Copy)]
pub(crate) struct Relation<const N: usize> {
    pub(crate) rows: [ItemSet; N],
    ghost few: { N ≤ 64 },
    ghost long: { length rows ≡ N },
}

impl<const N: usize> Relation<N> {
    // The relation whose rows f makes of their numbers.
    pub(crate) fn from_fn<F: Fn(usize) -> ItemSet>(f: F) -> Relation<N>
        requires few { N ≤ 64 }
        requires callable { (s : ℕ) → s < N → F.pre f s }
        ensures { (s : ℕ) → s < N → F.post f s (slice_index_or result.rows s nothing) }
    {
        Relation {
            rows: std::array::from_fn(f),
        }
    }

    // Each number joined to itself.
    pub(crate) fn selves() -> Relation<N>
        requires { N ≤ 64 }
        ensures { Rows N result.rows (λ s t. t ≡ s) }
    {
        Relation::from_fn(only)
    }

    // The relation whose rows f makes of the rows of this one. By the array's own `map` a plan takes half as long again.
    pub(crate) fn each<F: Fn(ItemSet) -> ItemSet>(&self, f: F) -> Relation<N>
        requires { (row : ItemSet) → F.pre f row }
        ensures { (s : ℕ) → s < N → F.post f (slice_index_or self.now.rows s nothing) (slice_index_or result.rows s nothing) }
    {
        let mut rows = self.rows;
        for row in &mut rows {
            *row = f(*row);
        }
        Relation { rows }
    }

    // What the rows of the set's numbers hold together.
    pub(crate) fn held_by(&self, set: ItemSet) -> ItemSet
        ensures { Exactly result (HeldBy self.now.rows set) }
    {
        let mut held = ItemSet::empty();
        let mut rest = set;
        while let Some(m) = rest.lowest() {
            if (m as usize) < N {
                held = held.union(self.rows[m as usize]);
            }
            rest.remove(m);
        }
        held
    }

    // Each row takes over what the row of its number in the other relation holds.
    fn unite(&mut self, other: &Relation<N>)
        ensures { Rows N self.new.rows (λ s t. Joined self.old.rows s t ⊎ Joined other.now.rows s t) }
    {
        for (s, row) in self.rows.iter_mut().enumerate() {
            *row = row.union(other.rows[s]);
        }
    }

    // Each row takes over what the rows held to which the other relation joins its number.
    fn take_all(&mut self, along: &Relation<N>)
        ensures { Rows N self.new.rows (λ s t. Joined self.old.rows s t ⊎ HeldBy self.old.rows (slice_index_or along.now.rows s nothing) t) }
    {
        let first = *self;
        for (s, row) in self.rows.iter_mut().enumerate() {
            *row = row.union(first.held_by(along.rows[s]));
        }
    }

    // Each row that holds k takes over what row k holds.
    fn join_through(&mut self, k: usize)
        requires { k < N }
        ensures { Through self.old.rows self.new.rows k }
    {
        let via = self.rows[k];
        for row in self.rows.iter_mut() {
            if row.contains(k as u8) {
                *row = row.union(via);
            }
        }
    }

    // The relation that joins each number to all that ways of one step or more lead to from it.
    fn closed(&self) -> Relation<N>
        ensures { Closed self.now.rows result.rows }
    {
        let mut closed = *self;
        for k in 0..N {
            closed.join_through(k);
        }
        closed
    }

    // Row s takes over what the set holds. Tells whether it lacked any of that.
    fn take_over(&mut self, s: usize, set: ItemSet) -> bool
        requires { s < N }
        ensures { TakesOver self.old.rows self.new.rows s set result }
    {
        let news = set.difference(self.rows[s]);
        if news.lowest().is_none() {
            return false;
        }
        self.rows[s] = self.rows[s].union(news);
        true
    }

    // Each row takes over what the rows hold to which the other relation joins its number. Tells whether it may still lack some of that:
    // not where no row lacked any, nor where each number is joined only to such whose turn came before its own.
    fn pull(&mut self, along: &Relation<N>, count: usize, order: Order) -> bool
        requires count { count ≤ N }
        requires within { (s m : ℕ) → Joined along.now.rows s m → s < count }
        ensures { Pulls (Joined along.now.rows) self.old.rows self.new.rows result }
    {
        let mut news = false;
        let mut ordered = true;
        let mut seen = ItemSet::empty();
        for k in 0..count {
            let s = order.turn(count, k);
            let next = along.rows[s];
            ordered = ordered && next.is_subset(seen);
            seen.insert(s as u8);
            if self.take_over(s, self.held_by(next)) {
                news = true;
            }
        }
        news && !ordered
    }

    // Each row takes over what the rows of all numbers hold that can be reached from its own along the other relation.
    // Only the first `count` numbers are joined to any; the order in which steps are seldom taken before what they lead to ends soonest.
    pub(crate) fn spread(&mut self, along: &Relation<N>, count: usize, order: Order)
        requires count { count ≤ N }
        requires within { (s m : ℕ) → Joined along.now.rows s m → s < count }
        ensures { Rows N self.new.rows (Ahead (Joined along.now.rows) self.old.rows) }
    {
        for _ in 0..TURNS {
            if !self.pull(along, count, order) {
                return;
            }
        }
        self.take_all(&along.closed());
    }

    // The rows of the numbers take over what the set holds. Tells whether any lacked some of that.
    fn give(&mut self, numbers: ItemSet, set: ItemSet) -> bool
        requires { (m : ℕ) → holds numbers m ≡ true → m < N }
        ensures { Gives self.old.rows self.new.rows numbers set result }
    {
        let mut news = false;
        let mut rest = numbers;
        while let Some(m) = rest.lowest() {
            if self.take_over(m as usize, set) {
                news = true;
            }
            rest.remove(m);
        }
        news
    }

    // Each row gives what it holds to the rows of those that the other relation joins its number to. Tells whether they may still lack some
    // of that: not where none lacked any, nor where each number is joined only to such whose turn comes after its own.
    fn push(&mut self, along: &Relation<N>, count: usize) -> bool
        requires count { count ≤ N }
        requires within { (s m : ℕ) → Joined along.now.rows s m → (s < count) × (m < count) }
        ensures { Pulls (Converse (Joined along.now.rows)) self.old.rows self.new.rows result }
    {
        let mut news = false;
        let mut ordered = true;
        let mut seen = ItemSet::empty();
        for s in 0..count {
            let next = along.rows[s];
            seen.insert(s as u8);
            ordered = ordered && !meet(next, seen);
            if self.give(next, self.rows[s]) {
                news = true;
            }
        }
        news && !ordered
    }

    // Each row takes over what the rows of all numbers hold from which its own can be reached along the other relation.
    pub(crate) fn spread_on(&mut self, along: &Relation<N>, count: usize)
        requires count { count ≤ N }
        requires within { (s m : ℕ) → Joined along.now.rows s m → (s < count) × (m < count) }
        ensures { Rows N self.new.rows (Ahead (Converse (Joined along.now.rows)) self.old.rows) }
    {
        for _ in 0..TURNS {
            if !self.push(along, count) {
                return;
            }
        }
        self.unite(&self.handed_on(&along.closed()));
    }

    // For each number what the rows of those hold that the other relation joins to it.
    pub(crate) fn handed_on(&self, along: &Relation<N>) -> Relation<N>
        requires { (s m : ℕ) → Joined along.now.rows s m → m < N }
        ensures { Rows N result.rows (λ s t. (m : ℕ) × Joined along.now.rows m s × Joined self.now.rows m t) }
    {
        let mut handed = Relation {
            rows: [ItemSet::empty(); N],
        };
        for (s, row) in self.rows.iter().enumerate() {
            handed.give(along.rows[s], *row);
        }
        handed
    }

    // The set, and what the row of s joins to it.
    fn take_in(&self, s: usize, way: Way, set: ItemSet) -> ItemSet
        requires { s < N }
        ensures { TakesIn self.now.rows s way set result }
    {
        match way {
            Way::On if set.contains(s as u8) => set.union(self.rows[s]),
            Way::Back if meet(self.rows[s], set) => set.union(only(s)),
            _ => set,
        }
    }

    // Each row joins to the set what it can. Tells whether the set may still lack some: not where it did not grow, nor where it has all.
    fn grow(&self, count: usize, way: Way, set: &mut ItemSet) -> bool
        requires count { count ≤ N }
        requires within { (s m : ℕ) → Joined self.now.rows s m → (s < count) × (m < count) }
        ensures { Grows (along way self.now.rows) set.old set.new result }
    {
        let old = *set;
        let order = way.order();
        for k in 0..count {
            let s = order.turn(count, k);
            *set = self.take_in(s, way, *set);
        }
        set.difference(old).lowest().is_some() && !below(count).is_subset(*set)
    }

    // The numbers of the set, and all that are reached from them. Only the first `count` numbers are joined.
    pub(crate) fn reached(&self, count: usize, way: Way, from: ItemSet) -> ItemSet
        requires count { count ≤ N }
        requires within { (s m : ℕ) → Joined self.now.rows s m → (s < count) × (m < count) }
        ensures { Exactly result (ReachedFrom (along way self.now.rows) from) }
    {
        let mut reached = from;
        while self.grow(count, way, &mut reached) {}
        reached
    }
}
