// Sets of item numbers. Contracts speak of membership, so that the word behind a set can change.
#![tactic(auto)]

ghost use Rattle.std.specs.Prelude.{◌≡◌, ℕ, ◌<◌, ◌≤◌, min, true, false, not, ◌&&◌, ◌||◌, Decides, MatchOption, ◌==◌, nat_lt};
ghost use Rattle.itemset.specs.Members.{holds};

mod word;

// A set of numbers below 64.
#[derive(Clone, Copy, PartialEq, Eq, Debug)]
pub struct ItemSet {
    bits: u64,
}

impl ItemSet {
    pub fn empty() -> ItemSet
        ensures { (e : ℕ) → holds result e ≡ false }
    {
        ItemSet { bits: word::none() }
    }

    // All numbers below n, and below 64.
    pub fn below(n: u8) -> ItemSet
        ensures { (e : ℕ) → holds result e ≡ nat_lt e (min n 64) }
    {
        ItemSet {
            bits: word::below(n),
        }
    }

    pub fn contains(&self, d: u8) -> bool
        ensures { result ≡ holds self.now d }
    {
        word::contains(self.bits, d)
    }

    // Puts d in; a number that no set can hold changes nothing.
    pub fn insert(&mut self, d: u8)
        ensures inside { d < 64 → (e : ℕ) → holds self.new e ≡ (holds self.old e || e == d) }
        ensures outside { 64 ≤ d → self.new ≡ self.old }
    {
        if d < 64 {
            self.bits = word::with(self.bits, d);
        }
    }

    pub fn remove(&mut self, d: u8)
        ensures { (e : ℕ) → holds self.new e ≡ (holds self.old e && not (e == d)) }
    {
        self.bits = word::without(self.bits, d);
    }

    pub fn union(self, other: ItemSet) -> ItemSet
        ensures { (e : ℕ) → holds result e ≡ (holds self e || holds other e) }
    {
        ItemSet {
            bits: word::either(self.bits, other.bits),
        }
    }

    pub fn intersection(self, other: ItemSet) -> ItemSet
        ensures { (e : ℕ) → holds result e ≡ (holds self e && holds other e) }
    {
        ItemSet {
            bits: word::both(self.bits, other.bits),
        }
    }

    // What this set holds and the other does not.
    pub fn difference(self, other: ItemSet) -> ItemSet
        ensures { (e : ℕ) → holds result e ≡ (holds self e && not (holds other e)) }
    {
        ItemSet {
            bits: word::first_only(self.bits, other.bits),
        }
    }

    pub fn is_empty(self) -> bool
        ensures { Decides result ((e : ℕ) → holds self e ≡ false) }
    {
        word::is_none(self.bits)
    }

    // Whether the other set holds all that this one holds.
    pub fn is_subset(self, other: ItemSet) -> bool
        ensures { Decides result ((e : ℕ) → holds self e ≡ true → holds other e ≡ true) }
    {
        word::is_within(self.bits, other.bits)
    }

    // The smallest number of the set.
    pub fn lowest(&self) -> Option<u8>
        ensures { MatchOption result ((e : ℕ) → holds self.now e ≡ false) (λ d. (holds self.now d ≡ true) × ((e : ℕ) → e < d → holds self.now e ≡ false) × (d < 64)) }
    {
        word::lowest(self.bits)
    }
}
