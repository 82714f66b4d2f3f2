// Sets of the numbers of a list's elements.
ghost use Rattle.std.specs.Prelude.{◌≡◌, ℕ, ◌<◌, ◌≤◌, true, length, Decides, slice_index_or};
ghost use Rattle.std.specs.Fn.{FnReturnsAt};
ghost use Rattle.itemset.specs.Members.{holds};
ghost use Rattle.rules.specs.Sets.{Exactly};

use itemset::ItemSet;

// The numbers of n elements.
pub(crate) fn below(n: usize) -> ItemSet
    requires { n ≤ 64 }
    ensures { Exactly result (λ s. s < n) }
{
    ItemSet::below(n as u8)
}

// The places in a list of the elements that pass a test.
pub(crate) fn places<T, F: Fn(&T) -> bool>(list: &[T], test: F) -> ItemSet
    requires few { length list.now ≤ 64 }
    requires callable { F.IsAlwaysCallable test }
    ensures within { (s : ℕ) → holds result s ≡ true → s < length list.now }
    ensures tested { (s : ℕ) (x : T) → s < length list.now → FnReturnsAt F.Fn test (slice_index_or list.now s x) (holds result s) }
{
    let mut found = ItemSet::empty();
    for (s, x) in list.iter().enumerate() {
        if test(x) {
            found.insert(s as u8);
        }
    }
    found
}

// Whether the two sets have a number in common. The lowest one shows it, where there is one.
pub(crate) fn meet(a: ItemSet, b: ItemSet) -> bool
    ensures { Decides result ((e : ℕ) × (holds a e ≡ true) × (holds b e ≡ true)) }
{
    a.intersection(b).lowest().is_some()
}
