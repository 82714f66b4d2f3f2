// What operations on a 64-bit word do to the set of numbers that its binary digits hold.
// They stand apart from the methods of the set, so that an edit that turns a method is refused at the method itself.
ghost use Rattle.std.specs.Prelude.{◌≡◌, ℕ, ◌<◌, min, true, false, not, ◌&&◌, ◌||◌, Decides, MatchOption, ◌==◌, nat_lt};
ghost use Rattle.itemset.specs.Members.{has};

// No number.
pub(crate) fn none() -> u64
    ensures { (e : ℕ) → has result e ≡ false }
{
    0
}

// All numbers below n, and below 64.
pub(crate) fn below(n: u8) -> u64
    ensures { (e : ℕ) → has result e ≡ nat_lt e (min n 64) }
{
    if n >= 64 {
        return u64::MAX;
    }
    (1 << n) - 1
}

pub(crate) fn contains(word: u64, d: u8) -> bool
    ensures { result ≡ has word d }
{
    d < 64 && (word >> d) & 1 == 1
}

// The word with d put in.
pub(crate) fn with(word: u64, d: u8) -> u64
    requires { d < 64 }
    ensures { (e : ℕ) → has result e ≡ (has word e || e == d) }
{
    word | (1 << d)
}

// The word with d taken out.
pub(crate) fn without(word: u64, d: u8) -> u64
    ensures { (e : ℕ) → has result e ≡ (has word e && not (e == d)) }
{
    if d >= 64 {
        return word;
    }
    word & !(1 << d)
}

// What is in one of the two.
pub(crate) fn either(a: u64, b: u64) -> u64
    ensures { (e : ℕ) → has result e ≡ (has a e || has b e) }
{
    a | b
}

// What is in both.
pub(crate) fn both(a: u64, b: u64) -> u64
    ensures { (e : ℕ) → has result e ≡ (has a e && has b e) }
{
    a & b
}

// What is in the first and not in the second.
pub(crate) fn first_only(a: u64, b: u64) -> u64
    ensures { (e : ℕ) → has result e ≡ (has a e && not (has b e)) }
{
    a & !b
}

pub(crate) fn is_none(word: u64) -> bool
    ensures { Decides result ((e : ℕ) → has word e ≡ false) }
{
    word == 0
}

// Whether all that is in the first is in the second.
pub(crate) fn is_within(a: u64, b: u64) -> bool
    ensures { Decides result ((e : ℕ) → has a e ≡ true → has b e ≡ true) }
{
    is_none(first_only(a, b))
}

// The smallest number.
pub(crate) fn lowest(word: u64) -> Option<u8>
    ensures { MatchOption result ((e : ℕ) → has word e ≡ false) (λ d. (has word d ≡ true) × ((e : ℕ) → e < d → has word e ≡ false) × (d < 64)) }
{
    if word == 0 {
        return None;
    }
    Some(word.trailing_zeros() as u8)
}
