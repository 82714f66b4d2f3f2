ghost use Rattle.std.specs.Prelude.{◌≡◌, drop, refl, slice_get};
ghost use Rattle.std.proofs.Common.{◌∙◌};
ghost use Rattle.std.specs.Option.{option_copied};
ghost use Rattle.stores.specs.Stores.{counted, counted_few, register_after, values_after};

use crate::store::{CAPACITY, ShowingStore, WorkingStore};
use kinds::kind::Kind;

// A store over the caller's own row of values, of which the first 4,096 count.
pub struct RowStore<'a, K: Kind> {
    row: &'a mut [K::Value],
}

impl<K: Kind> Drop for RowStore<'_, K> {
    fn drop(self)
        ensures { self.exit.0.now ≡ self.entry.row.now }
    {
        let RowStore { row: _ } = self;
    }
}

impl<'a, K: Kind> RowStore<'a, K> {
    // The store has the row's values, and it is that very row that it works on.
    pub fn new(row: &'a mut [K::Value]) -> Self
        ensures values { result.row.now ≡ row.old }
        ensures lender { result.row.ghost_name ≡ row.entry.ghost_name }
    {
        RowStore { row }
    }
}

// Item i of a row, if it counts.
fn counted_item<T>(row: &[T], i: usize) -> Option<&T>
    ensures { option_copied result ≡ slice_get (counted row.now) i }
{
    row[..CAPACITY.min(row.len())].get(i)
}

// Acts on item i of the row in place, if it counts, and answers the act's register.
fn act_at<K: Kind>(
    row: &mut [K::Value],
    i: usize,
    code: u8,
    operand: i32,
    register: i32,
) -> Option<i32>
    ensures answer { result ≡ register_after K.Kind.acted (counted row.old) i code operand register }
    ensures after { counted row.new ≡ values_after K.Kind.acted (counted row.old) i code operand register }
    ensures outside { drop 4096 row.new ≡ drop 4096 row.old }
{
    let value = *counted_item(row, i)?;
    let (new_value, new_register) = K::act(value, code, operand, register);
    // By index: of what `get_mut` wrote to, a proof knows only the length.
    row[i] = new_value;
    Some(new_register)
}

impl<K: Kind> ShowingStore<K> for RowStore<'_, K> {
    ghost values = { λ s. counted s.row.now };

    ghost few = { λ s. counted_few s.row.now };

    fn len(&self) -> usize {
        self.row.len().min(CAPACITY)
    }

    fn shown(&self, i: usize) -> Option<i64> {
        // A closure, since `map(K::show)` gets no proof yet.
        counted_item(self.row, i).map(|value| K::show(value))
    }
}

impl<K: Kind> WorkingStore<K> for RowStore<'_, K> {
    // It is the same row, and beyond the first 4,096 values nothing has changed.
    ghost stays = { λ s t. (t.row.ghost_name ≡ s.row.ghost_name) × (drop 4096 t.row.now ≡ drop 4096 s.row.now) };

    ghost still = { λ s. (refl, refl) };

    ghost chain = { λ s t u p q. (q.0 ∙ p.0, q.1 ∙ p.1) };

    fn work(&mut self, i: usize, code: u8, operand: i32, register: i32) -> Option<i32> {
        act_at::<K>(self.row, i, code, operand, register)
    }
}
