// A row of fixed size, of which the front is in use, so that a file is read whole with no need of memory.
ghost use Rattle.std.specs.Prelude.{◌≡◌, ◌<◌, [], ◌∷◌, ◌++◌, length};

use rules::state::State;
use std::array;
use std::marker::Model;

// At most N items. A contract sees those that are in use; the others only fill the array.
#[derive(Drop)]
pub(crate) struct Row<T, const N: usize> {
    items: [T; N],
    count: usize,
}

impl<T, const N: usize> Model for Row<T, N> {
    ghost use Rattle.std.specs.Prelude.{◌≤◌, List, take};

    ghost Value = { List T };

    ghost view = { λ r. take r.count r.items };

    ghost invariant = { λ r. r.count ≤ N };
}

impl<T, const N: usize> Row<T, N> {
    // A row of which nothing is in use.
    pub(crate) fn unused(items: [T; N]) -> Self
        ensures { result ≡ [] }
    {
        Row { items, count: 0 }
    }

    pub(crate) fn as_slice(&self) -> &[T]
        ensures { result.now ≡ self.now }
    {
        &self.items[..self.count]
    }
}

impl<T: Drop, const N: usize> Row<T, N> {
    pub(crate) fn push(&mut self, item: T)
        requires { length self.old < N }
        ensures { self.new ≡ self.old ++ item ∷ [] }
    {
        self.items[self.count] = item;
        self.count += 1;
    }
}

// The states of one type.
pub(crate) type StateRow = Row<State, 32>;

impl StateRow {
    pub(crate) fn empty() -> Self
        ensures { result ≡ [] }
    {
        let filler = State {
            item: 0,
            code: 0,
            operand: 0,
            arc_count: 0,
            arcs: [0; 4],
        };
        Row::unused([filler; 32])
    }
}

// The states of each type.
pub(crate) type TypeRow = Row<StateRow, 8>;

impl TypeRow {
    pub(crate) fn empty() -> Self
        ensures { result ≡ [] }
    {
        Row::unused(array::from_fn(|_| StateRow::empty()))
    }
}
