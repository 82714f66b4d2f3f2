// The table over a store and a workload.
ghost use Rattle.std.specs.Prelude.{◌≡◌};
ghost use Rattle.model.specs.Journal.{New};
ghost use Rattle.stores.specs.Stores.{shown_item};
ghost use Rattle.table.specs.View.{view};

use jobs::shift::Shift;
use kinds::kind::Kind;
use std::marker::PhantomData;
use stores::store::{ShowingStore, WorkingStore};
use workload::definition::Workload;

// A store of any kind, a workload, and sixteen places for jobs.
pub struct Table<K: Kind, S: WorkingStore<K>> {
    pub(crate) store: S,
    pub(crate) shift: Shift,
    kind: PhantomData<K>,
}

impl<K: Kind, S: WorkingStore<K>> Table<K, S> {
    // A new table, with sixteen empty places.
    pub fn new(store: S, workload: Workload) -> Table<K, S>
        ensures store { result.store ≡ store }
        ensures workload { result.shift.workload ≡ workload }
        ensures new { New (S.ShowingStore.values store) (view S.ShowingStore result) }
    {
        let shift = Shift::new(workload);
        Table {
            store,
            shift,
            kind: PhantomData,
        }
    }

    // The store, as the calls left it.
    pub fn finish(self) -> S
        ensures { result ≡ self.store }
    {
        let Table {
            store,
            shift: _,
            kind: _,
        } = self;
        store
    }

    // The number that item i of the store shows; nothing where there is no such item.
    pub fn shown(&self, i: usize) -> Option<i64>
        ensures { result ≡ shown_item K.Kind.number (S.ShowingStore.values self.now.store) i }
    {
        self.store.shown(i)
    }
}
