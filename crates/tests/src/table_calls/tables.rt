// A workload with three job types, and lists of calls on a new table over it.
use crate::files::loaded;
use kinds::kind::Kind;
use std::alloc::Global;
use stores::row::RowStore;
use stores::store::ShowingStore;
use table::answer::{Answer, Call};
use table::lists::run;
use workload::definition::Workload;
use workload::fault::Fault;

// Two leaves below a root. Type 0 adds its register to item 1 and then reads item 2, type 1 reads item 1, type 2 adds to item 2.
const ADD_AND_READ: [u8; 60] = [
    b'T', b'L', b'W', 0, 1, 3, 3, 4, // three items, three types, four codes
    255, 0, 0, // parents
    2, 1, 2, 0, 0, 0, 0, 1, 1, 0, 0, 0, 2, 0, 0, 0, 0, 0, 0, 0, 0, 0, 0, // type 0
    1, 1, 0, 0, 0, 0, 0, 0, 0, 0, 0, 0, // type 1
    1, 2, 2, 0, 0, 0, 0, 0, 0, 0, 0, 0, // type 2
    0, 0,
];

pub fn add_and_read(heap: Global) -> Result<Workload, Fault> {
    loaded(heap, &ADD_AND_READ)
}

// The answers to these calls on a new table over the row.
pub fn answers<K: Kind>(
    heap: Global,
    row: &mut [K::Value],
    calls: &[Call],
) -> Result<Vec<Answer>, Fault> {
    let workload = add_and_read(heap)?;
    let store = RowStore::<K>::new(row);
    let (table, answers) = run::<K, RowStore<K>>(store, workload, heap, calls);
    let _store = table.finish();
    Ok(answers?)
}
