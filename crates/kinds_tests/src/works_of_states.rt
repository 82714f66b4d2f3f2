use kinds::kind::Kind;
use kinds::tally::Tally;
use stores::row::RowStore;
use stores::state_work::work_of_state;
use stores::store::{ShowingStore, WorkingStore};

// Takes 5 off an item, and answers the register and what the item shows then.
fn taken_off<K: Kind, S: WorkingStore<K>>(
    store: &mut S,
    item: usize,
    register: i32,
) -> (i32, Option<i64>) {
    let new_register = work_of_state::<K, S>(store, item, 3, 5, register);
    (new_register, store.shown(item))
}

#[test]
fn the_register_stays_where_there_is_no_item(rt: HostRuntime) {
    let mut row = [4, 8];
    let mut store = RowStore::<Tally>::new(&mut row);
    assert_eq!(rt; taken_off::<Tally, _>(&mut store, 1, 9), (5, Some(3)));
    assert_eq!(rt; taken_off::<Tally, _>(&mut store, 0, 9), (-1, Some(4)));
    assert_eq!(rt; taken_off::<Tally, _>(&mut store, 2, 9), (9, None));
}
