use kinds::tally::Tally;
use stores::joined::JoinedStore;
use stores::row::RowStore;
use stores::store::{ShowingStore, WorkingStore};

#[test]
fn of_a_longer_row_the_first_4096_count(rt: HostRuntime) {
    let mut row = [3; 4098];
    {
        let mut s = RowStore::<Tally>::new(&mut row);
        assert_eq!(rt; s.len(), 4096);
        assert_eq!(rt; s.work(4095, 1, 4, 0), Some(7));
        assert_eq!(rt; s.work(4096, 1, 4, 0), None);
        assert_eq!(rt; s.shown(4094), Some(3));
        assert_eq!(rt; s.shown(4095), Some(7));
        assert_eq!(rt; s.shown(4096), None);
    }
    assert_eq!(rt; row[4095], 7);
    assert_eq!(rt; row[4096], 3);
}

#[test]
fn of_a_longer_joined_list_the_first_4096_count(rt: HostRuntime) {
    let mut front = [3; 4000];
    let mut back = [5; 200];
    {
        let mut s = JoinedStore::new(
            RowStore::<Tally>::new(&mut front),
            RowStore::<Tally>::new(&mut back),
        );
        assert_eq!(rt; s.len(), 4096);
        assert_eq!(rt; s.shown(3999), Some(3));
        assert_eq!(rt; s.shown(4000), Some(5));
        assert_eq!(rt; s.work(4095, 1, 4, 0), Some(9));
        assert_eq!(rt; s.work(4096, 1, 4, 0), None);
        assert_eq!(rt; s.shown(4096), None);
    }
    assert_eq!(rt; back[95], 9);
    assert_eq!(rt; back[96], 5);
}

// Each part counts up to its own limit first.
#[test]
fn a_full_front_leaves_no_room(rt: HostRuntime) {
    let mut front = [3; 4097];
    let mut back = [5];
    let s = JoinedStore::new(
        RowStore::<Tally>::new(&mut front),
        RowStore::<Tally>::new(&mut back),
    );
    assert_eq!(rt; s.len(), 4096);
    assert_eq!(rt; s.shown(4095), Some(3));
    assert_eq!(rt; s.shown(4096), None);
}
