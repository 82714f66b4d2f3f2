use kinds::slot::Slot;
use kinds::tally::Tally;
use stores::joined::JoinedStore;
use stores::row::RowStore;
use stores::store::{ShowingStore, WorkingStore};

#[test]
fn shows_across_the_seam(rt: HostRuntime) {
    let mut front = [4, 5];
    let mut back = [7, 8];
    let s = JoinedStore::new(
        RowStore::<Tally>::new(&mut front),
        RowStore::<Tally>::new(&mut back),
    );
    assert_eq!(rt; s.len(), 4);
    assert_eq!(rt; s.shown(0), Some(4));
    assert_eq!(rt; s.shown(1), Some(5));
    assert_eq!(rt; s.shown(2), Some(7));
    assert_eq!(rt; s.shown(3), Some(8));
    assert_eq!(rt; s.shown(4), None);
}

#[test]
fn works_across_the_seam(rt: HostRuntime) {
    let mut front = [4, 5];
    let mut back = [7, 8];
    {
        let mut s = JoinedStore::new(
            RowStore::<Tally>::new(&mut front),
            RowStore::<Tally>::new(&mut back),
        );
        assert_eq!(rt; s.work(1, 3, 5, 0), Some(5));
        assert_eq!(rt; s.work(2, 1, 20, 0), Some(27));
        assert_eq!(rt; s.work(3, 2, 0, 30), Some(0));
        assert_eq!(rt; s.work(4, 1, 40, 0), None);
        assert_eq!(rt; s.len(), 4);
    }
    assert_eq!(rt; front, [4, 0]);
    assert_eq!(rt; back, [27, 38]);
}

#[test]
fn a_container_goes_from_one_row_to_the_other(rt: HostRuntime) {
    let mut front = [Slot::Held(6)];
    let mut back = [Slot::Free];
    let mut s = JoinedStore::new(
        RowStore::<Slot>::new(&mut front),
        RowStore::<Slot>::new(&mut back),
    );
    assert_eq!(rt; s.work(0, 2, 0, 0), Some(6));
    assert_eq!(rt; s.work(1, 1, 0, 6), Some(-1));
    assert_eq!(rt; s.shown(0), Some(4_294_967_296));
    assert_eq!(rt; s.shown(1), Some(6));
}
