// Calls with tickets. A test that dropped one would not be proved.
use crate::table_calls::tables::add_and_read;
use kinds::kind::Kind;
use kinds::tally::Tally;
use std::process::Abort;
use std::test::Fail;
use stores::row::RowStore;
use stores::store::{ShowingStore, WorkingStore};
use table::answer::Refusal;
use table::definition::Table;

// A collect that comes too early hands the ticket back, and the job can still be left.
fn collect_too_early<K: Kind, S: WorkingStore<K>>(
    rt: &impl Abort,
    table: &mut Table<K, S>,
) -> Result<(), Fail> {
    let Ok(ticket) = table.begin(3, 1, 5) else {
        return Err(Fail::new("the begin was refused"));
    };
    let place = ticket.place();
    match table.collect(ticket) {
        Ok(_) => Err(Fail::new("an unfinished job was collected")),
        Err((why, back)) => {
            let left = table.leave(back);
            assert_eq!(rt; place, 3);
            assert_eq!(rt; why, Refusal::NotFinished);
            assert_eq!(rt; left, Ok(()));
            Ok(())
        }
    }
}

#[test]
fn a_refused_ticket_comes_back(rt: HostRuntime) -> Result<(), Fail> {
    let mut tallies = [0, 0, 0];
    let workload = add_and_read(rt.alloc())?;
    let mut table = Table::new(RowStore::<Tally>::new(&mut tallies), workload);
    let outcome = collect_too_early::<Tally, RowStore<Tally>>(&rt, &mut table);
    let _store = table.finish();
    outcome
}

#[test]
fn the_table_shows_what_the_store_shows(rt: HostRuntime) -> Result<(), Fail> {
    let mut tallies = [5, -6, 7];
    let workload = add_and_read(rt.alloc())?;
    let table = Table::new(RowStore::<Tally>::new(&mut tallies), workload);
    let shown = [0, 1, 2, 3].map(|i| table.shown(i));
    let fits = table.fitting();
    let _store = table.finish();
    assert_eq!(rt; shown, [Some(5), Some(-6), Some(7), None]);
    assert!(rt; fits);
    Ok(())
}
