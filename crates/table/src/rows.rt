// Lists of calls over a caller's own row of values, to plain data.
ghost use Rattle.std.specs.Prelude.{◌≡◌, map, length, IfOk, MatchResult};
ghost use Rattle.stores.specs.Stores.{counted};
ghost use Rattle.table.specs.Answers.{EndsWell};
ghost use Rattle.table.specs.Room.{IsRoom};

use crate::answer::{Answer, Call};
use crate::definition::Table;
use kinds::kind::Kind;
use std::alloc::{AllocError, Global};
use stores::row::RowStore;
use stores::store::{CAPACITY, ShowingStore, WorkingStore};
use workload::definition::Workload;

// What a list of calls on a new table comes to: an answer for each call, and the number that each item shows afterwards.
#[derive(Drop)]
pub struct Outcome {
    pub answers: Vec<Answer>,
    pub shown: Vec<i64>,
}

impl Outcome {
    // An outcome that tells nothing yet, with room for so many answers and numbers.
    fn with_room(heap: Global, answers: usize, shown: usize) -> Result<Outcome, AllocError>
        ensures { IfOk result (λ o. IsRoom answers o.answers × IsRoom shown o.shown) }
    {
        Ok(Outcome {
            answers: Vec::with_capacity(heap, answers)?,
            shown: Vec::with_capacity(heap, shown)?,
        })
    }
}

// Puts the number that each item shows into the empty row, which has room for all.
fn show_in<K: Kind, S: ShowingStore<K>>(store: &S, room: Vec<i64>) -> Vec<i64>
    requires { IsRoom (length (S.ShowingStore.values store.now)) room }
    ensures { result.items ≡ map K.Kind.number (S.ShowingStore.values store.now) }
{
    let mut shown = room;
    // A store is no slice: it is asked for the number of each item.
    for i in 0..store.len() {
        shown.push_reserved(store.shown(i).unwrap());
    }
    shown
}

// Makes each call on a new table over the store, with room for all that is told.
fn run_in<K: Kind, S: WorkingStore<K>>(
    store: S,
    workload: Workload,
    room: Outcome,
    calls: &[Call],
) -> (S, Outcome)
    requires answers { IsRoom (length calls.now) room.answers }
    requires shown { IsRoom (length (S.ShowingStore.values store)) room.shown }
    ensures { EndsWell K.Kind workload (S.ShowingStore.values store) calls.now result.1 }
{
    let Outcome { answers, shown } = room;
    let mut table = Table::new(store, workload);
    let answers = table.perform_in(answers, calls);
    let store = table.finish();
    let shown = show_in::<K, S>(&store, shown);
    (store, Outcome { answers, shown })
}

// Makes a store of the caller's row of values, of which the first 4,096 count, and a new table over it, and each call in order.
// Memory for all that is told is had first: without it the row is as it was.
pub fn run_row<K: Kind>(
    row: &mut [K::Value],
    workload: Workload,
    heap: Global,
    calls: &[Call],
) -> Result<Outcome, AllocError>
    ensures { MatchResult result (λ o. EndsWell K.Kind workload (counted row.old) calls.now o) (λ _. row.new ≡ row.old) }
{
    let room = Outcome::with_room(heap, calls.len(), row.len().min(CAPACITY))?;
    let store = RowStore::<K>::new(row);
    let (_store, outcome) = run_in::<K, RowStore<K>>(store, workload, room, calls);
    Ok(outcome)
}
