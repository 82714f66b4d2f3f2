// Lists of calls over two rows of values as one.
ghost use Rattle.std.specs.Prelude.{◌≡◌, map, IfOk, MatchResult};
ghost use Rattle.exports.specs.Runs.{NoRoom, Ran, RunOf, joined};
ghost use Rattle.exports.specs.Told.{Ends, Fails};

use crate::plain::{PlainAnswer, PlainCall, calls};
use crate::runs::put_outcome;
use crate::told::{DONE, End, NO_ROOM, end_of};
use kinds::kind::Kind;
use kinds::tally::Tally;
use std::alloc::{AllocError, Global};
use stores::joined::JoinedStore;
use stores::row::RowStore;
use stores::store::{CAPACITY, ShowingStore};
use table::lists::run;
use table::rows::Outcome;
use workload::fault::Fault;
use workload::file::load;

// The number that each item of a store shows.
fn numbers_shown<K: Kind, S: ShowingStore<K>>(
    heap: Global,
    store: &S,
) -> Result<Vec<i64>, AllocError>
    ensures { IfOk result (λ v. v.items ≡ map K.Kind.number (S.ShowingStore.values store.now)) }
{
    let mut shown = Vec::with_capacity(heap, store.len())?;
    // A store is no slice: it is asked for the number of each item.
    for i in 0..store.len() {
        shown.push(store.shown(i).unwrap())?;
    }
    Ok(shown)
}

// Makes the calls on a new table over the joined rows and the file's workload.
fn run_joined<K: Kind>(
    heap: Global,
    file: &[u8],
    plain: &[PlainCall],
    front: &mut [K::Value],
    back: &mut [K::Value],
) -> Result<Outcome, Fault>
    ensures { MatchResult result (RunOf K.Kind file.now (joined front.old back.old) plain.now) (Fails file.now ((front.new ≡ front.old) × (back.new ≡ back.old))) }
{
    let (workload, _span) = load(heap, file)?;
    let calls = calls(heap, plain)?;
    let store = JoinedStore::new(RowStore::<K>::new(front), RowStore::<K>::new(back));
    let (table, answers) = run::<K, JoinedStore<RowStore<K>, RowStore<K>>>(
        store,
        workload,
        heap,
        calls.as_slice(),
    );
    let store = table.finish();
    let answers = answers?;
    let shown = numbers_shown::<K, JoinedStore<RowStore<K>, RowStore<K>>>(heap, &store)?;
    Ok(Outcome { answers, shown })
}

// Makes the calls on a new table over two rows of tallies as one, the first in front.
#[unsafe(no_mangle)]
pub extern "C" fn fadzrike_run_joined(
    heap: Global,
    file: &[u8],
    plain: &[PlainCall],
    front: &mut [i32],
    back: &mut [i32],
    answers: &mut [PlainAnswer],
    shown: &mut [i64],
) -> End
    ensures { Ends file.now
        (Ran ⟦<Tally as Kind>⟧ file.now (joined front.old back.old) plain.now answers.new shown.new)
        (NoRoom plain.now (joined front.old back.old) answers.old shown.old)
        ((front.new ≡ front.old) × (back.new ≡ back.old) × (answers.new ≡ answers.old) × (shown.new ≡ shown.old))
        result }
{
    let items = front.len().min(CAPACITY) + back.len().min(CAPACITY);
    if answers.len() < plain.len() || shown.len() < items.min(CAPACITY) {
        return NO_ROOM;
    }
    let outcome = match run_joined::<Tally>(heap, file, plain, front, back) {
        Ok(outcome) => outcome,
        Err(fault) => return end_of(fault),
    };
    put_outcome(&outcome, answers, shown);
    DONE
}
