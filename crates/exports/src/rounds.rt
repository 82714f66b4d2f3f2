// The same calls again and again on one table, so that reading the file counts little beside them.
ghost use Rattle.std.specs.Prelude.{◌≡◌, ◌<◌, length, IfOk, MatchResult};
ghost use Rattle.exports.specs.Runs.{LeadsRound, RanRounds, RoundsOf};
ghost use Rattle.exports.specs.Told.{Ends, Fails};
ghost use Rattle.stores.specs.Stores.{counted};

use crate::plain::{PlainAnswer, PlainCall, calls, put_answers};
use crate::told::{DONE, End, NO_ROOM, end_of};
use kinds::kind::Kind;
use kinds::tally::Tally;
use std::alloc::{AllocError, Global};
use stores::row::RowStore;
use stores::store::{ShowingStore, WorkingStore};
use table::answer::{Answer, Call};
use table::definition::Table;
use workload::fault::Fault;
use workload::file::load;

// Makes the calls, and then so many times again; gives the last answers.
fn make_rounds<K: Kind, S: WorkingStore<K>>(
    table: &mut Table<K, S>,
    heap: Global,
    calls: &[Call],
    again: u32,
) -> Result<Vec<Answer>, AllocError>
    ensures { IfOk result (λ v. LeadsRound K.Kind S.ShowingStore table.old calls.now again v.items table.new) }
{
    let mut answers = table.perform(heap, calls)?;
    for _round in 0..again {
        answers = table.perform(heap, calls)?;
    }
    Ok(answers)
}

// Makes rounds of the calls on a new table over the row and the file's workload.
fn run_rounds<K: Kind>(
    heap: Global,
    file: &[u8],
    plain: &[PlainCall],
    again: u32,
    row: &mut [K::Value],
) -> Result<Vec<Answer>, Fault>
    ensures { MatchResult result (λ v. RoundsOf K.Kind file.now (counted row.old) plain.now again v.items) (Fails file.now (row.new ≡ row.old)) }
{
    let (workload, _span) = load(heap, file)?;
    let calls = calls(heap, plain)?;
    let mut table = Table::new(RowStore::<K>::new(row), workload);
    let answers = make_rounds::<K, RowStore<K>>(&mut table, heap, calls.as_slice(), again);
    let _store = table.finish();
    Ok(answers?)
}

// Makes the calls on a new table over the row of tallies, and then so many times again;
// the last answers stand at the front of the caller's row.
#[unsafe(no_mangle)]
pub extern "C" fn fadzrike_run_rounds(
    heap: Global,
    file: &[u8],
    plain: &[PlainCall],
    again: u32,
    row: &mut [i32],
    answers: &mut [PlainAnswer],
) -> End
    ensures { Ends file.now
        (RanRounds ⟦<Tally as Kind>⟧ file.now (counted row.old) plain.now again answers.new)
        (length answers.old < length plain.now) ((row.new ≡ row.old) × (answers.new ≡ answers.old))
        result }
{
    if answers.len() < plain.len() {
        return NO_ROOM;
    }
    let last = match run_rounds::<Tally>(heap, file, plain, again, row) {
        Ok(last) => last,
        Err(fault) => return end_of(fault),
    };
    put_answers(last.as_slice(), answers);
    DONE
}
