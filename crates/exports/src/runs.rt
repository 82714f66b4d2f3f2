// Lists of calls over the workload of a file.
ghost use Rattle.std.specs.Prelude.{◌≡◌, ◌≤◌, map, length, MatchResult};
ghost use Rattle.exports.specs.Plain.{slot_of};
ghost use Rattle.exports.specs.Runs.{NoRoom, Ran, RunOf, Tells};
ghost use Rattle.exports.specs.Told.{Ends, Fails};
ghost use Rattle.stores.specs.Stores.{counted};

use crate::plain::{PlainAnswer, PlainCall, PlainSlot, calls, put_answers, put_shown, slots};
use crate::told::{DONE, End, NO_MEMORY, NO_ROOM, end_of};
use kinds::kind::Kind;
use kinds::slot::Slot;
use kinds::tally::Tally;
use std::alloc::Global;
use stores::store::CAPACITY;
use table::rows::{Outcome, run_row};
use workload::fault::Fault;
use workload::file::load;

// Makes the calls on a new table over the row and the file's workload.
fn run_file<K: Kind>(
    heap: Global,
    file: &[u8],
    plain: &[PlainCall],
    row: &mut [K::Value],
) -> Result<Outcome, Fault>
    ensures { MatchResult result (RunOf K.Kind file.now (counted row.old) plain.now) (Fails file.now (row.new ≡ row.old)) }
{
    let (workload, _span) = load(heap, file)?;
    let calls = calls(heap, plain)?;
    Ok(run_row::<K>(row, workload, heap, calls.as_slice())?)
}

// Puts the answers and what the items show at the front of the caller's rows, which have room for all.
pub(crate) fn put_outcome(outcome: &Outcome, answers: &mut [PlainAnswer], shown: &mut [i64])
    requires answers { length outcome.now.answers.items ≤ length answers.now }
    requires shown { length outcome.now.shown.items ≤ length shown.now }
    ensures { Tells outcome.now answers.new shown.new }
{
    put_answers(outcome.answers.as_slice(), answers);
    put_shown(outcome.shown.as_slice(), shown);
}

// Makes the calls, and puts their answers and what the items show at the front of the caller's rows.
fn run_and_tell<K: Kind>(
    heap: Global,
    file: &[u8],
    plain: &[PlainCall],
    row: &mut [K::Value],
    answers: &mut [PlainAnswer],
    shown: &mut [i64],
) -> End
    ensures { Ends file.now
        (Ran K.Kind file.now (counted row.old) plain.now answers.new shown.new)
        (NoRoom plain.now (counted row.old) answers.old shown.old)
        ((row.new ≡ row.old) × (answers.new ≡ answers.old) × (shown.new ≡ shown.old))
        result }
{
    if answers.len() < plain.len() || shown.len() < row.len().min(CAPACITY) {
        return NO_ROOM;
    }
    let outcome = match run_file::<K>(heap, file, plain, row) {
        Ok(outcome) => outcome,
        Err(fault) => return end_of(fault),
    };
    put_outcome(&outcome, answers, shown);
    DONE
}

// Makes the calls on a new table over the row of tallies.
#[unsafe(no_mangle)]
pub extern "C" fn fadzrike_run_tallies(
    heap: Global,
    file: &[u8],
    plain: &[PlainCall],
    row: &mut [i32],
    answers: &mut [PlainAnswer],
    shown: &mut [i64],
) -> End
    ensures { Ends file.now
        (Ran ⟦<Tally as Kind>⟧ file.now (counted row.old) plain.now answers.new shown.new)
        (NoRoom plain.now (counted row.old) answers.old shown.old)
        ((row.new ≡ row.old) × (answers.new ≡ answers.old) × (shown.new ≡ shown.old))
        result }
{
    run_and_tell::<Tally>(heap, file, plain, row, answers, shown)
}

// Makes the calls on a new table over a row of the slots that these stand for.
#[unsafe(no_mangle)]
pub extern "C" fn fadzrike_run_slots(
    heap: Global,
    file: &[u8],
    plain: &[PlainCall],
    row: &[PlainSlot],
    answers: &mut [PlainAnswer],
    shown: &mut [i64],
) -> End
    ensures { Ends file.now
        (Ran ⟦<Slot as Kind>⟧ file.now (counted (map slot_of row.now)) plain.now answers.new shown.new)
        (NoRoom plain.now (counted (map slot_of row.now)) answers.old shown.old)
        ((answers.new ≡ answers.old) × (shown.new ≡ shown.old))
        result }
{
    match slots(heap, row) {
        Ok(row) => {
            let mut row = row;
            run_and_tell::<Slot>(heap, file, plain, row.as_mut_slice(), answers, shown)
        }
        Err(_) => NO_MEMORY,
    }
}
