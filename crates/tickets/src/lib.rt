// A caller that holds tickets itself. Its must-fail edits are what the check refuses: a ticket that is dropped, or collected on twice.
#![tactic(auto)]

ghost use Rattle.table.specs.Answers.{Moved};
ghost use Rattle.tickets.specs.Callers.{BegunAndLeft, Ended};

use kinds::kind::Kind;
use stores::store::WorkingStore;
use table::answer::Refusal;
use table::definition::Table;
use table::ticket::Ticket;

// The register of a finished job. A job that is not finished is left: nobody will ask for it again.
pub fn collect_or_leave<K: Kind, S: WorkingStore<K>>(
    table: &mut Table<K, S>,
    ticket: Ticket,
) -> Option<i32>
    ensures { Ended (Moved K.Kind S.ShowingStore) ticket.place table.old result table.new }
{
    match table.collect(ticket) {
        Ok(register) => Some(register),
        Err((_, back)) => {
            let _ = table.leave(back);
            None
        }
    }
}

// The same with a ticket that lies in a slot until it is asked for.
pub fn collect_from_slot<K: Kind, S: WorkingStore<K>>(
    table: &mut Table<K, S>,
    ticket: Ticket,
) -> Option<i32>
    ensures { Ended (Moved K.Kind S.ShowingStore) ticket.place table.old result table.new }
{
    let mut slot = Some(ticket);
    let taken = slot.take().unwrap();
    match table.collect(taken) {
        Ok(collected) => Some(collected),
        Err((_, again)) => {
            let _ = table.leave(again);
            None
        }
    }
}

// Begins a job that nobody will collect: its place empties with its last step.
pub fn begin_and_leave<K: Kind, S: WorkingStore<K>>(
    table: &mut Table<K, S>,
    place: u8,
    job_type: u8,
    argument: i32,
) -> Result<(), Refusal>
    ensures { BegunAndLeft (Moved K.Kind S.ShowingStore) place job_type argument table.old result table.new }
{
    let ticket = table.begin(place, job_type, argument)?;
    table.leave(ticket)
}
