// What a step changes in its job's record. It is made out first, and then written where the record stands,
// so that a field that stays is neither read nor written.
ghost use Rattle.std.specs.Prelude.{◌≡◌};
ghost use Rattle.jobs.specs.Changes.{changed, changed_place};

use crate::record::JobRecord;
use itemset::ItemSet;

// The fields that are written, with their new values.
#[derive(Clone, Copy)]
pub(crate) enum Change {
    // it only waits
    Nothing,
    Held(ItemSet),
    // it locked an item, so it may lock what is right below
    NewLock {
        held: ItemSet,
        locked: ItemSet,
        next: ItemSet,
    },
    // its state's work is done, and left this register
    Worked(i32),
    // it came to a state, and this is its done set there
    Arrived(u8, ItemSet),
    Ended,
}

impl Change {
    // Writes the change into the job's record.
    fn write_record(self, job: &mut JobRecord)
        ensures { job.new ≡ changed job.old self }
    {
        match self {
            Change::Nothing => {}
            Change::Held(held) => job.held = held,
            Change::NewLock { held, locked, next } => {
                job.held = held;
                job.locked = locked;
                job.next = next;
            }
            Change::Worked(register) => {
                job.register = register;
                job.worked = true;
            }
            Change::Arrived(state, done) => {
                job.state = state;
                job.worked = false;
                job.done = done;
            }
            Change::Ended => job.finished = true,
        }
    }

    // Writes the change at the job's place, which is empty then once the job is finished and nobody awaits it.
    pub(crate) fn write(self, place: &mut Option<JobRecord>)
        ensures { place.new ≡ changed_place place.old self }
    {
        if let Some(job) = place {
            self.write_record(job);
            if job.finished && !job.awaited {
                *place = None;
            }
        }
    }
}
