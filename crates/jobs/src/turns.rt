// What is done at one of the sixteen places: the record there changes, and the fifteen others are as they were.
// That the workload stays, and what becomes of the row of lockers, is a clause of each: a word for it would be no shorter.
ghost use Rattle.std.specs.Prelude.{◌≡◌, true, false, Some, None, MatchOption, slice_index_or, slice_set};
ghost use Rattle.jobs.specs.declared.record.JobRecord.{JobRecord};
ghost use Rattle.kinds.specs.View.{view as kind_view};
ghost use Rattle.workload.specs.View.{view};
ghost use Rattle.jobs.specs.Turns.{Entered, Stepped, Unawaited};
ghost use Rattle.jobs.specs.View.{lockers_after};

use crate::active::ActiveJob;
use crate::record::{EnterError, JobRecord, StepAnswer};
use crate::shift::Shift;
use kinds::kind::Kind;
use stores::store::{ShowingStore, WorkingStore};

impl Shift {
    // Enters a new job at an empty place, or tells why it does not.
    pub fn enter(&mut self, place: u8, job_type: u8, argument: i32) -> Result<(), EnterError>
        ensures workload { self.new.workload ≡ self.old.workload }
        ensures entered { Entered self.old.places place self.new.places (view self.old.workload) job_type argument result }
        ensures lockers { self.new.lockers ≡ self.old.lockers }
    {
        if place >= 16 {
            return Err(EnterError::NoSuchPlace);
        }
        let Some(plan) = self.workload.plan(job_type) else {
            return Err(EnterError::NoSuchType);
        };
        let root = plan.root;
        if self.at(place).is_some() {
            return Err(EnterError::PlaceTaken);
        }
        self.put(place, Some(JobRecord::new(job_type, root, argument)));
        Ok(())
    }

    // The unfinished job at a place.
    fn unfinished(&self, place: u8) -> Option<&JobRecord>
        ensures { let there = slice_index_or self.now.places place None in MatchOption result ((R : JobRecord) → there ≡ Some R → R.finished ≡ true) (λ R. (there ≡ Some R.now) × (R.now.finished ≡ false)) }
    {
        let job = self.places.get(place as usize)?.as_ref()?;
        (!job.finished).then_some(job)
    }

    // The unfinished job at a place makes one step; nothing where there is none.
    pub fn step<K: Kind, S: WorkingStore<K>>(
        &mut self,
        store: &mut S,
        place: u8,
    ) -> Option<StepAnswer>
        ensures workload { self.new.workload ≡ self.old.workload }
        ensures stepped { Stepped self.old.places place self.new.places (view self.old.workload) (kind_view K.Kind) (S.ShowingStore.values store.old) (S.ShowingStore.values store.new) result }
        ensures lockers { MatchOption result (self.new.lockers ≡ self.old.lockers) (λ told. self.new.lockers ≡ lockers_after self.old.lockers place told) }
        ensures outside { S.WorkingStore.stays store.old store.new }
    {
        let job = self.unfinished(place)?;
        let active = ActiveJob {
            workload: &self.workload,
            job,
        };
        let (answer, change) = active.step::<K, S>(store, self);
        self.note(place, answer);
        self.change(place, change);
        Some(answer)
    }

    // Empties a place.
    pub fn clear(&mut self, place: u8)
        ensures workload { self.new.workload ≡ self.old.workload }
        ensures places { self.new.places ≡ slice_set self.old.places place None }
        ensures lockers { self.new.lockers ≡ self.old.lockers }
    {
        if place < 16 {
            self.put(place, None);
        }
    }

    // Nobody awaits the job at a place any more.
    pub fn unawait(&mut self, place: u8)
        ensures workload { self.new.workload ≡ self.old.workload }
        ensures unawaited { Unawaited self.old.places place self.new.places }
        ensures lockers { self.new.lockers ≡ self.old.lockers }
    {
        if let Some(job) = self.at(place) {
            self.put(place, Some(job.left_alone()));
        }
    }
}
