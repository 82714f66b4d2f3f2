// The workload and the sixteen places, with what holds of every job there.
ghost use Rattle.std.specs.Prelude.{◌≡◌, ℕ, ◌<◌, length, replicate, MatchOption, slice_index_or, slice_set};
ghost use Rattle.jobs.specs.Changes.{changed_place};
ghost use Rattle.jobs.specs.View.{AllSound, HeldFrom, Holding, LockedAt, PlaceSound, lockers_after};
ghost use Rattle.jobs.specs.declared.record.StepAnswer.TheVariants.{Locked};
ghost use Rattle.workload.specs.View.{view};

use crate::change::Change;
use crate::places::holds_at;
use crate::record::{JobRecord, StepAnswer};
use workload::definition::Workload;

// How many jobs can be there at once. It is fixed, so that entering and stepping need no memory.
const PLACES: usize = 16;

// The most items of a workload.
const ITEMS: usize = 64;

// Sixteen job records under one workload. What a step needs of a record to be total is an invariant here.
#[derive(Drop)]
pub struct Shift {
    pub(crate) workload: Workload,
    pub(crate) places: [Option<JobRecord>; 16],
    // for each item from which place it was locked last: only the job there can hold it
    lockers: [u8; 64],
    ghost sixteen: { length places ≡ 16 },
    ghost sound: { AllSound (view workload) places },
    ghost every_item: { length lockers ≡ 64 },
    ghost held: { HeldFrom lockers places },
}

impl Shift {
    // Sixteen empty places.
    pub fn new(workload: Workload) -> Shift
        ensures workload { result.workload ≡ workload }
        ensures empty { result.places ≡ replicate 16 None }
        ensures lockers { result.lockers ≡ replicate 64 0 }
    {
        Shift {
            workload,
            places: [None; PLACES],
            lockers: [0; ITEMS],
        }
    }

    // The workload that its jobs go by.
    pub fn workload(&self) -> &Workload
        ensures { result.now ≡ self.now.workload }
    {
        &self.workload
    }

    // What stands at a place; past the last one nothing does.
    pub fn at(&self, place: u8) -> Option<JobRecord>
        ensures { result ≡ slice_index_or self.now.places place None }
    {
        self.places.get(place as usize).copied().flatten()
    }

    // The place of the job that holds the item d.
    pub(crate) fn holder(&self, d: u8) -> Option<u8>
        requires { d < 64 }
        ensures { MatchOption result ((q : ℕ) → Holding self.now.places q d → ⊥) (λ q. Holding self.now.places q d) }
    {
        let last = self.lockers[d as usize];
        holds_at(&self.places, last, d).then_some(last)
    }

    // Notes from which place an item is locked, if that is what a step tells.
    pub(crate) fn note(&mut self, place: u8, told: StepAnswer)
        requires within { (d : ℕ) → told ≡ Locked d → d < 64 }
        requires free { (d : ℕ) → told ≡ Locked d → (q : ℕ) → Holding self.old.places q d → ⊥ }
        ensures workload { self.new.workload ≡ self.old.workload }
        ensures places { self.new.places ≡ self.old.places }
        ensures lockers { self.new.lockers ≡ lockers_after self.old.lockers place told }
    {
        if let StepAnswer::Locked(d) = told {
            self.lockers[d as usize] = place;
        }
    }

    // Puts a sound record at a place, and leaves the fifteen others.
    pub(crate) fn put(&mut self, place: u8, there: Option<JobRecord>)
        requires within { place < 16 }
        requires sound { PlaceSound (view self.old.workload) there }
        requires locked { LockedAt self.old.lockers place there }
        ensures workload { self.new.workload ≡ self.old.workload }
        ensures places { self.new.places ≡ slice_set self.old.places place there }
        ensures lockers { self.new.lockers ≡ self.old.lockers }
    {
        self.places[place as usize] = there;
    }

    // Writes what a step changes into the record at a place, and leaves the fifteen others.
    pub(crate) fn change(&mut self, place: u8, change: Change)
        requires within { place < 16 }
        requires sound { PlaceSound (view self.old.workload) (changed_place (slice_index_or self.old.places place None) change) }
        requires locked { LockedAt self.old.lockers place (changed_place (slice_index_or self.old.places place None) change) }
        ensures workload { self.new.workload ≡ self.old.workload }
        ensures places { self.new.places ≡ slice_set self.old.places place (changed_place (slice_index_or self.old.places place None) change) }
        ensures lockers { self.new.lockers ≡ self.old.lockers }
    {
        change.write(&mut self.places[place as usize]);
    }
}
