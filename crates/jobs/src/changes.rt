// A new record, what a step changes in one, and what its owner does.
ghost use Rattle.std.specs.Prelude.{◌≡◌, ℕ, ◌<◌, not, ◌&&◌, ◌||◌, ◌==◌};
ghost use Rattle.itemset.specs.Members.{holds};
ghost use Rattle.model.specs.Table.{With, Without, ended, holding, in_state, locking, new_job, not_awaited, with_register};
ghost use Rattle.rules.specs.Sets.{Exactly};
ghost use Rattle.jobs.specs.Changes.{changed};
ghost use Rattle.jobs.specs.View.{job_view};

use crate::change::Change;
use crate::record::JobRecord;
use itemset::ItemSet;

impl JobRecord {
    // A new job of a type, with its argument as the register. It may lock only its type's local root.
    pub(crate) fn new(job_type: u8, root: u8, argument: i32) -> JobRecord
        requires { root < 64 }
        ensures job { job_view result ≡ new_job job_type argument }
        ensures next { Exactly result.next (λ d. d ≡ root) }
    {
        let none = ItemSet::empty();
        let mut next = none;
        next.insert(root);
        JobRecord {
            job_type,
            state: 0,
            worked: false,
            register: argument,
            held: none,
            locked: none,
            next,
            done: none,
            finished: false,
            awaited: true,
        }
    }

    // The job releases the item d, which it held.
    pub(crate) fn release(&self, d: u8) -> Change
        ensures job { let after = changed self.now result in job_view after ≡ holding (job_view self.now) (holds after.held) }
        ensures held { Without (holds self.now.held) d (holds (changed self.now result).held) }
        ensures next { (changed self.now result).next ≡ self.now.next }
    {
        let mut held = self.held;
        held.remove(d);
        Change::Held(held)
    }

    // The job holds the item d, which it has now locked; it may lock no more d, but what is right below.
    pub(crate) fn lock(&self, d: u8, below: ItemSet) -> Change
        requires { d < 64 }
        ensures job { let after = changed self.now result in job_view after ≡ locking (job_view self.now) (holds after.held) (holds after.locked) }
        ensures held { With (holds self.now.held) d (holds (changed self.now result).held) }
        ensures locked { With (holds self.now.locked) d (holds (changed self.now result).locked) }
        ensures next { (x : ℕ) → holds (changed self.now result).next x ≡ ((holds self.now.next x || holds below x) && not (x == d)) }
    {
        let mut held = self.held;
        held.insert(d);
        let mut locked = self.locked;
        locked.insert(d);
        let mut next = self.next.union(below);
        next.remove(d);
        Change::NewLock { held, locked, next }
    }

    // The job comes to its next state, in which it does not need these items any more.
    pub(crate) fn arrive(&self, state: u8, unlockable: ItemSet) -> Change
        ensures job { let after = changed self.now result in job_view after ≡ in_state (job_view self.now) state (holds after.done) }
        ensures done { (x : ℕ) → holds (changed self.now result).done x ≡ (holds self.now.done x || holds unlockable x) }
        ensures next { (changed self.now result).next ≡ self.now.next }
    {
        Change::Arrived(state, self.done.union(unlockable))
    }

    // The job, which nobody awaits any more.
    pub(crate) fn left_alone(self) -> JobRecord
        ensures job { job_view result ≡ not_awaited (job_view self) }
        ensures next { result.next ≡ self.next }
    {
        JobRecord {
            awaited: false,
            ..self
        }
    }
}
