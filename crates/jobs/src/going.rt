// Which held items may go.
ghost use Rattle.std.specs.Prelude.{ℕ, MatchOption};
ghost use Rattle.model.specs.Table.{Lowest, MayGo};
ghost use Rattle.workload.specs.View.{view};
ghost use Rattle.jobs.specs.View.{job_view};

use crate::active::ActiveJob;

impl ActiveJob<'_> {
    // The lowest held item that may go: it is not needed any more, and each of its local children was locked or is a leaf that is done.
    // Only idle items are looked at: most jobs hold few of the 64.
    pub(crate) fn lowest_going(&self) -> Option<u8>
        ensures { let goes = MayGo (view self.now.workload.now) (job_view self.now.job.now) in MatchOption result ((x : ℕ) → goes x → ⊥) (Lowest goes) }
    {
        let plan = self.plan();
        let job = self.job;
        let needed = plan.named.difference(job.done);
        let passed = job.locked.union(plan.leaves.intersection(job.done));
        let mut idle = job.held.difference(needed);
        while let Some(d) = idle.lowest() {
            if plan.children[d as usize].is_subset(passed) {
                return Some(d);
            }
            idle.remove(d);
        }
        None
    }
}
