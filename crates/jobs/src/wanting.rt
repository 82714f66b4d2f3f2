// The item that a job wants.
ghost use Rattle.std.specs.Prelude.{◌≡◌, ◌<◌, false};
ghost use Rattle.itemset.specs.Members.{holds};
ghost use Rattle.model.specs.Table.{Wanted};
ghost use Rattle.workload.specs.View.{view};
ghost use Rattle.jobs.specs.View.{job_view};

use crate::active::ActiveJob;

impl ActiveJob<'_> {
    // The first item never locked on the way from the local root to the state's item.
    // A job locks from the local root down without a gap, so it is the one on the way that may be locked next.
    pub(crate) fn wanted(&self) -> u8
        requires unworked { self.now.job.now.worked ≡ false }
        requires free { holds self.now.job.now.held ((view self.now.workload.now).item self.now.job.now.job_type self.now.job.now.state) ≡ false }
        ensures wants { Wanted (view self.now.workload.now) (job_view self.now.job.now) result }
        ensures small { result < (view self.now.workload.now).items }
    {
        self.job.next.intersection(self.way()).lowest().unwrap()
    }
}
