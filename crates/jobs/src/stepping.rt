// One step of a job.
ghost use Rattle.std.specs.Prelude.{◌≡◌};
ghost use Rattle.kinds.specs.View.{view as kind_view};
ghost use Rattle.model.specs.Table.{Steps};
ghost use Rattle.workload.specs.View.{view};
ghost use Rattle.jobs.specs.Changes.{changed};
ghost use Rattle.jobs.specs.View.{Holding, NextOf, job_view, told_view};

use crate::active::ActiveJob;
use crate::change::Change;
use crate::record::StepAnswer;
use crate::shift::Shift;
use kinds::kind::Kind;
use rules::state::State;
use stores::state_work::work_of_state;
use stores::store::{ShowingStore, WorkingStore};

impl ActiveJob<'_> {
    // The job does the first of the things that a step may do; what it tells, and what changes in its record.
    pub(crate) fn step<K: Kind, S: WorkingStore<K>>(
        &self,
        store: &mut S,
        shift: &Shift,
    ) -> (StepAnswer, Change)
        ensures steps { Steps (view self.now.workload.now) (kind_view K.Kind) (Holding shift.now.places) (S.ShowingStore.values store.old) (job_view self.now.job.now) (told_view result.0) (S.ShowingStore.values store.new) (job_view (changed self.now.job.now result.1)) }
        ensures next { let after = changed self.now.job.now result.1 in NextOf (view self.now.workload.now) (job_view after) after.next }
        ensures outside { S.WorkingStore.stays store.old store.new }
    {
        let job = self.job;
        if let Some(d) = self.lowest_going() {
            return (StepAnswer::Released(d), job.release(d));
        }
        if job.worked {
            return match self.next_state() {
                Some(s) => (StepAnswer::Gone(s), job.arrive(s, self.unlockable(s))),
                None => match job.held.lowest() {
                    Some(d) => (StepAnswer::Released(d), job.release(d)),
                    None => (StepAnswer::Finished, Change::Ended),
                },
            };
        }
        let State {
            item,
            code,
            operand,
            ..
        } = self.state();
        if job.held.contains(item) {
            let register = work_of_state::<K, S>(store, item as usize, code, operand, job.register);
            return (StepAnswer::Worked(item), Change::Worked(register));
        }
        let d = self.wanted();
        match shift.holder(d) {
            Some(q) => (StepAnswer::Waiting(d, q), Change::Nothing),
            None => (StepAnswer::Locked(d), job.lock(d, self.children(d))),
        }
    }
}
