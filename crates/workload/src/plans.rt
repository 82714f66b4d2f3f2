// The plans of the job types of a workload.
ghost use Rattle.std.specs.Prelude.{◌≡◌, ℕ, IfOk};
ghost use Rattle.rules.specs.Lawful.{Lawful};
ghost use Rattle.rules.specs.Plans.{Kept};
ghost use Rattle.rules.specs.View.{workload_of};
ghost use Rattle.workload.specs.Types.{all_plans, all_states};

use crate::definition::JobType;
use crate::row::StateRow;
use rules::plan::plan_of;
use rules::tree::LockTree;
use std::alloc::{AllocError, Global};

// Takes job types over the tree into memory, each with its plan.
pub(crate) fn planned_types(
    heap: Global,
    lock: &LockTree,
    rows: &[StateRow],
) -> Result<Vec<JobType>, AllocError>
    requires { (codes : ℕ) × Lawful lock.now.tree.parents.now codes rows.now }
    ensures states { IfOk result (λ v. all_states v.items ≡ rows.now) }
    ensures plans { IfOk result (λ v. (codes : ℕ) → Lawful lock.now.tree.parents.now codes rows.now → Kept (workload_of lock.now.tree.parents.now codes rows.now) (all_plans v.items)) }
{
    let mut types = Vec::with_capacity(heap, rows.len())?;
    for row in rows {
        let states = Vec::from_slice(heap, row.as_slice())?;
        let plan = plan_of(lock, row.as_slice()).unwrap();
        types.push(JobType { states, plan })?;
    }
    Ok(types)
}
