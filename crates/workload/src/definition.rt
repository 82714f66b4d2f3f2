// The workload and its rules.
ghost use Rattle.std.specs.Prelude.{◌≡◌, ℕ, ◌<◌, ◌≤◌, [], length, IfOk, vec_len, slice_index_or};
ghost use Rattle.rules.specs.Lawful.{Lawful};
ghost use Rattle.rules.specs.Plans.{Kept};
ghost use Rattle.rules.specs.Reach.{Reaches};
ghost use Rattle.rules.specs.Rules.{Parent};
ghost use Rattle.rules.specs.Sets.{Rows};
ghost use Rattle.rules.specs.View.{state_at, workload_of};
ghost use Rattle.workload.specs.Types.{all_plans, all_states};

use crate::plans::planned_types;
use crate::row::StateRow;
use itemset::ItemSet;
use rules::plan::Plan;
use rules::state::State;
use rules::tree::LockTree;
use std::alloc::{AllocError, Global};

// A job type begins in its state 0. Its plan is kept with it, so that no step of a job walks a graph.
#[derive(Drop)]
pub struct JobType {
    pub states: Vec<State>,
    pub(crate) plan: Plan,
}

// A tree of items, as the parent byte of each, the number of operation codes, and the job types. With the tree stand, for each item,
// itself and the items above it, so that no step of a job climbs.
// Every workload that exists keeps the rules, so code above tests none of them, and its plans are those of its types.
#[derive(Drop)]
pub struct Workload {
    pub(crate) parents: Vec<u8>,
    pub(crate) code_count: u8,
    pub(crate) types: Vec<JobType>,
    pub(crate) above: [ItemSet; 64],
    ghost items: { (1 ≤ vec_len parents) × (vec_len parents ≤ 64) },
    ghost some: { (1 ≤ vec_len types) × (vec_len types ≤ 8) },
    ghost counted: { length (all_states types.items) ≡ vec_len types },
    ghost few: { (t s : ℕ) → (state_at (all_states types.items) t s).arc_count ≤ 4 },
    ghost four: { (t s : ℕ) → s < length (slice_index_or (all_states types.items) t []) → length (state_at (all_states types.items) t s).arcs ≡ 4 },
    ghost lawful: { ∥ Lawful parents.items code_count (all_states types.items) ∥₁ },
    ghost rows: { length above ≡ 64 },
    ghost ways_up: { ∥ Rows 64 above (Reaches (Parent parents.items)) ∥₁ },
    ghost planned: { ∥ Kept (workload_of parents.items code_count (all_states types.items)) (all_plans types.items) ∥₁ },
}

impl Workload {
    // The workload that parts make which keep the rules.
    pub(crate) fn of_parts(
        heap: Global,
        lock: &LockTree,
        code_count: u8,
        types: &[StateRow],
    ) -> Result<Workload, AllocError>
        requires { Lawful lock.now.tree.parents.now code_count types.now }
        ensures { IfOk result (λ w. (w.parents.items ≡ lock.now.tree.parents.now) × (w.code_count ≡ code_count) × (all_states w.types.items ≡ types.now)) }
    {
        let types = planned_types(heap, lock, types)?;
        let parents = Vec::from_slice(heap, lock.parents())?;
        Ok(Workload {
            parents,
            code_count,
            types,
            above: lock.ways_up(),
        })
    }
}
