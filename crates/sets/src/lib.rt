// The sets of a job type and its local lock tree: each call looks up what the workload keeps, and walks no graph.
// The calls differ in the field that they look up and in the definition that it answers; one over both would say less.
#![tactic(auto)]

ghost use Rattle.std.specs.Prelude.{◌<◌};
ghost use Rattle.model.specs.Workload.{Local, LocalRoot, Unlockable, Unreachable};
ghost use Rattle.rules.specs.Plans.{Planned};
ghost use Rattle.sets.specs.Items.{ItemsOf};
ghost use Rattle.workload.specs.View.{Answers, HasState, view};

use itemset::ItemSet;
use rules::plan::Plan;
use workload::definition::Workload;

// The plan of type t, where the type has a state s.
fn plan_at(workload: &Workload, t: u8, s: u8) -> Option<&Plan>
    ensures { Answers result (HasState (view workload.now) t s) (λ p. (s < 32) × Planned (view workload.now) t p.now) }
{
    let count = workload.state_count(t)?;
    if s >= count {
        return None;
    }
    workload.plan(t)
}

// The unreachable set of state s of type t: the items that no state on any way from s names, s itself counted.
// Nothing where there is no such state.
pub fn unreachable(workload: &Workload, t: u8, s: u8) -> Option<ItemSet>
    ensures { Answers result (HasState (view workload.now) t s) (ItemsOf (view workload.now) (Unreachable (view workload.now) t s)) }
{
    plan_at(workload, t, s).map(|plan| plan.unreachable[s as usize])
}

// The unlockable set of state s of type t. A job that comes to s has just left its items behind for good.
// Nothing where there is no such state.
#[tactic(auto, using(crate::proofs::Within::unlockable_items))]
pub fn unlockable(workload: &Workload, t: u8, s: u8) -> Option<ItemSet>
    ensures { Answers result (HasState (view workload.now) t s) (ItemsOf (view workload.now) (Unlockable (view workload.now) t s)) }
{
    plan_at(workload, t, s).map(|plan| plan.unlockable[s as usize])
}

// The local root of type t: the deepest item that is, or lies above, every item that the type names.
// Nothing where there is no such type.
pub fn local_root(workload: &Workload, t: u8) -> Option<u8>
    ensures { Answers result (t < (view workload.now).types) (LocalRoot (view workload.now) t) }
{
    workload.plan(t).map(|plan| plan.root)
}

// The items of the local lock tree of type t. Nothing where there is no such type.
#[tactic(auto, using(crate::proofs::Within::local_item))]
pub fn local_items(workload: &Workload, t: u8) -> Option<ItemSet>
    ensures { Answers result (t < (view workload.now).types) (ItemsOf (view workload.now) (Local (view workload.now) t)) }
{
    workload.plan(t).map(|plan| plan.local)
}
