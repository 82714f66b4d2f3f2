// What a step of a job needs of the job's type, computed once, so that the step itself only looks it up.
ghost use Rattle.std.specs.Prelude.{MatchOption};
ghost use Rattle.rules.specs.Plans.{NoType, PlanFor};

use crate::naming::Naming;
use crate::state::State;
use crate::tree::LockTree;
use crate::unlocking::each_left_behind;
use crate::ways::Graph;
use itemset::ItemSet;

// The local lock tree of one job type, and the sets of each of its states.
// Each array is made whole from others and looked up at one index: a struct for each item or state would need another pass.
#[derive(Clone, Copy)]
pub struct Plan {
    // the local root
    pub root: u8,
    // the items of the local lock tree, those that the type names, and the local leaves
    pub local: ItemSet,
    pub named: ItemSet,
    pub leaves: ItemSet,
    // for each item its children in the local lock tree
    pub children: [ItemSet; 64],
    // for each state its unreachable and its unlockable set
    pub unreachable: [ItemSet; 32],
    pub unlockable: [ItemSet; 32],
}

// The plan of a job type with these states over the tree. It is right in every workload that has such a type, and nothing
// is answered only where no workload has one.
pub fn plan_of(lock: &LockTree, states: &[State]) -> Option<Plan>
    ensures { MatchOption result (NoType lock.now.tree.parents.now states.now) (PlanFor lock.now.tree.parents.now states.now) }
{
    let graph = Graph::of(states)?;
    let naming = Naming::of(lock, states)?;
    let root = lock.above.deepest_of(naming.common)?;
    let local = naming.local_items(root);
    let leaves = naming.leaves();
    let children = lock.children_in(local).rows;
    let arcs = graph.arcs();
    let names = graph.names();
    let ahead = graph.named_ahead(names, &arcs);
    let behind = graph.named_behind(names, &arcs);
    let unreachable = ahead.lacking(lock.tree.items());
    let unlockable = each_left_behind(&arcs, &unreachable, &behind).rows;
    // The checker follows a row of a field into the plan only through a variable.
    let unreachable = unreachable.rows;
    Some(Plan {
        root,
        local,
        named: naming.named,
        leaves,
        children,
        unreachable,
        unlockable,
    })
}
