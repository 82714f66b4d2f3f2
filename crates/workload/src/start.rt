// The workload to start from.
ghost use Rattle.std.specs.Prelude.{pos, IfOk};
ghost use Rattle.workload.specs.View.{Single};

use crate::definition::Workload;
use crate::row::StateRow;
use rules::state::State;
use rules::tree::{LockTree, ROOT_MARK};
use std::alloc::{AllocError, Global};

impl Workload {
    // One item, one code, and one type of one terminal state with this operand.
    fn single(heap: Global, operand: i32) -> Result<Workload, AllocError>
        ensures { IfOk result (λ w. Single w operand) }
    {
        let state = State {
            item: 0,
            code: 0,
            operand,
            arc_count: 0,
            arcs: [0; 4],
        };
        let mut states = StateRow::empty();
        states.push(state);
        let lock = LockTree::of(&[ROOT_MARK]).unwrap();
        Workload::of_parts(heap, &lock, 1, &[states])
    }

    // The workload to start from: one item, one code, and one type of one terminal state with operand 0.
    pub fn start(heap: Global) -> Result<Workload, AllocError>
        ensures { IfOk result (λ w. Single w (pos 0)) }
    {
        Workload::single(heap, 0)
    }
}
