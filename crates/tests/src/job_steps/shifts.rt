// Shifts over workloads of one type, made from parent bytes and states, and scripts of their steps.
use crate::files::{state, workload_of};
use jobs::record::{JobRecord, StepAnswer};
use jobs::shift::Shift;
use kinds::tally::Tally;
use rules::state::State;
use std::alloc::Global;
use std::process::Abort;
use std::test::Fail;
use stores::row::RowStore;
use workload::fault::Fault;

// Sixteen empty places over the workload with four codes, this tree and one type of these states.
pub fn shift_of(heap: Global, parents: &[u8], states: &[State]) -> Result<Shift, Fault> {
    Ok(Shift::new(workload_of(heap, 4, parents, states)?))
}

// Two leaves below a root: a job adds its register to item 1 and then reads item 2.
pub fn adding(heap: Global) -> Result<Shift, Fault> {
    let nodes = [state(1, 2, 0, &[1]), state(2, 0, 0, &[])];
    shift_of(heap, &[255, 0, 0], &nodes)
}

// All steps of such a job that is alone.
pub const ADDING_STEPS: [StepAnswer; 10] = [
    StepAnswer::Locked(0),
    StepAnswer::Locked(1),
    StepAnswer::Worked(1),
    StepAnswer::Gone(1),
    StepAnswer::Released(1),
    StepAnswer::Locked(2),
    StepAnswer::Released(0),
    StepAnswer::Worked(2),
    StepAnswer::Released(2),
    StepAnswer::Finished,
];

// The job at the place makes these steps over a row of tallies.
pub fn play(
    rt: &impl Abort,
    shift: &mut Shift,
    tallies: &mut [i32],
    place: u8,
    steps: &[StepAnswer],
) {
    let mut store = RowStore::<Tally>::new(tallies);
    for step in steps {
        assert_eq!(rt;
            shift.step::<Tally, RowStore<Tally>>(&mut store, place),
            Some(*step)
        );
    }
}

// That there is no step at any of the places.
pub fn idle(rt: &impl Abort, shift: &mut Shift, tallies: &mut [i32], places: &[u8]) {
    let mut store = RowStore::<Tally>::new(tallies);
    for place in places {
        assert_eq!(rt;
            shift.step::<Tally, RowStore<Tally>>(&mut store, *place),
            None
        );
    }
}

// The job at a place.
pub fn job_at(shift: &Shift, place: u8) -> Result<JobRecord, Fail> {
    Ok(shift.at(place).ok_or("no job")?)
}

pub fn is_empty(shift: &Shift, place: u8) -> bool {
    shift.at(place).is_none()
}
