// Which rule comes first, and which arc is taken.
use crate::checks::holds;
use crate::files::state;
use crate::job_steps::shifts::{job_at, play, shift_of};
use jobs::record::StepAnswer;
use std::test::Fail;

// Item 1 of the chain is only passed: it goes as soon as item 2 is locked, before the work there.
#[test]
fn a_release_comes_before_the_work(rt: HostRuntime) -> Result<(), Fail> {
    let nodes = [state(2, 1, 7, &[1]), state(0, 3, 5, &[])];
    let mut shift = shift_of(rt.alloc(), &[255, 0, 1], &nodes)?;
    let mut tallies = [4, 0, -9];
    assert_eq!(rt; shift.enter(15, 0, 0), Ok(()));
    let steps = [
        StepAnswer::Locked(0),
        StepAnswer::Locked(1),
        StepAnswer::Locked(2),
        StepAnswer::Released(1),
        StepAnswer::Worked(2),
        StepAnswer::Gone(1),
        StepAnswer::Released(2),
        StepAnswer::Worked(0),
        StepAnswer::Released(0),
        StepAnswer::Finished,
    ];
    play(&rt, &mut shift, &mut tallies, 15, &steps);
    assert_eq!(rt; tallies, [4, 0, -2]);
    assert_eq!(rt; job_at(&shift, 15)?.register, -1);
    Ok(())
}

// The way past state 1 leaves item 1 held and not done, and item 2 done though it was never locked.
#[test]
fn all_releases_come_before_the_end(rt: HostRuntime) -> Result<(), Fail> {
    let nodes = [
        state(1, 0, 0, &[1, 2]),
        state(2, 0, 0, &[2]),
        state(3, 1, 6, &[]),
    ];
    let mut shift = shift_of(rt.alloc(), &[255, 0, 0, 0], &nodes)?;
    let mut tallies = [0, 1, 0, 8];
    assert_eq!(rt; shift.enter(0, 0, 0), Ok(()));
    let to_work = [
        StepAnswer::Locked(0),
        StepAnswer::Locked(1),
        StepAnswer::Worked(1),
        StepAnswer::Gone(2),
        StepAnswer::Locked(3),
        StepAnswer::Released(0),
        StepAnswer::Worked(3),
    ];
    play(&rt, &mut shift, &mut tallies, 0, &to_work);
    let job = job_at(&shift, 0)?;
    holds(&rt, job.held, &[1, 3]);
    holds(&rt, job.done, &[2]);
    let to_end = [
        StepAnswer::Released(1),
        StepAnswer::Released(3),
        StepAnswer::Finished,
    ];
    play(&rt, &mut shift, &mut tallies, 0, &to_end);
    assert_eq!(rt; tallies, [0, 1, 0, 14]);
    assert_eq!(rt; job_at(&shift, 0)?.register, 14);
    Ok(())
}

// A register, and the state to which it leads.
#[derive(Clone, Copy)]
struct Turn(i32, u8);

#[test]
fn the_register_is_raised_and_cut_to_the_arcs(rt: HostRuntime) -> Result<(), Fail> {
    let nodes = [
        state(0, 0, 0, &[3, 1, 2]),
        state(0, 0, 0, &[]),
        state(0, 0, 0, &[]),
        state(0, 0, 0, &[]),
    ];
    let mut shift = shift_of(rt.alloc(), &[255], &nodes)?;
    let turns = [
        Turn(i32::MIN, 3),
        Turn(-1, 3),
        Turn(0, 3),
        Turn(1, 1),
        Turn(2, 2),
        Turn(3, 2),
        Turn(256, 2),
        Turn(i32::MAX, 2),
    ];
    for turn in &turns {
        let Turn(register, state) = *turn;
        assert_eq!(rt; shift.enter(0, 0, 0), Ok(()));
        let steps = [
            StepAnswer::Locked(0),
            StepAnswer::Worked(0),
            StepAnswer::Gone(state),
        ];
        play(&rt, &mut shift, &mut [register], 0, &steps);
        assert_eq!(rt; job_at(&shift, 0)?.register, register);
        shift.clear(0);
    }
    Ok(())
}
