// What each rule of a step does to the record and to the tallies.
use crate::checks::holds;
use crate::job_steps::shifts::{ADDING_STEPS, adding, idle, job_at, play};
use jobs::record::{JobRecord, StepAnswer};
use std::alloc::Global;
use std::process::Abort;
use std::test::Fail;

// The record of a job that adds 10, after so many of its steps, and the tallies then.
fn after(rt: &impl Abort, heap: Global, steps: usize) -> Result<(JobRecord, [i32; 3]), Fail> {
    let mut shift = adding(heap)?;
    let mut tallies = [0, 0, 0];
    assert_eq!(rt; shift.enter(0, 0, 10), Ok(()));
    play(
        rt,
        &mut shift,
        &mut tallies,
        0,
        &ADDING_STEPS[..steps.min(10)],
    );
    Ok((job_at(&shift, 0)?, tallies))
}

#[test]
fn a_new_job_has_its_argument_and_no_item(rt: HostRuntime) -> Result<(), Fail> {
    let (job, _) = after(&rt, rt.alloc(), 0)?;
    assert_eq!(rt; (job.job_type, job.state, job.register), (0, 0, 10));
    assert_eq!(rt;
        (job.worked, job.finished, job.awaited),
        (false, false, true)
    );
    assert!(rt; job.held.is_empty() && job.locked.is_empty() && job.done.is_empty());
    Ok(())
}

#[test]
fn a_release_takes_the_item_from_the_held_ones_alone(rt: HostRuntime) -> Result<(), Fail> {
    let (job, _) = after(&rt, rt.alloc(), 5)?;
    holds(&rt, job.held, &[0]);
    holds(&rt, job.locked, &[0, 1]);
    holds(&rt, job.done, &[1]);
    Ok(())
}

#[test]
fn a_work_changes_the_tally_and_the_register(rt: HostRuntime) -> Result<(), Fail> {
    let (before, untouched) = after(&rt, rt.alloc(), 2)?;
    assert_eq!(rt; (before.worked, before.register), (false, 10));
    assert_eq!(rt; untouched, [0, 0, 0]);
    let (job, tallies) = after(&rt, rt.alloc(), 3)?;
    assert_eq!(rt; (job.worked, job.register, job.state), (true, 0, 0));
    assert_eq!(rt; tallies, [0, 10, 0]);
    Ok(())
}

#[test]
fn a_lock_counts_as_held_and_as_locked(rt: HostRuntime) -> Result<(), Fail> {
    let (job, tallies) = after(&rt, rt.alloc(), 1)?;
    holds(&rt, job.held, &[0]);
    holds(&rt, job.locked, &[0]);
    assert!(rt; job.done.is_empty() && !job.worked);
    assert_eq!(rt; tallies, [0, 0, 0]);
    Ok(())
}

#[test]
fn the_way_on_makes_the_unlockable_items_done(rt: HostRuntime) -> Result<(), Fail> {
    let (job, _) = after(&rt, rt.alloc(), 4)?;
    assert_eq!(rt; (job.state, job.worked), (1, false));
    holds(&rt, job.done, &[1]);
    holds(&rt, job.held, &[0, 1]);
    Ok(())
}

#[test]
fn a_job_alone_from_its_first_step_to_its_last(rt: HostRuntime) -> Result<(), Fail> {
    let (last, _) = after(&rt, rt.alloc(), 9)?;
    assert!(rt; last.held.is_empty() && !last.finished);
    let (job, tallies) = after(&rt, rt.alloc(), 10)?;
    assert_eq!(rt; (job.finished, job.register), (true, 0));
    assert_eq!(rt; tallies, [0, 10, 0]);
    Ok(())
}

#[test]
fn a_wait_changes_nothing_and_names_the_holder(rt: HostRuntime) -> Result<(), Fail> {
    let mut shift = adding(rt.alloc())?;
    let mut tallies = [1, 2, 3];
    assert_eq!(rt; shift.enter(3, 0, 10), Ok(()));
    assert_eq!(rt; shift.enter(5, 0, 20), Ok(()));
    play(&rt, &mut shift, &mut tallies, 3, &ADDING_STEPS[..1]);
    let (holder, waiter) = (job_at(&shift, 3)?, job_at(&shift, 5)?);
    play(
        &rt,
        &mut shift,
        &mut tallies,
        5,
        &[StepAnswer::Waiting(0, 3)],
    );
    assert_eq!(rt; job_at(&shift, 3)?, holder);
    assert_eq!(rt; job_at(&shift, 5)?, waiter);
    assert_eq!(rt; tallies, [1, 2, 3]);
    play(&rt, &mut shift, &mut tallies, 3, &ADDING_STEPS[1..7]);
    play(&rt, &mut shift, &mut tallies, 5, &ADDING_STEPS[..5]);
    play(
        &rt,
        &mut shift,
        &mut tallies,
        5,
        &[StepAnswer::Waiting(2, 3)],
    );
    play(&rt, &mut shift, &mut tallies, 3, &ADDING_STEPS[7..]);
    play(&rt, &mut shift, &mut tallies, 5, &ADDING_STEPS[5..]);
    assert_eq!(rt; tallies, [1, 32, 3]);
    assert_eq!(rt;
        (job_at(&shift, 3)?.register, job_at(&shift, 5)?.register),
        (3, 3)
    );
    idle(&rt, &mut shift, &mut tallies, &[3]);
    Ok(())
}
