// Places: who comes in, who goes, and where no step is made.
use crate::job_steps::shifts::{ADDING_STEPS, adding, idle, is_empty, job_at, play};
use jobs::record::EnterError;
use std::test::Fail;

#[test]
fn a_job_enters_only_an_empty_place_and_with_a_known_type(rt: HostRuntime) -> Result<(), Fail> {
    let mut shift = adding(rt.alloc())?;
    assert_eq!(rt; shift.enter(16, 0, 1), Err(EnterError::NoSuchPlace));
    assert_eq!(rt; shift.enter(255, 0, 1), Err(EnterError::NoSuchPlace));
    assert_eq!(rt; shift.enter(0, 1, 1), Err(EnterError::NoSuchType));
    assert_eq!(rt; shift.enter(0, 255, 1), Err(EnterError::NoSuchType));
    assert!(rt; is_empty(&shift, 0) && is_empty(&shift, 15));
    assert_eq!(rt; shift.enter(15, 0, 1), Ok(()));
    assert_eq!(rt; shift.enter(0, 0, 2), Ok(()));
    assert_eq!(rt; shift.enter(15, 0, 3), Err(EnterError::PlaceTaken));
    assert_eq!(rt;
        (job_at(&shift, 0)?.register, job_at(&shift, 15)?.register),
        (2, 1)
    );
    assert!(rt; is_empty(&shift, 1) && is_empty(&shift, 16) && is_empty(&shift, 255));
    Ok(())
}

#[test]
fn no_step_without_an_unfinished_job(rt: HostRuntime) -> Result<(), Fail> {
    let mut shift = adding(rt.alloc())?;
    let mut tallies = [0, 0, 0];
    assert_eq!(rt; shift.enter(1, 0, 10), Ok(()));
    play(&rt, &mut shift, &mut tallies, 1, &ADDING_STEPS);
    let finished = job_at(&shift, 1)?;
    assert!(rt; finished.finished);
    idle(&rt, &mut shift, &mut tallies, &[0, 1, 15, 16, 255]);
    assert_eq!(rt; job_at(&shift, 1)?, finished);
    assert_eq!(rt; tallies, [0, 10, 0]);
    Ok(())
}

#[test]
fn a_job_that_nobody_awaits_empties_its_place(rt: HostRuntime) -> Result<(), Fail> {
    let mut shift = adding(rt.alloc())?;
    let mut tallies = [0, 0, 0];
    assert_eq!(rt; shift.enter(2, 0, 10), Ok(()));
    play(&rt, &mut shift, &mut tallies, 2, &ADDING_STEPS[..4]);
    shift.unawait(2);
    assert!(rt; !job_at(&shift, 2)?.awaited);
    play(&rt, &mut shift, &mut tallies, 2, &ADDING_STEPS[4..9]);
    assert!(rt; !is_empty(&shift, 2));
    play(&rt, &mut shift, &mut tallies, 2, &ADDING_STEPS[9..]);
    assert!(rt; is_empty(&shift, 2));
    assert_eq!(rt; tallies, [0, 10, 0]);
    assert_eq!(rt; shift.enter(2, 0, 1), Ok(()));
    Ok(())
}

#[test]
fn clear_empties_one_place(rt: HostRuntime) -> Result<(), Fail> {
    let mut shift = adding(rt.alloc())?;
    let mut tallies = [0, 0, 0];
    assert_eq!(rt; shift.enter(0, 0, 10), Ok(()));
    assert_eq!(rt; shift.enter(1, 0, 20), Ok(()));
    play(&rt, &mut shift, &mut tallies, 0, &ADDING_STEPS[..2]);
    shift.clear(16);
    shift.unawait(16);
    assert!(rt; !is_empty(&shift, 0) && job_at(&shift, 1)?.awaited);
    shift.clear(0);
    assert!(rt; is_empty(&shift, 0) && !is_empty(&shift, 1));
    play(&rt, &mut shift, &mut tallies, 1, &ADDING_STEPS);
    assert_eq!(rt; tallies, [0, 20, 0]);
    Ok(())
}
