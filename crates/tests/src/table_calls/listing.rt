// Three jobs by turns, of which only one serial order explains the result: the third, the first, the second.
use crate::table_calls::tables::{add_and_read, answers};
use jobs::record::StepAnswer;
use kinds::tally::Tally;
use std::test::Fail;
use table::answer::{Answer, Call};
use table::rows::run_row;

const CALLS: [Call; 24] = [
    Call::Begin(0, 0, 10),
    Call::Begin(1, 1, 0),
    Call::Begin(2, 2, 7),
    Call::Step(0),
    Call::Step(0),
    Call::Step(0),
    Call::Step(0),
    Call::Step(0),
    Call::Step(1),
    Call::Step(1),
    Call::Step(1),
    Call::Step(1),
    Call::Step(2),
    Call::Step(2),
    Call::Step(2),
    Call::Step(2),
    Call::Step(0),
    Call::Step(0),
    Call::Step(0),
    Call::Step(0),
    Call::Step(0),
    Call::Collect(0),
    Call::Collect(1),
    Call::Collect(2),
];

const ANSWERS: [Answer; 24] = [
    Answer::Began,
    Answer::Began,
    Answer::Began,
    Answer::Stepped(StepAnswer::Locked(0)),
    Answer::Stepped(StepAnswer::Locked(1)),
    Answer::Stepped(StepAnswer::Worked(1)),
    Answer::Stepped(StepAnswer::Gone(1)),
    Answer::Stepped(StepAnswer::Released(1)),
    Answer::Stepped(StepAnswer::Locked(1)),
    Answer::Stepped(StepAnswer::Worked(1)),
    Answer::Stepped(StepAnswer::Released(1)),
    Answer::Stepped(StepAnswer::Finished),
    Answer::Stepped(StepAnswer::Locked(2)),
    Answer::Stepped(StepAnswer::Worked(2)),
    Answer::Stepped(StepAnswer::Released(2)),
    Answer::Stepped(StepAnswer::Finished),
    Answer::Stepped(StepAnswer::Locked(2)),
    Answer::Stepped(StepAnswer::Released(0)),
    Answer::Stepped(StepAnswer::Worked(2)),
    Answer::Stepped(StepAnswer::Released(2)),
    Answer::Stepped(StepAnswer::Finished),
    Answer::Collected(7),
    Answer::Collected(10),
    Answer::Collected(0),
];

#[test]
fn three_jobs_by_turns(rt: HostRuntime) -> Result<(), Fail> {
    let mut tallies = [0, 0, 0];
    let told = answers::<Tally>(rt.alloc(), &mut tallies, &CALLS)?;
    assert_eq!(rt; told.as_slice(), ANSWERS.as_slice());
    assert_eq!(rt; tallies, [0, 10, 7]);
    Ok(())
}

// The same over the row itself: answers and shown numbers come back as plain data.
#[test]
fn three_jobs_over_a_row(rt: HostRuntime) -> Result<(), Fail> {
    let mut tallies = [0, 0, 0];
    let workload = add_and_read(rt.alloc())?;
    let outcome = run_row::<Tally>(&mut tallies, workload, rt.alloc(), &CALLS)?;
    assert_eq!(rt; outcome.answers.as_slice(), ANSWERS.as_slice());
    assert_eq!(rt; outcome.shown.as_slice(), [0i64, 10, 7].as_slice());
    assert_eq!(rt; tallies, [0, 10, 7]);
    Ok(())
}

// No call changes nothing, and the items still show.
#[test]
fn no_calls_over_a_row(rt: HostRuntime) -> Result<(), Fail> {
    let mut tallies = [4, -5, 6];
    let workload = add_and_read(rt.alloc())?;
    let outcome = run_row::<Tally>(&mut tallies, workload, rt.alloc(), &[])?;
    assert!(rt; outcome.answers.is_empty());
    assert_eq!(rt; outcome.shown.as_slice(), [4i64, -5, 6].as_slice());
    assert_eq!(rt; tallies, [4, -5, 6]);
    Ok(())
}
