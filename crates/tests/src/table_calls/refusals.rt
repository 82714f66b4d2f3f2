// Every refusal of a call, and which comes first.
use crate::table_calls::tables::answers;
use jobs::record::StepAnswer;
use kinds::tally::Tally;
use std::test::Fail;
use table::answer::{Answer, Call, Refusal};

#[test]
fn each_call_is_refused_by_its_first_reason(rt: HostRuntime) -> Result<(), Fail> {
    let calls = [
        Call::Begin(16, 3, 0),
        Call::Begin(15, 3, 0),
        Call::Begin(15, 1, 0),
        Call::Begin(15, 1, 0),
        Call::Step(16),
        Call::Step(14),
        Call::Collect(14),
        Call::Leave(14),
        Call::Collect(16),
        Call::Collect(15),
    ];
    let right = [
        Answer::Refused(Refusal::NoSuchPlace),
        Answer::Refused(Refusal::NoSuchType),
        Answer::Began,
        Answer::Refused(Refusal::PlaceTaken),
        Answer::Refused(Refusal::NoSuchPlace),
        Answer::Refused(Refusal::NoJob),
        Answer::Refused(Refusal::NotAwaited),
        Answer::Refused(Refusal::NotAwaited),
        Answer::Refused(Refusal::NotAwaited),
        Answer::Refused(Refusal::NotFinished),
    ];
    let told = answers::<Tally>(rt.alloc(), &mut [0, 0, 0], &calls)?;
    assert_eq!(rt; told.as_slice(), right.as_slice());
    Ok(())
}

#[test]
fn a_short_store_fits_no_job(rt: HostRuntime) -> Result<(), Fail> {
    let calls = [Call::Begin(16, 3, 0), Call::Begin(0, 1, 0), Call::Step(0)];
    let right = [
        Answer::Refused(Refusal::Misfit),
        Answer::Refused(Refusal::Misfit),
        Answer::Refused(Refusal::NoJob),
    ];
    let told = answers::<Tally>(rt.alloc(), &mut [0, 0], &calls)?;
    assert_eq!(rt; told.as_slice(), right.as_slice());
    Ok(())
}

// A job that is left goes on, its place empties with its last step, and another can begin there.
#[test]
fn a_left_job_goes_on(rt: HostRuntime) -> Result<(), Fail> {
    let calls = [
        Call::Begin(4, 2, 5),
        Call::Leave(4),
        Call::Leave(4),
        Call::Collect(4),
        Call::Step(4),
        Call::Step(4),
        Call::Step(4),
        Call::Begin(4, 2, 5),
        Call::Step(4),
        Call::Step(4),
        Call::Begin(4, 2, 5),
    ];
    let right = [
        Answer::Began,
        Answer::Left,
        Answer::Refused(Refusal::NotAwaited),
        Answer::Refused(Refusal::NotAwaited),
        Answer::Stepped(StepAnswer::Locked(2)),
        Answer::Stepped(StepAnswer::Worked(2)),
        Answer::Stepped(StepAnswer::Released(2)),
        Answer::Refused(Refusal::PlaceTaken),
        Answer::Stepped(StepAnswer::Finished),
        Answer::Refused(Refusal::NoJob),
        Answer::Began,
    ];
    let mut tallies = [0, 0, 3];
    let told = answers::<Tally>(rt.alloc(), &mut tallies, &calls)?;
    assert_eq!(rt; told.as_slice(), right.as_slice());
    assert_eq!(rt; tallies, [0, 0, 8]);
    Ok(())
}

#[test]
fn refusals_have_their_numbers(rt: HostRuntime) {
    assert_eq!(rt; Refusal::Misfit.number(), 8);
    assert_eq!(rt; Refusal::NoSuchPlace.number(), 10);
    assert_eq!(rt; Refusal::NoSuchType.number(), 11);
    assert_eq!(rt; Refusal::PlaceTaken.number(), 12);
    assert_eq!(rt; Refusal::NoJob.number(), 13);
    assert_eq!(rt; Refusal::NotAwaited.number(), 14);
    assert_eq!(rt; Refusal::NotFinished.number(), 15);
}
