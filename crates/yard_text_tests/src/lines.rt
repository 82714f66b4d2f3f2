// Words, and the lines that they make.
use jobs::record::StepAnswer;
use std::alloc::Global;
use std::process::Abort;
use std::test::Fail;
use table::answer::{Answer, Call, Refusal};
use yard_text::word::{Word, end_word, line, text, turn_word};

#[test]
fn told_refused_and_collected(rt: HostRuntime) -> Result<(), Fail> {
    let words = [
        Word::Told(0, StepAnswer::Locked(0)),
        Word::Told(1, StepAnswer::Waiting(2, 0)),
        Word::Refused(1, 12),
        Word::Dash,
        Word::Register(-1),
    ];
    assert_eq!(rt; line(rt.alloc(), &words)?.as_str(), "0L0 1X2.0 1N12 - -1\n");
    assert_eq!(rt; line(rt.alloc(), &[])?.as_str(), "\n");
    Ok(())
}

#[test]
fn other_steps_numbers_and_faults(rt: HostRuntime) -> Result<(), Fail> {
    let words = [
        Word::Told(2, StepAnswer::Released(255)),
        Word::Told(0, StepAnswer::Worked(31)),
        Word::Told(15, StepAnswer::Gone(4)),
        Word::Told(2, StepAnswer::Finished),
        Word::Shown(4_294_967_296),
        Word::File(7, 61),
    ];
    assert_eq!(rt;
        line(rt.alloc(), &words)?.as_str(),
        "2R255 0W31 15G4 2F 4294967296 N7.61\n"
    );
    Ok(())
}

// The word's text, or a mark where there is no word.
fn shown(heap: Global, word: Option<Word>) -> Result<String, Fail> {
    let text = match word {
        Some(word) => text(heap, word)?,
        None => String::from_str(heap, "none")?,
    };
    Ok(text)
}

// That the call and its answer have these words in the first and in the second line.
fn told(
    rt: &impl Abort,
    heap: Global,
    pair: (Call, Answer),
    first: &str,
    second: &str,
) -> Result<(), Fail> {
    let (call, answer) = pair;
    assert_eq!(rt; shown(heap, turn_word(call, answer))?.as_str(), first);
    assert_eq!(rt; shown(heap, end_word(call, answer))?.as_str(), second);
    Ok(())
}

#[test]
fn words_of_calls(rt: HostRuntime) -> Result<(), Fail> {
    let heap = rt.alloc();
    let worked = Answer::Stepped(StepAnswer::Worked(3));
    let taken = Answer::Refused(Refusal::PlaceTaken);
    let absent = Answer::Refused(Refusal::NoJob);
    let early = Answer::Refused(Refusal::NotFinished);
    told(
        &rt,
        heap,
        (Call::Begin(0, 1, 2), Answer::Began),
        "none",
        "none",
    )?;
    told(&rt, heap, (Call::Begin(2, 1, 2), taken), "2N12", "none")?;
    told(&rt, heap, (Call::Step(1), worked), "1W3", "none")?;
    told(&rt, heap, (Call::Step(9), absent), "9N13", "none")?;
    told(
        &rt,
        heap,
        (Call::Collect(0), Answer::Collected(-17)),
        "none",
        "-17",
    )?;
    told(&rt, heap, (Call::Collect(1), early), "none", "-")?;
    told(&rt, heap, (Call::Leave(1), Answer::Left), "none", "none")
}
