// All that the program prints.
ghost use Rattle.std.specs.Prelude.{◌≡◌, IfOk, string_bytes};
ghost use Rattle.yard_text.specs.Report.{Prints, RunsTo, refused_line, end_words, shown_words, three_lines, turn_words, zeros};

use crate::input::asked;
use crate::word::{Word, end_word, line, turn_word};
use kinds::kind::Kind;
use kinds::tally::Tally;
use std::alloc::{AllocError, Global};
use table::answer::{Answer, Call};
use table::rows::{Outcome, run_row};
use workload::definition::Workload;
use workload::fault::Fault;
use workload::file::load;

// The line of a refused file. Want of memory is no fault of the file, and has no line.
fn refused(heap: Global, fault: Fault) -> Result<String, AllocError>
    ensures { IfOk result (λ s. refused_line fault (string_bytes s)) }
{
    let (number, place) = fault.number_and_place().ok_or(AllocError)?;
    line(heap, &[Word::File(number, place)])
}

// The words of the first line: refused begins and steps.
fn turn_words(heap: Global, calls: &[Call], answers: &[Answer]) -> Result<Vec<Word>, AllocError>
    ensures { IfOk result (λ v. v.items ≡ turn_words calls.now answers.now) }
{
    let told = calls.iter().copied().zip(answers.iter().copied());
    told.filter_map(|(call, answer)| turn_word(call, answer))
        .collect(heap)
}

// The words of the second line: what the collects answered.
fn end_words(heap: Global, calls: &[Call], answers: &[Answer]) -> Result<Vec<Word>, AllocError>
    ensures { IfOk result (λ v. v.items ≡ end_words calls.now answers.now) }
{
    let told = calls.iter().copied().zip(answers.iter().copied());
    told.filter_map(|(call, answer)| end_word(call, answer))
        .collect(heap)
}

// The words of the third line: what the items show.
fn shown_words(heap: Global, shown: &[i64]) -> Result<Vec<Word>, AllocError>
    ensures { IfOk result (λ v. v.items ≡ shown_words shown.now) }
{
    shown
        .iter()
        .map(|number| Word::Shown(*number))
        .collect(heap)
}

// The three lines of a run.
fn lines(heap: Global, calls: &[Call], outcome: &Outcome) -> Result<String, AllocError>
    ensures { IfOk result (λ s. string_bytes s ≡ three_lines calls.now outcome.now) }
{
    let turns = turn_words(heap, calls, outcome.answers.as_slice())?;
    let ends = end_words(heap, calls, outcome.answers.as_slice())?;
    let shown = shown_words(heap, outcome.shown.as_slice())?;
    let mut text = line(heap, turns.as_slice())?;
    text.push_str(line(heap, ends.as_slice())?.as_str())?;
    text.push_str(line(heap, shown.as_slice())?.as_str())?;
    Ok(text)
}

// A tally of 0 for each item.
fn zeros(heap: Global, workload: &Workload) -> Result<Vec<i32>, AllocError>
    ensures { IfOk result (λ v. v.items ≡ zeros workload.now) }
{
    vec![in heap; 0; workload.item_count() as usize]
}

// Runs the calls that the input asks for, over the tallies.
fn ran(heap: Global, workload: Workload, input: &[u8]) -> Result<String, AllocError>
    ensures { IfOk result (λ s. RunsTo ⟦<Tally as Kind>⟧ workload input.now (string_bytes s)) }
{
    let calls = asked(heap, input)?;
    let mut tallies = zeros(heap, &workload)?;
    let outcome = run_row::<Tally>(tallies.as_mut_slice(), workload, heap, calls.as_slice())?;
    lines(heap, calls.as_slice(), &outcome)
}

// What the program prints for a file and an input.
pub fn report(heap: Global, file: &[u8], input: &[u8]) -> Result<String, AllocError>
    ensures { IfOk result (λ s. Prints ⟦<Tally as Kind>⟧ file.now input.now (string_bytes s)) }
{
    match load(heap, file) {
        Ok((workload, _span)) => ran(heap, workload, input),
        Err(fault) => refused(heap, fault),
    }
}
