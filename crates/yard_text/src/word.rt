// Words of the output.
ghost use Rattle.std.specs.Prelude.{◌≡◌, IfOk, Some, string_bytes};
ghost use Rattle.yard_text.specs.Words.{word_of_turn, word_of_end, word_bytes, line_bytes};

use jobs::record::StepAnswer;
use std::alloc::{AllocError, Global};
use std::fmt;
use table::answer::{Answer, Call};

// One word.
#[derive(Clone, Copy)]
pub enum Word {
    // the place of a step, and what it told
    Told(u8, StepAnswer),
    // the place of a begin or step, and the number of its refusal: a type of refusals here would ask more of who calls `text`
    Refused(u8, u8),
    // the register of a collected job
    Register(i32),
    // no register was collected
    Dash,
    // what an item shows
    Shown(i64),
    // the number of a refused file's fault, and its place: kept a number, since want of memory is a fault that has none
    File(u8, usize),
}

impl fmt::Display for Word {
    ghost output = { λ w. Some (word_bytes w) };

    fn fmt<W: fmt::Write>(&self, f: &mut fmt::Formatter<W>) -> fmt::Result {
        match *self {
            Word::Told(place, StepAnswer::Released(item)) => write!(f, "{place}R{item}"),
            Word::Told(place, StepAnswer::Worked(item)) => write!(f, "{place}W{item}"),
            Word::Told(place, StepAnswer::Locked(item)) => write!(f, "{place}L{item}"),
            Word::Told(place, StepAnswer::Waiting(item, holder)) => {
                write!(f, "{place}X{item}.{holder}")
            }
            Word::Told(place, StepAnswer::Gone(state)) => write!(f, "{place}G{state}"),
            Word::Told(place, StepAnswer::Finished) => write!(f, "{place}F"),
            Word::Refused(place, number) => write!(f, "{place}N{number}"),
            Word::Register(register) => write!(f, "{register}"),
            Word::Dash => write!(f, "-"),
            Word::Shown(number) => write!(f, "{number}"),
            Word::File(number, place) => write!(f, "N{number}.{place}"),
        }
    }
}

// The bytes of a word.
pub fn text(heap: Global, word: Word) -> Result<String, AllocError>
    ensures { IfOk result (λ s. string_bytes s ≡ word_bytes word) }
{
    format!(in heap; "{word}")
}

// A line of words: one blank parts them, and a line feed ends the line.
pub fn line(heap: Global, words: &[Word]) -> Result<String, AllocError>
    ensures { IfOk result (λ s. string_bytes s ≡ line_bytes words.now) }
{
    let mut bytes = String::new(heap);
    for (i, word) in words.iter().enumerate() {
        if i > 0 {
            bytes.push(' ')?;
        }
        bytes.push_str(text(heap, *word)?.as_str())?;
    }
    bytes.push('\n')?;
    Ok(bytes)
}

// The word of the first line for a call and its answer: for each step, and for a refused begin.
pub fn turn_word(call: Call, answer: Answer) -> Option<Word>
    ensures { result ≡ word_of_turn call answer }
{
    match (call, answer) {
        (Call::Step(place), Answer::Stepped(told)) => Some(Word::Told(place, told)),
        (Call::Step(place), Answer::Refused(why)) => Some(Word::Refused(place, why.number())),
        (Call::Begin(place, _, _), Answer::Refused(why)) => {
            Some(Word::Refused(place, why.number()))
        }
        _ => None,
    }
}

// The word of the second line for a call and its answer: for each collect.
pub fn end_word(call: Call, answer: Answer) -> Option<Word>
    ensures { result ≡ word_of_end call answer }
{
    match (call, answer) {
        (Call::Collect(_), Answer::Collected(register)) => Some(Word::Register(register)),
        (Call::Collect(_), _) => Some(Word::Dash),
        _ => None,
    }
}
