// Calls and answers as plain data, and back.
ghost use Rattle.std.specs.Prelude.{◌≡◌, ◌≤◌, pos, map, take, length, IfOk};
ghost use Rattle.exports.specs.Plain.{call_of, plain, plain_answer, plain_told, slot_of};

use jobs::record::StepAnswer;
use kinds::slot::Slot;
use std::alloc::{AllocError, Global};
use table::answer::{Answer, Call};

// A call: of kind 0 it begins a job, of 1 it steps, of 2 it collects, and of any other it leaves.
// Type and argument count where it begins.
#[repr(C)]
#[derive(Clone, Copy)]
pub struct PlainCall {
    pub kind: u8,
    pub place: u8,
    pub job_type: u8,
    pub argument: i32,
}

// An answer: began 0, released 1, worked 2, locked 3, waiting 4, gone 5, finished 6, collected 7, left 8, refused 9.
// First comes the item, the state or the number of the refusal, second the place of a holder; the rest is 0.
#[repr(C)]
#[derive(Clone, Copy)]
pub struct PlainAnswer {
    pub kind: u8,
    pub first: u8,
    pub second: u8,
    pub register: i32,
}

// A berth slot: whether it is held, and then the container's number.
#[repr(C)]
#[derive(Clone, Copy)]
pub struct PlainSlot {
    pub held: bool,
    pub number: i32,
}

// The call that a plain one stands for.
fn call(plain: PlainCall) -> Call
    ensures { result ≡ call_of plain }
{
    match plain.kind {
        0 => Call::Begin(plain.place, plain.job_type, plain.argument),
        1 => Call::Step(plain.place),
        2 => Call::Collect(plain.place),
        _ => Call::Leave(plain.place),
    }
}

// An answer that tells a number or two.
fn numbers(kind: u8, first: u8, second: u8) -> PlainAnswer
    ensures { result ≡ plain kind first second (pos 0) }
{
    PlainAnswer {
        kind,
        first,
        second,
        register: 0,
    }
}

// What a step told.
fn told(told: StepAnswer) -> PlainAnswer
    ensures { result ≡ plain_told told }
{
    match told {
        StepAnswer::Released(item) => numbers(1, item, 0),
        StepAnswer::Worked(item) => numbers(2, item, 0),
        StepAnswer::Locked(item) => numbers(3, item, 0),
        StepAnswer::Waiting(item, holder) => numbers(4, item, holder),
        StepAnswer::Gone(state) => numbers(5, state, 0),
        StepAnswer::Finished => numbers(6, 0, 0),
    }
}

fn answer(answer: Answer) -> PlainAnswer
    ensures { result ≡ plain_answer answer }
{
    match answer {
        Answer::Began => numbers(0, 0, 0),
        Answer::Stepped(step) => told(step),
        Answer::Collected(register) => PlainAnswer {
            register,
            ..numbers(7, 0, 0)
        },
        Answer::Left => numbers(8, 0, 0),
        Answer::Refused(why) => numbers(9, why.number(), 0),
    }
}

// The calls that a row of plain ones stands for.
pub(crate) fn calls(heap: Global, plain: &[PlainCall]) -> Result<Vec<Call>, AllocError>
    ensures { IfOk result (λ v. v.items ≡ map call_of plain.now) }
{
    let mut calls = Vec::with_capacity(heap, plain.len())?;
    for &one in plain {
        calls.push(call(one))?;
    }
    Ok(calls)
}

// The slot that a plain one stands for.
fn slot(plain: PlainSlot) -> Slot
    ensures { result ≡ slot_of plain }
{
    if plain.held {
        Slot::Held(plain.number)
    } else {
        Slot::Free
    }
}

// The slots that a row of plain ones stands for.
pub(crate) fn slots(heap: Global, plain: &[PlainSlot]) -> Result<Vec<Slot>, AllocError>
    ensures { IfOk result (λ v. v.items ≡ map slot_of plain.now) }
{
    let mut slots = Vec::with_capacity(heap, plain.len())?;
    for &one in plain {
        slots.push(slot(one))?;
    }
    Ok(slots)
}

// Puts answers at the front of the caller's row, which has room for all.
pub(crate) fn put_answers(answers: &[Answer], row: &mut [PlainAnswer])
    requires { length answers.now ≤ length row.now }
    ensures { take (length answers.now) row.new ≡ map plain_answer answers.now }
{
    for (i, &one) in answers.iter().enumerate() {
        row[i] = answer(one);
    }
}

// Puts the numbers that items show at the front of the caller's row, which has room for all.
pub(crate) fn put_shown(shown: &[i64], row: &mut [i64])
    requires { length shown.now ≤ length row.now }
    ensures { take (length shown.now) row.new ≡ shown.now }
{
    row[..shown.len()].copy_from_slice(shown);
}
