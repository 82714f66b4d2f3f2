// The calls that the input asks for.
ghost use Rattle.std.specs.Prelude.{◌++◌, IfOk, OnOk};
ghost use Rattle.yard_text.specs.Input.{Asks, Begins, collects};
ghost use Rattle.yard_text.specs.Reading.{AddsSteps, NamesArgument, NamesDigit, NamesLine, NamesNumber, CutsOnce};

use std::alloc::{AllocError, Global};
use table::answer::Call;

// The job type and the argument of a begin line.
#[derive(Clone, Copy)]
struct Begin {
    job_type: u8,
    argument: i32,
}

// The value of a decimal digit. `char::to_digit` is no plainer: it would want a `char` and answer a `u32`.
fn digit(byte: u8) -> Option<u8>
    ensures { NamesDigit byte result }
{
    match byte {
        b'0'..=b'9' => Some(byte - b'0'),
        _ => None,
    }
}

// What stands before the byte's first place and what stands after it.
fn split_once(bytes: &[u8], byte: u8) -> Option<(&[u8], &[u8])>
    ensures { CutsOnce bytes.now byte result }
{
    let at = bytes.iter().position(|&b| b == byte)?;
    Some((&bytes[..at], &bytes[at + 1..]))
}

// The number that the word's digits write, if it fits.
fn number(word: &[u8]) -> Option<u32>
    ensures { NamesNumber word.now u32.MAX result }
{
    if word.is_empty() {
        return None;
    }
    let mut value = 0u32;
    for &byte in word {
        let next = digit(byte)?;
        value = value.checked_mul(10)?.checked_add(u32::from(next))?;
    }
    Some(value)
}

// The argument that a word writes.
fn argument(word: &[u8]) -> Option<i32>
    ensures { NamesArgument word.now result }
{
    match word {
        [b'-', digits @ ..] => 0i32.checked_sub_unsigned(number(digits)?),
        digits => 0i32.checked_add_unsigned(number(digits)?),
    }
}

// The begin line at the front, and what follows it.
fn begin_line(bytes: &[u8]) -> Option<(Begin, &[u8])>
    ensures { NamesLine bytes.now result }
{
    let (line, rest) = split_once(bytes, b'\n')?;
    let (job_type, word) = split_once(line, b' ')?;
    let begin = Begin {
        job_type: u8::try_from(number(job_type)?).ok()?,
        argument: argument(word)?,
    };
    Some((begin, rest))
}

// The begins of the lines at the front, and what follows these lines.
fn begins(heap: Global, bytes: &[u8]) -> Result<(Vec<Call>, &[u8]), AllocError>
    ensures { IfOk result (λ r. Begins 0 bytes.now r.0.items r.1.now) }
{
    let mut calls = Vec::new(heap);
    let mut rest = bytes;
    for place in 0..3 {
        let Some((begin, after)) = begin_line(rest) else {
            break;
        };
        calls.push(Call::Begin(place, begin.job_type, begin.argument))?;
        rest = after;
    }
    Ok((calls, rest))
}

// Adds a step for each digit at the front.
fn push_steps(calls: &mut Vec<Call>, bytes: &[u8]) -> Result<(), AllocError>
    ensures { OnOk result (AddsSteps bytes.now calls.old.items calls.new.items) }
{
    for &byte in bytes {
        let Some(place) = digit(byte) else {
            break;
        };
        calls.push(Call::Step(place))?;
    }
    Ok(())
}

// The begins and the steps that the input asks for: with the three collects, its calls.
fn turns(heap: Global, bytes: &[u8]) -> Result<Vec<Call>, AllocError>
    ensures { IfOk result (λ v. Asks bytes.now (v.items ++ collects)) }
{
    let (mut calls, rest) = begins(heap, bytes)?;
    if calls.len() == 3 {
        push_steps(&mut calls, rest)?;
    }
    Ok(calls)
}

// The calls that the input asks for: begins at the places 0 to 2, steps, and a collect at each of these places.
pub fn asked(heap: Global, bytes: &[u8]) -> Result<Vec<Call>, AllocError>
    ensures { IfOk result (λ v. Asks bytes.now v.items) }
{
    let mut calls = turns(heap, bytes)?;
    calls.extend_from_slice(&[Call::Collect(0), Call::Collect(1), Call::Collect(2)])?;
    Ok(calls)
}
