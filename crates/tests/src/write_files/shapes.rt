// Files of several shapes, and buffers to write them into.
use crate::files::{Parts, file as file_of, state};
use rules::state::State;
use std::alloc::{AllocError, Global};

// The byte that a buffer is filled with before it is written to.
pub const FILL: u8 = 0xaa;

// How much a file has of what.
#[derive(Clone, Copy)]
pub struct Shape {
    pub items: u8,
    pub types: u8,
    pub states: u8,
    pub note: u16,
}

pub const LARGEST: Shape = Shape {
    items: 64,
    types: 8,
    states: 32,
    note: 1000,
};

// Both ends of the range of operands, and numbers in between.
fn operand(state: u8) -> i32 {
    match state % 4 {
        0 => i32::MIN,
        1 => i32::MAX,
        2 => -1,
        _ => 7,
    }
}

// The last state is terminal; each other one leads to the next, to state 0, to itself and to the last.
fn braided(heap: Global, items: u8, states: u8) -> Result<Vec<State>, AllocError> {
    let last = states.saturating_sub(1);
    let mut row = Vec::new(heap);
    for s in 0..last {
        row.push(state(s % items.max(1), s, operand(s), &[s + 1, 0, s, last]))?;
    }
    row.push(state(last % items.max(1), last, operand(last), &[]))?;
    Ok(row)
}

// The parent of each item is the next one, and the last item is the root.
fn parents(heap: Global, items: u8) -> Result<Vec<u8>, AllocError> {
    let mut row = Vec::new(heap);
    for parent in 1..items {
        row.push(parent)?;
    }
    row.push(255)?;
    Ok(row)
}

// A note with bytes of every value, if it is long enough.
pub fn text(heap: Global, length: u16) -> Result<Vec<u8>, AllocError> {
    let mut note = Vec::new(heap);
    for i in 0..length {
        note.push((i % 256) as u8)?;
    }
    Ok(note)
}

// The file of a shape, with 255 codes.
pub fn file(heap: Global, shape: Shape) -> Result<Vec<u8>, AllocError> {
    let parents = parents(heap, shape.items)?;
    let states = braided(heap, shape.items, shape.states)?;
    let note = text(heap, shape.note)?;
    let parts = Parts {
        codes: 255,
        parents: parents.as_slice(),
        types: shape.types,
        states: states.as_slice(),
        note: note.as_slice(),
    };
    file_of(heap, parts)
}

pub fn filled(heap: Global, length: usize) -> Result<Vec<u8>, AllocError> {
    vec![in heap; FILL; length]
}
