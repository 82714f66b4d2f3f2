// Files to read, laid out by hand, and the workloads that they hold.
use rules::state::State;
use std::alloc::{AllocError, Global};
use workload::definition::Workload;
use workload::fault::Fault;
use workload::file::load;

// One item, four codes, one type of one state (item 0, code 1, operand 5, terminal) and no note.
pub const SMALL: &[u8] = b"TLW\0\x01\x01\x01\x04\xff\x01\0\x01\0\0\0\x05\0\0\0\0\0\0\0";

// What a file says: its number of codes, its parents, how many types it has, the states of each of them, and its note.
#[derive(Clone, Copy)]
pub struct Parts<'a> {
    pub codes: u8,
    pub parents: &'a [u8],
    pub types: u8,
    pub states: &'a [State],
    pub note: &'a [u8],
}

// A state with these arcs, of which the first four count.
pub fn state(item: u8, code: u8, operand: i32, arcs: &[u8]) -> State {
    let mut bytes = [0; 4];
    for (byte, arc) in bytes.iter_mut().zip(arcs) {
        *byte = *arc;
    }
    State {
        item,
        code,
        operand,
        arc_count: arcs.len().min(4) as u8,
        arcs: bytes,
    }
}

fn push_record(file: &mut Vec<u8>, state: State) -> Result<(), AllocError> {
    let [o0, o1, o2, o3] = state.operand.to_be_bytes();
    let [a0, a1, a2, a3] = state.arcs;
    let count = state.arc_count;
    file.extend_from_slice(&[
        state.item, state.code, o0, o1, o2, o3, count, a0, a1, a2, a3,
    ])
}

fn push_type(file: &mut Vec<u8>, states: &[State]) -> Result<(), AllocError> {
    file.push(states.len().min(255) as u8)?;
    for state in states {
        push_record(file, *state)?;
    }
    Ok(())
}

// The file that has these parts.
pub fn file(heap: Global, parts: Parts<'_>) -> Result<Vec<u8>, AllocError> {
    let items = parts.parents.len().min(255) as u8;
    let note = parts.note.len().min(65_535) as u16;
    let mut bytes = [b'T', b'L', b'W', 0, 1, items, parts.types, parts.codes].to_vec(heap)?;
    bytes.extend_from_slice(parts.parents)?;
    for _ in 0..parts.types {
        push_type(&mut bytes, parts.states)?;
    }
    bytes.extend_from_slice(&note.to_be_bytes())?;
    bytes.extend_from_slice(parts.note)?;
    Ok(bytes)
}

// The workload that a file holds.
pub fn loaded(heap: Global, file: &[u8]) -> Result<Workload, Fault> {
    let (workload, _span) = load(heap, file)?;
    Ok(workload)
}

// A workload of one type, with no note.
pub fn workload_of(
    heap: Global,
    codes: u8,
    parents: &[u8],
    states: &[State],
) -> Result<Workload, Fault> {
    let parts = Parts {
        codes,
        parents,
        types: 1,
        states,
        note: &[],
    };
    loaded(heap, file(heap, parts)?.as_slice())
}

// The parents of a chain of items: each one's parent is the one before it.
pub fn chain(heap: Global, items: u8) -> Result<Vec<u8>, AllocError> {
    let mut parents = [255].to_vec(heap)?;
    for item in 1..items {
        parents.push(item - 1)?;
    }
    Ok(parents)
}
