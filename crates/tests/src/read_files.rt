// What reading tells of each file.
use crate::files::{Parts, SMALL, chain, file, state};
use rules::state::State;
use std::alloc::{AllocError, Global};
use std::test::Fail;
use workload::definition::Workload;
use workload::fault::Fault;
use workload::file::{NoteSpan, load, note, read};

// The states of a type that each lead to the next, over a chain of items.
fn chained(heap: Global, items: u8, states: u8) -> Result<Vec<State>, AllocError> {
    let mut row = Vec::new(heap);
    for s in 1..states {
        row.push(state((s - 1) % items.max(1), 0, 0, &[s]))?;
    }
    row.push(state(states.saturating_sub(1) % items.max(1), 0, 0, &[]))?;
    Ok(row)
}

// A file with a chain of items and types of states that each lead to the next, and a note of zeros.
fn chains(
    heap: Global,
    items: u8,
    types: u8,
    states: u8,
    note: usize,
) -> Result<Vec<u8>, AllocError> {
    let parents = chain(heap, items)?;
    let states = chained(heap, items, states)?;
    let note = vec![in heap; 0; note]?;
    let parts = Parts {
        codes: 255,
        parents: parents.as_slice(),
        types,
        states: states.as_slice(),
        note: note.as_slice(),
    };
    file(heap, parts)
}

// A copy of a file with one byte changed, where there is such a byte.
fn changed(heap: Global, file: &[u8], at: usize, byte: u8) -> Result<Vec<u8>, AllocError> {
    let mut copy = file.to_vec(heap)?;
    if let Some(old) = copy.get_mut(at) {
        *old = byte;
    }
    Ok(copy)
}

// What reading a file answers.
fn answer(heap: Global, file: &[u8]) -> Result<Result<NoteSpan, Fault>, AllocError> {
    let mut workload = Workload::start(heap)?;
    Ok(read(heap, file, &mut workload))
}

// One byte of a file changed, and the number and place that it is refused with.
#[derive(Clone, Copy)]
struct Damage {
    at: usize,
    byte: u8,
    number: u8,
    place: usize,
}

// The number and place of a refusal; nothing where the file is read.
fn told(heap: Global, file: &[u8]) -> Result<Option<(u8, usize)>, AllocError> {
    let answer = answer(heap, file)?;
    Ok(answer.err().and_then(Fault::number_and_place))
}

#[test]
fn small_file_is_read(rt: HostRuntime) -> Result<(), Fail> {
    let mut workload = Workload::start(rt.alloc())?;
    let span = read(rt.alloc(), SMALL, &mut workload)?;
    assert_eq!(rt;
        span,
        NoteSpan {
            place: 23,
            length: 0,
        }
    );
    assert_eq!(rt; workload.item_count(), 1);
    assert_eq!(rt; workload.code_count(), 4);
    assert_eq!(rt; workload.type_count(), 1);
    assert_eq!(rt; workload.state_count(0), Some(1));
    let state = workload.state(0, 0).ok_or("no state")?;
    assert_eq!(rt; state.item, 0);
    assert_eq!(rt; state.code, 1);
    assert_eq!(rt; state.operand, 5);
    assert_eq!(rt; state.arc_count, 0);
    Ok(())
}

// Two items, three codes, one type of one state (item 1, code 2, operand -2, terminal), and a note of two bytes.
#[test]
fn a_file_is_loaded_with_no_workload_before(rt: HostRuntime) -> Result<(), Fail> {
    let file = b"TLW\0\x01\x02\x01\x03\xff\0\x01\x01\x02\xff\xff\xff\xfe\0\0\0\0\0\0\x02hi";
    let (workload, span) = load(rt.alloc(), file)?;
    assert_eq!(rt;
        span,
        NoteSpan {
            place: 24,
            length: 2,
        }
    );
    assert_eq!(rt; workload.item_count(), 2);
    assert_eq!(rt; workload.code_count(), 3);
    assert_eq!(rt; workload.parent(1), Some(0));
    let state = workload.state(0, 0).ok_or("no state")?;
    assert_eq!(rt; state.item, 1);
    assert_eq!(rt; state.code, 2);
    assert_eq!(rt; state.operand, -2);
    Ok(())
}

#[test]
fn truncations_miss_a_field(rt: HostRuntime) -> Result<(), Fail> {
    let file = chains(rt.alloc(), 3, 2, 3, 4)?;
    assert_eq!(rt; told(rt.alloc(), file.as_slice())?, None);
    for end in 0..file.len() {
        assert_eq!(rt; told(rt.alloc(), &file[..end])?, Some((1, end)));
    }
    Ok(())
}

#[test]
fn a_byte_more_is_refused(rt: HostRuntime) -> Result<(), Fail> {
    let mut file = SMALL.to_vec(rt.alloc())?;
    file.push(0)?;
    assert_eq!(rt; told(rt.alloc(), file.as_slice())?, Some((7, 23)));
    Ok(())
}

#[test]
fn wrong_mark_needs_three_bytes(rt: HostRuntime) -> Result<(), Fail> {
    assert_eq!(rt; told(rt.alloc(), b"XY")?, Some((1, 2)));
    assert_eq!(rt; told(rt.alloc(), b"XYZ")?, Some((2, 0)));
    assert_eq!(rt; told(rt.alloc(), b"TLW\x09")?, Some((1, 4)));
    Ok(())
}

#[test]
fn sixty_four_items_and_no_more(rt: HostRuntime) -> Result<(), Fail> {
    assert_eq!(rt;
        told(rt.alloc(), chains(rt.alloc(), 64, 1, 1, 0)?.as_slice())?,
        None
    );
    assert_eq!(rt;
        told(rt.alloc(), chains(rt.alloc(), 65, 1, 1, 0)?.as_slice())?,
        Some((3, 5))
    );
    Ok(())
}

#[test]
fn parents_in_a_circle_are_refused(rt: HostRuntime) -> Result<(), Fail> {
    let file = [b'T', b'L', b'W', 0, 1, 2, 1, 1, 1, 0];
    assert_eq!(rt; told(rt.alloc(), &file)?, Some((4, 8)));
    Ok(())
}

#[test]
fn first_places_of_each_fault(rt: HostRuntime) -> Result<(), Fail> {
    let cases = [
        Damage {
            at: 0,
            byte: b'X',
            number: 2,
            place: 0,
        },
        Damage {
            at: 2,
            byte: b'X',
            number: 2,
            place: 0,
        },
        Damage {
            at: 3,
            byte: 1,
            number: 2,
            place: 3,
        },
        Damage {
            at: 4,
            byte: 2,
            number: 2,
            place: 3,
        },
        Damage {
            at: 5,
            byte: 0,
            number: 3,
            place: 5,
        },
        Damage {
            at: 5,
            byte: 65,
            number: 3,
            place: 5,
        },
        Damage {
            at: 6,
            byte: 0,
            number: 3,
            place: 6,
        },
        Damage {
            at: 6,
            byte: 9,
            number: 3,
            place: 6,
        },
        Damage {
            at: 7,
            byte: 0,
            number: 3,
            place: 7,
        },
        Damage {
            at: 8,
            byte: 0,
            number: 4,
            place: 8,
        },
        Damage {
            at: 8,
            byte: 1,
            number: 4,
            place: 8,
        },
        Damage {
            at: 9,
            byte: 0,
            number: 3,
            place: 9,
        },
        Damage {
            at: 9,
            byte: 33,
            number: 3,
            place: 9,
        },
        Damage {
            at: 10,
            byte: 1,
            number: 5,
            place: 10,
        },
        Damage {
            at: 11,
            byte: 4,
            number: 5,
            place: 11,
        },
        Damage {
            at: 16,
            byte: 5,
            number: 5,
            place: 16,
        },
        Damage {
            at: 17,
            byte: 1,
            number: 5,
            place: 17,
        },
        Damage {
            at: 20,
            byte: 1,
            number: 5,
            place: 20,
        },
        Damage {
            at: 16,
            byte: 1,
            number: 6,
            place: 10,
        },
        Damage {
            at: 21,
            byte: 4,
            number: 7,
            place: 21,
        },
        Damage {
            at: 22,
            byte: 1,
            number: 1,
            place: 23,
        },
    ];
    for case in cases {
        let file = changed(rt.alloc(), SMALL, case.at, case.byte)?;
        assert_eq!(rt;
            told(rt.alloc(), file.as_slice())?,
            Some((case.number, case.place))
        );
    }
    Ok(())
}

#[test]
fn last_places_of_each_fault(rt: HostRuntime) -> Result<(), Fail> {
    let largest = chains(rt.alloc(), 64, 8, 32, 1000)?;
    assert_eq!(rt;
        answer(rt.alloc(), largest.as_slice())?,
        Ok(NoteSpan {
            place: 2898,
            length: 1000,
        })
    );
    let cases = [
        Damage {
            at: 71,
            byte: 63,
            number: 4,
            place: 71,
        },
        Damage {
            at: 71,
            byte: 64,
            number: 4,
            place: 71,
        },
        Damage {
            at: 71,
            byte: 255,
            number: 4,
            place: 71,
        },
        Damage {
            at: 2543,
            byte: 33,
            number: 3,
            place: 2543,
        },
        Damage {
            at: 2885,
            byte: 64,
            number: 5,
            place: 2885,
        },
        Damage {
            at: 2886,
            byte: 255,
            number: 5,
            place: 2886,
        },
        Damage {
            at: 2895,
            byte: 1,
            number: 5,
            place: 2895,
        },
        Damage {
            at: 2881,
            byte: 30,
            number: 6,
            place: 2544,
        },
        Damage {
            at: 2896,
            byte: 255,
            number: 7,
            place: 2896,
        },
        Damage {
            at: 2897,
            byte: 231,
            number: 7,
            place: 3897,
        },
    ];
    for case in cases {
        let file = changed(rt.alloc(), largest.as_slice(), case.at, case.byte)?;
        assert_eq!(rt;
            told(rt.alloc(), file.as_slice())?,
            Some((case.number, case.place))
        );
    }
    // the last state but one ends the job, so the last state of the last type is not reached
    let short = changed(rt.alloc(), largest.as_slice(), 2880, 0)?;
    let file = changed(rt.alloc(), short.as_slice(), 2881, 0)?;
    assert_eq!(rt; told(rt.alloc(), file.as_slice())?, Some((6, 2885)));
    Ok(())
}

#[test]
fn a_refused_file_leaves_the_workload(rt: HostRuntime) -> Result<(), Fail> {
    let mut workload = Workload::start(rt.alloc())?;
    let larger = chains(rt.alloc(), 5, 2, 3, 0)?;
    let _span = read(rt.alloc(), larger.as_slice(), &mut workload)?;
    assert_eq!(rt;
        read(rt.alloc(), b"TLW", &mut workload),
        Err(Fault::Missing(3))
    );
    assert_eq!(rt; workload.item_count(), 5);
    assert_eq!(rt; workload.type_count(), 2);
    assert_eq!(rt; workload.state_count(1), Some(3));
    assert_eq!(rt; workload.parent(0), None);
    assert_eq!(rt; workload.parent(4), Some(3));
    Ok(())
}

#[test]
fn notes_are_handed_out(rt: HostRuntime) {
    let file = b"abcdef";
    assert_eq!(rt;
        note(
            file,
            NoteSpan {
                place: 2,
                length: 3,
            },
        ),
        Some(&file[2..5])
    );
    assert_eq!(rt;
        note(
            file,
            NoteSpan {
                place: 6,
                length: 0,
            },
        ),
        Some(&file[6..6])
    );
    assert!(rt;
        note(
            file,
            NoteSpan {
                place: 7,
                length: 0,
            },
        )
        .is_none()
    );
    assert!(rt;
        note(
            file,
            NoteSpan {
                place: 4,
                length: 3,
            },
        )
        .is_none()
    );
    assert!(rt;
        note(
            file,
            NoteSpan {
                place: 1,
                length: usize::MAX,
            },
        )
        .is_none()
    );
    assert!(rt;
        note(
            file,
            NoteSpan {
                place: usize::MAX,
                length: 1,
            },
        )
        .is_none()
    );
}
