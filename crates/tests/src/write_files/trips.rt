// What comes back from a round trip.
use crate::files::{SMALL, loaded};
use crate::write_files::shapes::{FILL, LARGEST, Shape, file, filled, text};
use std::alloc::Global;
use std::process::Abort;
use std::test::Fail;
use workload::definition::Workload;
use workload::file::{NoteSpan, note};
use writing::file::write;
use writing::trips::{read_and_write, write_and_read};

// Both workloads tell the same of their items, codes, types and states. Look-ups are what a caller sees, so they are compared.
fn same(rt: &impl Abort, a: &Workload, b: &Workload) {
    assert_eq!(rt; a.item_count(), b.item_count());
    assert_eq!(rt; a.code_count(), b.code_count());
    assert_eq!(rt; a.type_count(), b.type_count());
    for item in 0..a.item_count() {
        assert_eq!(rt; a.parent(item), b.parent(item));
    }
    for t in 0..a.type_count() {
        assert_eq!(rt; a.state_count(t), b.state_count(t));
        for s in 0..32 {
            assert_eq!(rt; a.state(t, s), b.state(t, s));
        }
    }
}

// A file that is read and written again has the same bytes.
fn comes_back(rt: &impl Abort, heap: Global, file: &[u8]) -> Result<(), Fail> {
    let mut workload = Workload::start(heap)?;
    let mut buffer = filled(heap, file.len())?;
    let answer = read_and_write(heap, file, &mut workload, buffer.as_mut_slice());
    assert_eq!(rt; answer, Ok(file.len()));
    assert_eq!(rt; buffer.as_slice(), file);
    Ok(())
}

#[test]
fn files_come_back(rt: HostRuntime) -> Result<(), Fail> {
    comes_back(&rt, rt.alloc(), SMALL)?;
    let shapes = [
        Shape {
            items: 1,
            types: 1,
            states: 1,
            note: 1,
        },
        Shape {
            items: 64,
            types: 1,
            states: 1,
            note: 0,
        },
        Shape {
            items: 2,
            types: 8,
            states: 32,
            note: 0,
        },
        Shape {
            items: 5,
            types: 3,
            states: 4,
            note: 999,
        },
        LARGEST,
    ];
    for shape in shapes {
        let bytes = file(rt.alloc(), shape)?;
        comes_back(&rt, rt.alloc(), bytes.as_slice())?;
    }
    assert_eq!(rt; file(rt.alloc(), LARGEST)?.len(), 3898);
    Ok(())
}

#[test]
fn workloads_come_back(rt: HostRuntime) -> Result<(), Fail> {
    let bytes = file(rt.alloc(), Shape { note: 3, ..LARGEST })?;
    let workload = loaded(rt.alloc(), bytes.as_slice())?;
    for length in [0, 1000] {
        let text = text(rt.alloc(), length)?;
        let mut buffer = filled(rt.alloc(), 3898)?;
        let mut copy = Workload::start(rt.alloc())?;
        let answer = write_and_read(
            rt.alloc(),
            &workload,
            text.as_slice(),
            buffer.as_mut_slice(),
            &mut copy,
        );
        let span = NoteSpan {
            place: 2898,
            length: length as usize,
        };
        assert_eq!(rt; answer, Ok(span));
        assert_eq!(rt; note(buffer.as_slice(), span), Some(text.as_slice()));
        same(&rt, &workload, &copy);
    }
    Ok(())
}

#[test]
fn operands_keep_both_ends(rt: HostRuntime) -> Result<(), Fail> {
    let shape = Shape {
        items: 2,
        types: 1,
        states: 4,
        note: 0,
    };
    let workload = loaded(rt.alloc(), file(rt.alloc(), shape)?.as_slice())?;
    let mut buffer = filled(rt.alloc(), 57)?;
    assert_eq!(rt; write(&workload, b"", buffer.as_mut_slice()), Ok(57));
    let copy = loaded(rt.alloc(), buffer.as_slice())?;
    assert_eq!(rt; copy.state(0, 0).ok_or("no state")?.operand, i32::MIN);
    assert_eq!(rt; copy.state(0, 1).ok_or("no state")?.operand, i32::MAX);
    assert_eq!(rt; copy.state(0, 2).ok_or("no state")?.operand, -1);
    assert_eq!(rt; buffer.get(13..17), Some(b"\x80\0\0\0".as_slice()));
    assert_eq!(rt; buffer.get(24..28), Some(b"\x7f\xff\xff\xff".as_slice()));
    Ok(())
}

#[test]
fn later_bytes_stay(rt: HostRuntime) -> Result<(), Fail> {
    let workload = loaded(rt.alloc(), SMALL)?;
    let mut buffer = filled(rt.alloc(), 26)?;
    assert_eq!(rt; write(&workload, b"", buffer.as_mut_slice()), Ok(23));
    let mut expected = SMALL.to_vec(rt.alloc())?;
    expected.extend_from_slice(&[FILL, FILL, FILL])?;
    assert_eq!(rt; buffer.as_slice(), expected.as_slice());
    Ok(())
}
