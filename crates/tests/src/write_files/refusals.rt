// What is refused, and that a refusal changes nothing.
use crate::files::{SMALL, loaded};
use crate::write_files::shapes::{LARGEST, file, filled, text};
use std::alloc::Global;
use std::process::Abort;
use std::test::Fail;
use workload::definition::Workload;
use workload::fault::Fault;
use writing::file::write;
use writing::refusal::{TripRefusal, WriteRefusal};
use writing::trips::{read_and_write, write_and_read};

// Writing into a buffer of this length is refused and leaves it as it was.
fn refused(
    rt: &impl Abort,
    heap: Global,
    workload: &Workload,
    note: &[u8],
    length: usize,
    refusal: WriteRefusal,
) -> Result<(), Fail> {
    let mut buffer = filled(heap, length)?;
    assert_eq!(rt; write(workload, note, buffer.as_mut_slice()), Err(refusal));
    let before = filled(heap, length)?;
    assert_eq!(rt; buffer.as_slice(), before.as_slice());
    Ok(())
}

#[test]
fn a_long_note_is_told_first(rt: HostRuntime) -> Result<(), Fail> {
    let workload = Workload::start(rt.alloc())?;
    let note = text(rt.alloc(), 1001)?;
    let refusal = WriteRefusal::NoteTooLong;
    refused(&rt, rt.alloc(), &workload, note.as_slice(), 4000, refusal)?;
    refused(&rt, rt.alloc(), &workload, note.as_slice(), 0, refusal)?;
    assert_eq!(rt; refusal.number(), 7);
    Ok(())
}

#[test]
fn a_buffer_one_byte_short_is_told(rt: HostRuntime) -> Result<(), Fail> {
    let small = loaded(rt.alloc(), SMALL)?;
    let refusal = WriteRefusal::BufferTooShort;
    refused(&rt, rt.alloc(), &small, b"", 22, refusal)?;
    refused(&rt, rt.alloc(), &small, b"", 0, refusal)?;
    let bytes = file(rt.alloc(), LARGEST)?;
    let largest = loaded(rt.alloc(), bytes.as_slice())?;
    let note = text(rt.alloc(), 1000)?;
    refused(&rt, rt.alloc(), &largest, note.as_slice(), 3897, refusal)?;
    assert_eq!(rt; refusal.number(), 9);
    Ok(())
}

#[test]
fn a_refused_file_is_not_copied(rt: HostRuntime) -> Result<(), Fail> {
    let mut workload = loaded(rt.alloc(), SMALL)?;
    let mut buffer = filled(rt.alloc(), 4000)?;
    let answer = read_and_write(rt.alloc(), b"TLW", &mut workload, buffer.as_mut_slice());
    assert_eq!(rt; answer, Err(TripRefusal::Reading(Fault::Missing(3))));
    let before = filled(rt.alloc(), 4000)?;
    assert_eq!(rt; buffer.as_slice(), before.as_slice());
    assert_eq!(rt; workload.code_count(), 4);
    Ok(())
}

#[test]
fn a_file_without_room_is_still_read(rt: HostRuntime) -> Result<(), Fail> {
    let bytes = file(rt.alloc(), LARGEST)?;
    let mut workload = Workload::start(rt.alloc())?;
    let mut buffer = filled(rt.alloc(), 3897)?;
    let answer = read_and_write(
        rt.alloc(),
        bytes.as_slice(),
        &mut workload,
        buffer.as_mut_slice(),
    );
    assert_eq!(rt;
        answer,
        Err(TripRefusal::Writing(WriteRefusal::BufferTooShort))
    );
    let before = filled(rt.alloc(), 3897)?;
    assert_eq!(rt; buffer.as_slice(), before.as_slice());
    assert_eq!(rt; workload.item_count(), 64);
    assert_eq!(rt; workload.state_count(7), Some(32));
    Ok(())
}

#[test]
fn a_workload_without_room_is_not_read_again(rt: HostRuntime) -> Result<(), Fail> {
    let workload = loaded(rt.alloc(), SMALL)?;
    let mut copy = Workload::start(rt.alloc())?;
    let mut buffer = filled(rt.alloc(), 22)?;
    let answer = write_and_read(rt.alloc(), &workload, b"", buffer.as_mut_slice(), &mut copy);
    assert_eq!(rt;
        answer,
        Err(TripRefusal::Writing(WriteRefusal::BufferTooShort))
    );
    let before = filled(rt.alloc(), 22)?;
    assert_eq!(rt; buffer.as_slice(), before.as_slice());
    assert_eq!(rt; copy.code_count(), 1);
    Ok(())
}
