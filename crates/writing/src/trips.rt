// Round trips: a file through a workload, and a workload through a file.
ghost use Rattle.std.specs.Prelude.{◌≤◌, length};
ghost use Rattle.workload.specs.Files.{Filled};
ghost use Rattle.writing.specs.Files.{Copied, Holds, ReadAgain, Reread, Rewritten};

use crate::file::write;
use crate::refusal::{TripRefusal, WriteRefusal};
use std::alloc::Global;
use workload::definition::Workload;
use workload::fault::Fault;
use workload::file::{NoteSpan, note, read};

// Writes a workload that was read from a file, with the note of that file.
fn write_again(
    workload: &Workload,
    file: &[u8],
    span: NoteSpan,
    buffer: &mut [u8],
) -> Result<usize, WriteRefusal>
    requires { Filled file.now workload.now span }
    ensures read { Holds file.now workload.now }
    ensures copied { Copied file.now buffer.old buffer.new result }
{
    let text = note(file, span).unwrap();
    write(workload, text, buffer)
}

// Reads a file into the workload and writes it again: the front of the buffer is then the file, byte for byte.
pub fn read_and_write(
    heap: Global,
    file: &[u8],
    workload: &mut Workload,
    buffer: &mut [u8],
) -> Result<usize, TripRefusal>
    ensures { Rewritten file.now buffer.old buffer.new workload.old workload.new result }
{
    let span = read(heap, file, workload)?;
    Ok(write_again(workload, file, span, buffer)?)
}

// Reads the file at the front of a buffer: whichever workload and note were written there are read again.
fn read_again(
    heap: Global,
    buffer: &[u8],
    end: usize,
    copy: &mut Workload,
) -> Result<NoteSpan, Fault>
    requires { end ≤ length buffer.now }
    ensures { ReadAgain buffer.now end copy.old copy.new result }
{
    read(heap, &buffer[..end], copy)
}

// Writes the workload and the note into the buffer and reads them again: the same workload and the same note.
pub fn write_and_read(
    heap: Global,
    workload: &Workload,
    note: &[u8],
    buffer: &mut [u8],
    copy: &mut Workload,
) -> Result<NoteSpan, TripRefusal>
    ensures { Reread workload.now note.now buffer.old buffer.new copy.old copy.new result }
{
    let end = write(workload, note, buffer)?;
    Ok(read_again(heap, buffer, end, copy)?)
}
