// Writing a workload file.
ghost use Rattle.std.specs.Prelude.{◌≡◌, ◌*◌, ◌≤◌, length};
ghost use Rattle.workload.specs.Encoding.{type_bytes};
ghost use Rattle.workload.specs.Files.{file_of};
ghost use Rattle.writing.specs.Files.{Stands, Written};
ghost use Rattle.writing.specs.Puts.{AllPacked, header_of, types_bytes};

use crate::put::Writer;
use crate::refusal::WriteRefusal;
use rules::state::State;
use workload::definition::Workload;

// How many bytes a type takes: the number of its states, and eleven for each.
fn type_length(states: &[State]) -> usize
    requires few { length states.now ≤ 32 }
    requires packed { AllPacked states.now }
    ensures value { result ≡ length (type_bytes states.now) }
    ensures high { result ≤ 353 }
{
    1 + 11 * states.len()
}

// How many bytes the job types take.
fn types_length(workload: &Workload) -> usize
    ensures value { result ≡ length (types_bytes workload.now) }
    ensures high { result ≤ 8 * 353 }
{
    let mut length = 0;
    for ty in workload.job_types() {
        length += type_length(ty.states.as_slice());
    }
    length
}

// How many bytes the file of a workload and a note takes.
fn file_length(workload: &Workload, note: &[u8]) -> usize
    ensures { result ≡ length (file_of workload.now note.now) }
{
    10 + workload.parent_bytes().len() + types_length(workload) + note.len()
}

// The fields before the parents: mark, version and the three counts.
fn header(workload: &Workload) -> [u8; 8]
    ensures { result ≡ header_of workload.now }
{
    let items = workload.item_count();
    let types = workload.type_count();
    let codes = workload.code_count();
    [b'T', b'L', b'W', 0, 1, items, types, codes]
}

// Puts the file of a workload and a note at the front of the buffer and answers its length.
fn put_file(buffer: &mut [u8], workload: &Workload, note: &[u8]) -> usize
    requires short { length note.now ≤ 1000 }
    requires room { length (file_of workload.now note.now) ≤ length buffer.old }
    ensures { Stands (file_of workload.now note.now) buffer.old buffer.new result }
{
    let mut writer = Writer { buffer, at: 0 };
    writer.put(&header(workload));
    writer.put(workload.parent_bytes());
    writer.put_types(workload);
    writer.put_note(note);
    writer.at
}

// Writes the workload and the note at the front of the buffer and answers the length of the file.
// A refusal leaves the buffer as it was.
pub fn write(workload: &Workload, note: &[u8], buffer: &mut [u8]) -> Result<usize, WriteRefusal>
    ensures { Written (file_of workload.now note.now) note.now buffer.old buffer.new result }
{
    if note.len() > 1000 {
        return Err(WriteRefusal::NoteTooLong);
    }
    if buffer.len() < file_length(workload, note) {
        return Err(WriteRefusal::BufferTooShort);
    }
    Ok(put_file(buffer, workload, note))
}
