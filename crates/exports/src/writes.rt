// Writing the workload of a file again, with any note.
ghost use Rattle.std.specs.Prelude.{◌≡◌};
ghost use Rattle.exports.specs.Writes.{TellsWritten, write_told};

use crate::told::{DONE, End, end_of};
use std::alloc::Global;
use workload::file::load;
use writing::file::write;
use writing::refusal::WriteRefusal;

// What is told of writing: how reading ended, the number of a refusal to write or 0, and how long the new file is.
#[repr(C)]
#[derive(Clone, Copy)]
pub struct WriteTold {
    pub end: End,
    pub refusal: u8,
    pub length: usize,
}

// What is told of a workload that was read.
fn told_of(written: Result<usize, WriteRefusal>) -> WriteTold
    ensures { result ≡ write_told written }
{
    match written {
        Ok(length) => WriteTold {
            end: DONE,
            refusal: 0,
            length,
        },
        Err(why) => WriteTold {
            end: DONE,
            refusal: why.number(),
            length: 0,
        },
    }
}

// Writes the workload of a file, with this note, at the front of the buffer.
#[unsafe(no_mangle)]
pub extern "C" fn fadzrike_write(
    heap: Global,
    file: &[u8],
    note: &[u8],
    buffer: &mut [u8],
) -> WriteTold
    ensures { TellsWritten file.now note.now buffer.old buffer.new result }
{
    match load(heap, file) {
        Ok((workload, _span)) => told_of(write(&workload, note, buffer)),
        Err(fault) => WriteTold {
            end: end_of(fault),
            refusal: 0,
            length: 0,
        },
    }
}
