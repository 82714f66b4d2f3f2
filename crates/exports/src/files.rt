// Reading a file, and writing it again.
ghost use Rattle.std.specs.Prelude.{◌≡◌};
ghost use Rattle.exports.specs.Told.{TellsFile, file_told, not_told};

use crate::told::{End, end_of};
use std::alloc::Global;
use workload::definition::Workload;
use workload::fault::Fault;
use workload::file::{NoteSpan, load};

// What is told of a file. Where it is read, the place is that of its note; the counts are 0 where it is not.
#[repr(C)]
#[derive(Clone, Copy)]
pub struct FileTold {
    pub end: End,
    pub note_length: usize,
    pub items: u8,
    pub codes: u8,
    pub types: u8,
}

// What is told of a file that is read.
fn told_of(workload: &Workload, span: NoteSpan) -> FileTold
    ensures { result ≡ file_told workload.now span }
{
    FileTold {
        end: End {
            number: 0,
            place: span.place,
        },
        note_length: span.length,
        items: workload.item_count(),
        codes: workload.code_count(),
        types: workload.type_count(),
    }
}

// What is told of a file that is not read.
fn told_why(fault: Fault) -> FileTold
    ensures { result ≡ not_told fault }
{
    FileTold {
        end: end_of(fault),
        note_length: 0,
        items: 0,
        codes: 0,
        types: 0,
    }
}

// Reads a file and tells what it holds, or why it is not read.
#[unsafe(no_mangle)]
pub extern "C" fn fadzrike_read(heap: Global, file: &[u8]) -> FileTold
    ensures { TellsFile file.now result }
{
    match load(heap, file) {
        Ok((workload, span)) => told_of(&workload, span),
        Err(fault) => told_why(fault),
    }
}
