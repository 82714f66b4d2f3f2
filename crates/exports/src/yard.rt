// The text of the program yard.
ghost use Rattle.exports.specs.Yard.{Puts, TellsText};
ghost use Rattle.yard_text.specs.Report.{Prints};

use crate::told::{DONE, End, NO_MEMORY, NO_ROOM};
use kinds::kind::Kind;
use kinds::tally::Tally;
use std::alloc::Global;
use yard_text::report::report;

// What is told of a text: how the call ended, and how long the text is, also where the caller's row is too short for it.
#[repr(C)]
#[derive(Clone, Copy)]
pub struct TextTold {
    pub end: End,
    pub length: usize,
}

// Puts the text at the front of the row, if it fits.
fn put_text(text: &[u8], row: &mut [u8]) -> TextTold
    ensures { Puts text.now row.old row.new result }
{
    let length = text.len();
    if row.len() < length {
        return TextTold {
            end: NO_ROOM,
            length,
        };
    }
    row[..length].copy_from_slice(text);
    TextTold { end: DONE, length }
}

// Puts what the program prints for a file and an input at the front of the caller's row.
#[unsafe(no_mangle)]
pub extern "C" fn fadzrike_yard(
    heap: Global,
    file: &[u8],
    input: &[u8],
    output: &mut [u8],
) -> TextTold
    ensures { TellsText (Prints ⟦<Tally as Kind>⟧ file.now input.now) output.old output.new result }
{
    match report(heap, file, input) {
        Ok(text) => put_text(text.as_bytes(), output),
        Err(_) => TextTold {
            end: NO_MEMORY,
            length: 0,
        },
    }
}
