// What the calls tell of themselves.
ghost use Rattle.std.specs.Prelude.{◌≡◌};
ghost use Rattle.exports.specs.Told.{fault_end};
ghost use Rattle.workload.specs.Numbers.{numbered};

use workload::fault::Fault;

// How a call ended: 0 where it did what it is for, the number and the place of a file's fault,
// 253 where what it looks for is not there, 254 where a caller's slice is too short for the answers, and 255 for want of memory.
// With 253, 254 or a fault of the file, the caller's slices are as they were.
#[repr(C)]
#[derive(Clone, Copy)]
pub struct End {
    pub number: u8,
    pub place: usize,
}

// The end of a call that did what it is for.
pub(crate) const DONE: End = End {
    number: 0,
    place: 0,
};

// The end of a call that looks for what is not there.
pub(crate) const NOTHING: End = End {
    number: 253,
    place: 0,
};

// The end of a call whose answers do not fit.
pub(crate) const NO_ROOM: End = End {
    number: 254,
    place: 0,
};

// The end of a call that wants memory.
pub(crate) const NO_MEMORY: End = End {
    number: 255,
    place: 0,
};

// The end of a call whose file is not read.
pub(crate) fn end_of(fault: Fault) -> End
    ensures { result ≡ fault_end (numbered fault) }
{
    match fault.number_and_place() {
        Some((number, place)) => End { number, place },
        None => NO_MEMORY,
    }
}
