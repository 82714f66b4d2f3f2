// Why a workload file is not read.
ghost use Rattle.std.specs.Prelude.{◌≡◌};
ghost use Rattle.workload.specs.declared.fault.Fault.TheVariants.{Memory};
ghost use Rattle.workload.specs.Numbers.{numbered};

use std::alloc::{AllocError, AllocFailed};

// A fault of a file is told with the place of a byte, counted from 0.
#[derive(Clone, Copy, PartialEq, Eq, Debug)]
pub enum Fault {
    // a field is not all there; the place is the file's length
    Missing(usize),
    // another mark or version
    Mark(usize),
    // a count outside its range
    Count(usize),
    // the parents make no tree
    Tree(usize),
    // a wrong byte in a state's record
    Record(usize),
    // a state that is not reached from state 0, or reaches no terminal state
    Stray(usize),
    // a note that is too long, or a byte after it
    Tail(usize),
    // no memory: the file itself has no fault
    Memory,
}

impl From<AllocError> for Fault {
    ghost from_gives = { λ _ r. r ≡ Memory };

    fn from(_e: AllocError) -> Fault {
        Fault::Memory
    }
}

impl<T: Drop> From<AllocFailed<T>> for Fault {
    ghost from_gives = { λ _ r. r ≡ Memory };

    fn from(_e: AllocFailed<T>) -> Fault {
        Fault::Memory
    }
}

impl Fault {
    // The number by which the fault is told, and its place in the file; nothing for want of memory.
    pub fn number_and_place(self) -> Option<(u8, usize)>
        ensures { result ≡ numbered self }
    {
        match self {
            Fault::Missing(place) => Some((1, place)),
            Fault::Mark(place) => Some((2, place)),
            Fault::Count(place) => Some((3, place)),
            Fault::Tree(place) => Some((4, place)),
            Fault::Record(place) => Some((5, place)),
            Fault::Stray(place) => Some((6, place)),
            Fault::Tail(place) => Some((7, place)),
            Fault::Memory => None,
        }
    }
}
