// Why a file is not written, or a file or a workload not taken round.
ghost use Rattle.std.specs.Prelude.{◌≡◌};
ghost use Rattle.writing.specs.Numbers.{write_number};
ghost use Rattle.writing.specs.declared.refusal.TripRefusal.TheVariants.{Reading, Writing};

use workload::fault::Fault;

// Why a file is not written.
#[derive(Clone, Copy, PartialEq, Eq, Debug)]
pub enum WriteRefusal {
    // the note is longer than 1,000 bytes
    NoteTooLong,
    // the buffer is shorter than the file
    BufferTooShort,
}

impl WriteRefusal {
    // The number by which the refusal is told. A method says what the number is, which a `u8::from` would not.
    pub fn number(self) -> u8
        ensures { result ≡ write_number self }
    {
        match self {
            WriteRefusal::NoteTooLong => 7,
            WriteRefusal::BufferTooShort => 9,
        }
    }
}

// Which way of a round trip is refused, and why.
#[derive(Clone, Copy, PartialEq, Eq, Debug)]
pub enum TripRefusal {
    Reading(Fault),
    Writing(WriteRefusal),
}

impl From<Fault> for TripRefusal {
    ghost from_gives = { λ fault r. r ≡ Reading fault };

    fn from(fault: Fault) -> TripRefusal {
        TripRefusal::Reading(fault)
    }
}

impl From<WriteRefusal> for TripRefusal {
    ghost from_gives = { λ refusal r. r ≡ Writing refusal };

    fn from(refusal: WriteRefusal) -> TripRefusal {
        TripRefusal::Writing(refusal)
    }
}
