// Calls on the table, and what they answer.
ghost use Rattle.std.specs.Prelude.{◌≡◌};
ghost use Rattle.table.specs.Numbers.{enter_number, number};

use jobs::record::{EnterError, StepAnswer};

// Why a call is refused.
#[derive(Clone, Copy, PartialEq, Eq, Debug)]
pub enum Refusal {
    // the store has fewer items, or its kind fewer codes, than the workload
    Misfit,
    NoSuchPlace,
    NoSuchType,
    PlaceTaken,
    // no unfinished job is at the place
    NoJob,
    // no accepted begin at the place awaits its collect or leave
    NotAwaited,
    NotFinished,
}

impl Refusal {
    // The number by which the refusal is told. A method says what the number is, which a `u8::from` would not.
    pub fn number(self) -> u8
        ensures { result ≡ number self }
    {
        match self {
            Refusal::Misfit => 8,
            Refusal::NoSuchPlace => 10,
            Refusal::NoSuchType => 11,
            Refusal::PlaceTaken => 12,
            Refusal::NoJob => 13,
            Refusal::NotAwaited => 14,
            Refusal::NotFinished => 15,
        }
    }
}

impl From<EnterError> for Refusal {
    ghost from_gives = { λ e r. number r ≡ enter_number e };

    fn from(why: EnterError) -> Refusal {
        match why {
            EnterError::NoSuchPlace => Refusal::NoSuchPlace,
            EnterError::NoSuchType => Refusal::NoSuchType,
            EnterError::PlaceTaken => Refusal::PlaceTaken,
        }
    }
}

// A call of a list: a place, and for begin the job type and the argument. A ticket counts by its place alone.
#[derive(Clone, Copy, PartialEq, Eq, Debug)]
pub enum Call {
    Begin(u8, u8, i32),
    Step(u8),
    Collect(u8),
    Leave(u8),
}

#[derive(Clone, Copy, PartialEq, Eq, Debug)]
pub enum Answer {
    Began,
    Stepped(StepAnswer),
    Collected(i32),
    Left,
    Refused(Refusal),
}
