ghost use Rattle.kinds.specs.Codes.{Decodes};
ghost use Rattle.kinds.specs.Tallies.{code_of, tally_act, tally_codes, tally_number};
ghost use Rattle.std.proofs.Common.{rules};

use crate::kind::{Kind, NoOperation};

// The kind of a count that can go below zero. Its values are plain numbers.
pub struct Tally;

// What an act does to a tally, in the order of the codes.
#[derive(Clone, Copy, Debug, PartialEq, Eq)]
enum TallyOperation {
    Read,
    AddOperand,
    AddRegister,
    TakeOff,
}

impl TryFrom<u8> for TallyOperation {
    type Error = NoOperation;

    ghost try_from_gives = { Decodes code_of tally_codes };

    fn try_from(code: u8) -> Result<Self, NoOperation> {
        match code {
            0 => Ok(TallyOperation::Read),
            1 => Ok(TallyOperation::AddOperand),
            2 => Ok(TallyOperation::AddRegister),
            3 => Ok(TallyOperation::TakeOff),
            _ => Err(NoOperation),
        }
    }
}

impl Kind for Tally {
    type Value = i32;

    const CODES: u8 = 4;

    ghost CODES = { tally_codes };

    ghost acted = { tally_act };

    ghost number = { tally_number };

    ghost beyond = { Prim.search rules };

    fn act(value: i32, code: u8, operand: i32, register: i32) -> (i32, i32) {
        let Ok(operation) = TallyOperation::try_from(code) else {
            return (value, register);
        };
        match operation {
            TallyOperation::Read => (value, value),
            TallyOperation::AddOperand => {
                let sum = value.saturating_add(operand);
                (sum, sum)
            }
            TallyOperation::AddRegister => (value.saturating_add(register), 0),
            TallyOperation::TakeOff if value >= operand => (value.saturating_sub(operand), operand),
            TallyOperation::TakeOff => (value, -1),
        }
    }

    fn show(value: &i32) -> i64 {
        i64::from(*value)
    }
}
