ghost use Rattle.kinds.specs.Codes.{Decodes};
ghost use Rattle.kinds.specs.Slots.{code_of, slot_act, slot_codes, slot_number};
ghost use Rattle.std.proofs.Common.{rules};

use crate::kind::{Kind, NoOperation};

// A berth slot: free, or held with a container's number. The type is also the kind of its own values.
#[derive(Clone, Copy, Debug, PartialEq, Eq)]
pub enum Slot {
    Free,
    Held(i32),
}

// What a free slot shows as: above all container numbers.
const FREE_NUMBER: i64 = 4_294_967_296;

// What an act does to a slot, in the order of the codes.
#[derive(Clone, Copy, Debug, PartialEq, Eq)]
enum SlotOperation {
    AskHeld,
    Take,
    Lift,
}

impl TryFrom<u8> for SlotOperation {
    type Error = NoOperation;

    ghost try_from_gives = { Decodes code_of slot_codes };

    fn try_from(code: u8) -> Result<Self, NoOperation> {
        match code {
            0 => Ok(SlotOperation::AskHeld),
            1 => Ok(SlotOperation::Take),
            2 => Ok(SlotOperation::Lift),
            _ => Err(NoOperation),
        }
    }
}

impl Kind for Slot {
    type Value = Slot;

    const CODES: u8 = 3;

    ghost CODES = { slot_codes };

    ghost acted = { slot_act };

    ghost number = { slot_number };

    ghost beyond = { Prim.search rules };

    fn act(value: Slot, code: u8, _operand: i32, register: i32) -> (Slot, i32) {
        let Ok(operation) = SlotOperation::try_from(code) else {
            return (value, register);
        };
        match (operation, value) {
            (SlotOperation::AskHeld, Slot::Free) => (value, 0),
            (SlotOperation::AskHeld, Slot::Held(_)) => (value, 1),
            (SlotOperation::Take, Slot::Free) if register >= 1 => (Slot::Held(register), -1),
            (SlotOperation::Take, _) => (value, register),
            (SlotOperation::Lift, Slot::Free) => (value, -1),
            (SlotOperation::Lift, Slot::Held(number)) => (Slot::Free, number),
        }
    }

    fn show(value: &Slot) -> i64 {
        match value {
            Slot::Free => FREE_NUMBER,
            Slot::Held(number) => i64::from(*number),
        }
    }
}
