use crate::cases::{Case, check_all};
use kinds::kind::Kind;
use kinds::slot::Slot;

// A slot, a code and a register; then the new slot and the new register. No code of a slot looks at the operand.
fn case(slot: Slot, code: u8, register: i32, pair: (Slot, i32)) -> Case<Slot> {
    Case(slot, code, 5, register, pair)
}

#[test]
fn tells_whether_it_is_held(rt: HostRuntime) {
    check_all::<Slot>(
        &rt,
        &[
            case(Slot::Free, 0, 9, (Slot::Free, 0)),
            case(Slot::Held(7), 0, 9, (Slot::Held(7), 1)),
        ],
    );
}

#[test]
fn takes_a_free_slot_with_a_number(rt: HostRuntime) {
    check_all::<Slot>(
        &rt,
        &[
            case(Slot::Free, 1, 1, (Slot::Held(1), -1)),
            case(Slot::Free, 1, i32::MAX, (Slot::Held(i32::MAX), -1)),
            case(Slot::Free, 1, 0, (Slot::Free, 0)),
            case(Slot::Free, 1, -1, (Slot::Free, -1)),
            case(Slot::Held(7), 1, 3, (Slot::Held(7), 3)),
        ],
    );
}

#[test]
fn lifts(rt: HostRuntime) {
    check_all::<Slot>(
        &rt,
        &[
            case(Slot::Held(7), 2, 9, (Slot::Free, 7)),
            case(Slot::Held(-7), 2, 9, (Slot::Free, -7)),
            case(Slot::Free, 2, 9, (Slot::Free, -1)),
        ],
    );
}

#[test]
fn other_codes_change_neither_part(rt: HostRuntime) {
    assert_eq!(rt; Slot::CODES, 3);
    check_all::<Slot>(
        &rt,
        &[
            case(Slot::Held(7), 3, 9, (Slot::Held(7), 9)),
            case(Slot::Free, 3, 9, (Slot::Free, 9)),
            case(Slot::Free, 255, 9, (Slot::Free, 9)),
        ],
    );
}

#[test]
fn shows_its_number_or_one_above_all(rt: HostRuntime) {
    assert_eq!(rt; Slot::show(&Slot::Free), 4_294_967_296);
    assert_eq!(rt; Slot::show(&Slot::Held(7)), 7);
    assert_eq!(rt; Slot::show(&Slot::Held(i32::MIN)), -2_147_483_648);
}
