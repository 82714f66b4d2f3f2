use crate::cases::{Case, check_all};
use kinds::kind::Kind;
use kinds::tally::Tally;

#[test]
fn reads_and_adds(rt: HostRuntime) {
    check_all::<Tally>(
        &rt,
        &[
            Case(7, 0, 99, 5, (7, 7)),
            Case(7, 1, -9, 5, (-2, -2)),
            Case(7, 2, 99, -9, (-2, 0)),
        ],
    );
}

#[test]
fn sums_stop_at_both_ends(rt: HostRuntime) {
    check_all::<Tally>(
        &rt,
        &[
            Case(1, 1, i32::MAX, 0, (i32::MAX, i32::MAX)),
            Case(-1, 1, i32::MIN, 0, (i32::MIN, i32::MIN)),
            Case(i32::MAX, 1, i32::MIN, 0, (-1, -1)),
            Case(i32::MAX, 2, 0, 1, (i32::MAX, 0)),
            Case(i32::MIN, 2, 0, -1, (i32::MIN, 0)),
        ],
    );
}

#[test]
fn takes_off_only_what_is_there(rt: HostRuntime) {
    check_all::<Tally>(
        &rt,
        &[
            Case(5, 3, 5, 9, (0, 5)),
            Case(4, 3, 5, 9, (4, -1)),
            Case(i32::MAX, 3, i32::MAX, 9, (0, i32::MAX)),
            Case(i32::MIN, 3, i32::MAX, 9, (i32::MIN, -1)),
        ],
    );
}

#[test]
fn differences_stop_at_the_upper_end(rt: HostRuntime) {
    check_all::<Tally>(
        &rt,
        &[
            Case(i32::MAX, 3, i32::MIN, 9, (i32::MAX, i32::MIN)),
            Case(0, 3, i32::MIN, 9, (i32::MAX, i32::MIN)),
            Case(-1, 3, i32::MIN, 9, (i32::MAX, i32::MIN)),
            Case(-2, 3, i32::MIN, 9, (2_147_483_646, i32::MIN)),
            Case(i32::MIN, 3, i32::MIN, 9, (0, i32::MIN)),
        ],
    );
}

#[test]
fn other_codes_change_neither_part(rt: HostRuntime) {
    assert_eq!(rt; Tally::CODES, 4);
    check_all::<Tally>(
        &rt,
        &[
            Case(7, 4, 3, 9, (7, 9)),
            Case(7, 5, 3, 9, (7, 9)),
            Case(7, 255, 3, 9, (7, 9)),
        ],
    );
}

#[test]
fn shows_itself(rt: HostRuntime) {
    assert_eq!(rt; Tally::show(&0), 0);
    assert_eq!(rt; Tally::show(&i32::MIN), -2_147_483_648);
    assert_eq!(rt; Tally::show(&i32::MAX), 2_147_483_647);
}
