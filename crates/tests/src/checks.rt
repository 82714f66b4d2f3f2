// What several tests ask of a value.
use itemset::ItemSet;
use std::process::Abort;

// That the set holds exactly these numbers.
pub fn holds(rt: &impl Abort, set: ItemSet, members: &[u8]) {
    for d in 0..=255u8 {
        assert_eq!(rt; set.contains(d), members.contains(&d));
    }
}
