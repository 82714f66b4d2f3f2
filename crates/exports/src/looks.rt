// The sets of a file's job types and their local lock trees.
ghost use Rattle.std.specs.Prelude.{◌≡◌, ◌≤◌, ◌<◌, ◌⊎◌, length};
ghost use Rattle.exports.specs.Looks.{Finds, NoState, NoType, Shows, StateSets, TypeSets};

use crate::told::{DONE, End, NO_ROOM, NOTHING, end_of};
use itemset::ItemSet;
use sets::{local_items, local_root, unlockable, unreachable};
use std::alloc::Global;
use workload::file::load;

// What is told of a job type, beside its local lock tree.
#[repr(C)]
#[derive(Clone, Copy)]
pub struct TypeTold {
    pub end: End,
    pub states: u8,
    pub root: u8,
}

// What is told of no type.
fn no_type(end: End) -> TypeTold
    ensures { (result.end ≡ end) }
{
    TypeTold {
        end,
        states: 0,
        root: 0,
    }
}

// The most items of a workload: a row that shows a set has a place for each.
const ITEMS: usize = 64;

// Tells of each item whether the set holds it.
fn put_set(set: ItemSet, row: &mut [bool])
    requires { 64 ≤ length row.now }
    ensures { Shows set row.new }
{
    for d in 0..ITEMS {
        row[d] = set.contains(d as u8);
    }
}

// Tells of type t how many states it has, its local root, and the items of its local lock tree.
#[unsafe(no_mangle)]
pub extern "C" fn fadzrike_type(heap: Global, file: &[u8], t: u8, local: &mut [bool]) -> TypeTold
    ensures { Finds file.now (NoType t) (TypeSets t result local.new)
        (length local.old < 64) (local.new ≡ local.old)
        result.end }
{
    if local.len() < ITEMS {
        return no_type(NO_ROOM);
    }
    let workload = match load(heap, file) {
        Ok((workload, _span)) => workload,
        Err(fault) => return no_type(end_of(fault)),
    };
    let Some(states) = workload.state_count(t) else {
        return no_type(NOTHING);
    };
    let Some(root) = local_root(&workload, t) else {
        return no_type(NOTHING);
    };
    let Some(items) = local_items(&workload, t) else {
        return no_type(NOTHING);
    };
    put_set(items, local);
    TypeTold {
        end: DONE,
        states,
        root,
    }
}

// Tells the unreachable and the unlockable set of state s of type t.
#[unsafe(no_mangle)]
pub extern "C" fn fadzrike_state(
    heap: Global,
    file: &[u8],
    t: u8,
    s: u8,
    never: &mut [bool],
    left: &mut [bool],
) -> End
    ensures { Finds file.now (NoState t s) (StateSets t s never.new left.new)
        ((length never.old < 64) ⊎ (length left.old < 64)) ((never.new ≡ never.old) × (left.new ≡ left.old))
        result }
{
    if never.len() < ITEMS || left.len() < ITEMS {
        return NO_ROOM;
    }
    let workload = match load(heap, file) {
        Ok((workload, _span)) => workload,
        Err(fault) => return end_of(fault),
    };
    let Some(not_ahead) = unreachable(&workload, t, s) else {
        return NOTHING;
    };
    let Some(left_behind) = unlockable(&workload, t, s) else {
        return NOTHING;
    };
    put_set(not_ahead, never);
    put_set(left_behind, left);
    DONE
}
