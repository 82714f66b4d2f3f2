// What the sets of small workloads hold.
use crate::checks;
use crate::files::{chain, state, workload_of};
use itemset::ItemSet;
use rules::state::State;
use sets::{local_items, local_root, unlockable, unreachable};
use std::process::Abort;
use std::test::Fail;

// A state that names the item, with code and operand 0.
fn node(item: u8, arcs: &[u8]) -> State {
    state(item, 0, 0, arcs)
}

// That the set is there and holds exactly these numbers.
fn holds(rt: &impl Abort, set: Option<ItemSet>, members: &[u8]) -> Result<(), Fail> {
    checks::holds(rt, set.ok_or("no set")?, members);
    Ok(())
}

#[test]
fn a_way_down_unlocks_what_it_passed(rt: HostRuntime) -> Result<(), Fail> {
    let w = workload_of(
        rt.alloc(),
        1,
        &[255, 0, 0, 1],
        &[node(1, &[1]), node(3, &[])],
    )?;
    holds(&rt, unreachable(&w, 0, 0), &[0, 2])?;
    holds(&rt, unreachable(&w, 0, 1), &[0, 1, 2])?;
    holds(&rt, unlockable(&w, 0, 0), &[])?;
    holds(&rt, unlockable(&w, 0, 1), &[1])?;
    assert_eq!(rt; local_root(&w, 0), Some(1));
    holds(&rt, local_items(&w, 0), &[1, 3])
}

#[test]
fn a_fork_unlocks_what_every_way_leaves(rt: HostRuntime) -> Result<(), Fail> {
    let nodes = [node(1, &[1, 2]), node(2, &[2]), node(3, &[])];
    let w = workload_of(rt.alloc(), 1, &[255, 0, 0, 0], &nodes)?;
    holds(&rt, unlockable(&w, 0, 1), &[1])?;
    holds(&rt, unlockable(&w, 0, 2), &[2])?;
    assert_eq!(rt; local_root(&w, 0), Some(0));
    holds(&rt, local_items(&w, 0), &[0, 1, 2, 3])
}

#[test]
fn a_circle_keeps_its_items_reachable(rt: HostRuntime) -> Result<(), Fail> {
    let nodes = [node(1, &[1]), node(2, &[2]), node(3, &[1, 3]), node(0, &[])];
    let w = workload_of(rt.alloc(), 1, &[255, 0, 0, 0], &nodes)?;
    holds(&rt, unreachable(&w, 0, 1), &[1])?;
    holds(&rt, unreachable(&w, 0, 2), &[1])?;
    holds(&rt, unlockable(&w, 0, 1), &[])?;
    holds(&rt, unlockable(&w, 0, 2), &[])?;
    holds(&rt, unlockable(&w, 0, 3), &[2, 3])
}

#[test]
fn a_state_with_an_arc_to_itself(rt: HostRuntime) -> Result<(), Fail> {
    let nodes = [node(1, &[1]), node(2, &[1, 2]), node(0, &[])];
    let w = workload_of(rt.alloc(), 1, &[255, 0, 1], &nodes)?;
    holds(&rt, unlockable(&w, 0, 1), &[])?;
    holds(&rt, unlockable(&w, 0, 2), &[2])?;
    holds(&rt, unreachable(&w, 0, 2), &[1, 2])
}

#[test]
fn one_item_is_a_local_tree(rt: HostRuntime) -> Result<(), Fail> {
    let nodes = [node(2, &[1]), node(2, &[])];
    let w = workload_of(rt.alloc(), 1, &[255, 0, 1, 2], &nodes)?;
    assert_eq!(rt; local_root(&w, 0), Some(2));
    holds(&rt, local_items(&w, 0), &[2])?;
    holds(&rt, unreachable(&w, 0, 1), &[0, 1, 3])
}

#[test]
fn a_local_root_that_no_state_names(rt: HostRuntime) -> Result<(), Fail> {
    let nodes = [node(4, &[1]), node(3, &[])];
    let w = workload_of(rt.alloc(), 1, &[255, 0, 1, 2, 1, 0], &nodes)?;
    assert_eq!(rt; local_root(&w, 0), Some(1));
    holds(&rt, local_items(&w, 0), &[1, 2, 3, 4])
}

#[test]
fn what_is_not_there_has_no_sets(rt: HostRuntime) -> Result<(), Fail> {
    let w = workload_of(rt.alloc(), 1, &[255], &[node(0, &[])])?;
    assert!(rt; unreachable(&w, 0, 1).is_none());
    assert!(rt; unlockable(&w, 1, 0).is_none());
    assert!(rt; unlockable(&w, 0, 255).is_none());
    assert!(rt; local_items(&w, 1).is_none());
    assert_eq!(rt; local_root(&w, 255), None);
    Ok(())
}

#[test]
fn sixty_four_items_in_a_chain(rt: HostRuntime) -> Result<(), Fail> {
    let parents = chain(rt.alloc(), 64)?;
    let nodes = [node(2, &[1]), node(63, &[2]), node(62, &[])];
    let w = workload_of(rt.alloc(), 1, parents.as_slice(), &nodes)?;
    assert_eq!(rt; local_root(&w, 0), Some(2));
    let items = local_items(&w, 0).ok_or("no set")?;
    for d in 0..64u8 {
        assert_eq!(rt; items.contains(d), d >= 2);
    }
    holds(&rt, unlockable(&w, 0, 1), &[2])?;
    holds(&rt, unlockable(&w, 0, 2), &[63])
}

#[test]
fn sixty_four_items_in_a_star(rt: HostRuntime) -> Result<(), Fail> {
    let mut parents = [63u8; 64];
    parents[63] = 255;
    let nodes = [node(0, &[1]), node(62, &[])];
    let w = workload_of(rt.alloc(), 1, &parents, &nodes)?;
    assert_eq!(rt; local_root(&w, 0), Some(63));
    holds(&rt, local_items(&w, 0), &[0, 62, 63])?;
    holds(&rt, unlockable(&w, 0, 1), &[0])
}
