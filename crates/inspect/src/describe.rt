// What a workload holds, line by line.
use itemset::ItemSet;
use rules::state::State;
use sets::{local_items, local_root, unlockable, unreachable};
use std::alloc::{AllocError, Global};
use workload::definition::Workload;

// A line for an item, indented by its depth in the lock tree.
fn item_line(out: &mut String, item: u8, depth: u8) -> Result<(), AllocError> {
    for _ in 0..depth {
        write!(out, "  ")?;
    }
    writeln!(out, "  {item}")
}

// An item and what of the set lies below it, of which `levels` levels are told at the most.
fn subtree(
    out: &mut String,
    workload: &Workload,
    set: ItemSet,
    item: u8,
    depth: u8,
    levels: u8,
) -> Result<(), AllocError> {
    item_line(out, item, depth)?;
    if levels == 0 {
        return Ok(());
    }
    for child in 0..workload.item_count() {
        if set.contains(child) && workload.parent(child) == Some(item) {
            subtree(
                out,
                workload,
                set,
                child,
                depth.saturating_add(1),
                levels - 1,
            )?;
        }
    }
    Ok(())
}

// The lock tree, from its root down.
fn tree(out: &mut String, workload: &Workload) -> Result<(), AllocError> {
    writeln!(out, "lock tree, each item below its parent:")?;
    let items = workload.item_count();
    for item in 0..items {
        if workload.parent(item).is_none() {
            subtree(out, workload, ItemSet::below(items), item, 0, items)?;
        }
    }
    Ok(())
}

// The local lock tree of a type.
fn local_tree(out: &mut String, workload: &Workload, t: u8) -> Result<(), AllocError> {
    writeln!(out, "  local lock tree:")?;
    if let (Some(root), Some(items)) = (local_root(workload, t), local_items(workload, t)) {
        subtree(out, workload, items, root, 1, workload.item_count())?;
    }
    Ok(())
}

// The items of a set, under its name.
fn set_line(out: &mut String, name: &str, set: Option<ItemSet>) -> Result<(), AllocError> {
    let items = set.unwrap_or(ItemSet::empty());
    if items.is_empty() {
        return writeln!(out, "    {name}: none");
    }
    write!(out, "    {name}:")?;
    for item in (0..64u8).filter(|item| items.contains(*item)) {
        write!(out, " {item}")?;
    }
    writeln!(out)
}

// Where a state leads to.
fn arcs(out: &mut String, state: &State) -> Result<(), AllocError> {
    if state.arc_count == 0 {
        return writeln!(out, ", terminal");
    }
    write!(out, ", arcs to")?;
    for arc in state.arcs.iter().take(state.arc_count as usize) {
        write!(out, " {arc}")?;
    }
    writeln!(out)
}

// A state, and what cannot be reached from it or has just become so.
fn state_lines(out: &mut String, workload: &Workload, t: u8, s: u8) -> Result<(), AllocError> {
    if let Some(state) = workload.state(t, s) {
        let State {
            item,
            code,
            operand,
            ..
        } = state;
        write!(
            out,
            "  state {s}: item {item}, code {code}, operand {operand}"
        )?;
        arcs(out, &state)?;
    }
    set_line(out, "unreachable", unreachable(workload, t, s))?;
    set_line(out, "unlockable", unlockable(workload, t, s))
}

// A job type with its local lock tree and its states.
fn job_type(out: &mut String, workload: &Workload, t: u8) -> Result<(), AllocError> {
    let count = workload.state_count(t).unwrap_or(0);
    writeln!(out, "type {t}, states {count}:")?;
    local_tree(out, workload, t)?;
    for s in 0..count {
        state_lines(out, workload, t, s)?;
    }
    Ok(())
}

// The whole workload, and how long the note beside it is.
pub fn describe(heap: Global, workload: &Workload, note: usize) -> Result<String, AllocError> {
    let mut text = String::new(heap);
    let out = &mut text;
    let items = workload.item_count();
    let codes = workload.code_count();
    let types = workload.type_count();
    writeln!(
        out,
        "items {items}, codes {codes}, types {types}, note of {note} bytes"
    )?;
    tree(out, workload)?;
    for t in 0..types {
        job_type(out, workload, t)?;
    }
    Ok(text)
}

#[cfg(test)]
mod tests {
    use super::*;
    use std::test::Fail;
    use workload::file::load;

    // A file of a chain of 64 items, whose root is the last: one type, which works at the root and then at the leaf, and no note.
    fn chain(heap: Global) -> Result<Vec<u8>, AllocError> {
        let mut bytes = Vec::from_slice(heap, b"TLW\0\x01\x40\x01\x01")?;
        for parent in 1..64 {
            bytes.push(parent)?;
        }
        bytes.extend_from_slice(b"\xff\x02\x3f\0\0\0\0\0\x01\x01\0\0\0")?;
        bytes.extend_from_slice(&[0; 13])?;
        Ok(bytes)
    }

    // Lines of the chain's items behind a front, each two blanks deeper than the one before.
    fn stairs(heap: Global, front: &str) -> Result<String, AllocError> {
        let mut text = String::new(heap);
        for depth in 0..64u8 {
            let item = 63 - depth;
            text.push_str(front)?;
            for _ in 0..depth {
                text.push_str("  ")?;
            }
            writeln!(&mut text, "{item}")?;
        }
        Ok(text)
    }

    // A line of a set of the items from 1 up to the last.
    fn up_to(heap: Global, last: u8) -> Result<String, AllocError> {
        let mut text = String::from_str(heap, "    unreachable:")?;
        for item in 1..=last {
            write!(&mut text, " {item}")?;
        }
        text.push('\n')?;
        Ok(text)
    }

    #[test]
    fn a_chain_is_told_down_to_its_leaf(rt: HostRuntime) -> Result<(), Fail> {
        let heap = rt.alloc();
        let (workload, _span) = load(heap, chain(heap)?.as_slice())?;
        let mut expected = String::new(heap);
        expected.push_str("items 64, codes 1, types 1, note of 0 bytes\n")?;
        expected.push_str("lock tree, each item below its parent:\n")?;
        expected.push_str(stairs(heap, "  ")?.as_str())?;
        expected.push_str("type 0, states 2:\n  local lock tree:\n")?;
        expected.push_str(stairs(heap, "    ")?.as_str())?;
        expected.push_str("  state 0: item 63, code 0, operand 0, arcs to 1\n")?;
        expected.push_str(up_to(heap, 62)?.as_str())?;
        expected.push_str("    unlockable: none\n")?;
        expected.push_str("  state 1: item 0, code 0, operand 0, terminal\n")?;
        expected.push_str(up_to(heap, 63)?.as_str())?;
        expected.push_str("    unlockable: 63\n")?;
        assert_eq!(rt; describe(heap, &workload, 0)?.as_str(), expected.as_str());
        Ok(())
    }
}
