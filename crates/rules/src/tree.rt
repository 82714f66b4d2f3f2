// The tree of items, as a row of parent bytes: each names the item right above, and 255 marks the root.
ghost use Rattle.std.specs.Prelude.{◌≡◌, ◌<◌, ◌≤◌, length, Decides, MatchOption, MatchResult, slice_index};
ghost use Rattle.rules.specs.Reach.{Reaches};
ghost use Rattle.rules.specs.Rules.{AllRooted, BreaksAt, Parent, RightParent};
ghost use Rattle.rules.specs.Sets.{ChildOf, Exactly, Rows};

use crate::closure::{Order, Relation};
use crate::places::{meet, places};
use itemset::ItemSet;

// The byte of the item that has no parent.
pub const ROOT_MARK: u8 = 255;

// As many items as a set can hold.
const MOST_ITEMS: usize = 64;

// The parent bytes of at most 64 items.
#[derive(Clone, Copy)]
pub(crate) struct Tree<'a> {
    pub(crate) parents: &'a [u8],
    ghost few: { length parents.now ≤ 64 },
}

impl<'a> Tree<'a> {
    // Nothing where there are more items than a set can hold.
    pub(crate) fn of(parents: &'a [u8]) -> Option<Tree<'a>>
        ensures { MatchOption result (64 < length parents.now) (λ tree. tree.parents.now ≡ parents.now) }
    {
        if parents.len() > MOST_ITEMS {
            return None;
        }
        Some(Tree { parents })
    }

    // All items.
    pub(crate) fn items(&self) -> ItemSet
        ensures { Exactly result (λ d. d < length self.now.parents.now) }
    {
        ItemSet::below(self.parents.len() as u8)
    }

    // The parent of item i, if there is such an item and its byte names one.
    fn parent_of(&self, i: usize) -> ItemSet
        ensures { Exactly result (Parent self.now.parents.now i) }
    {
        let mut parent = ItemSet::empty();
        if let Some(&p) = self.parents.get(i)
            && (p as usize) < self.parents.len()
        {
            parent.insert(p);
        }
        parent
    }

    // For each item itself and the items above it.
    pub(crate) fn above(&self) -> Relation<64>
        ensures { Rows 64 result.rows (Reaches (Parent self.now.parents.now)) }
    {
        let parents = Relation::from_fn(|i| self.parent_of(i));
        let mut above = Relation::selves();
        above.spread(&parents, self.parents.len(), Order::Up);
        above
    }

    // For each item its children.
    fn children(&self) -> Relation<64>
        ensures { Rows 64 result.rows (ChildOf self.now.parents.now) }
    {
        let mut rows = [ItemSet::empty(); 64];
        for (c, &d) in self.parents.iter().enumerate() {
            if d < 64 {
                rows[d as usize].insert(c as u8);
            }
        }
        Relation { rows }
    }

    // The items that have the root's mark.
    fn marked(&self) -> ItemSet
        ensures { Exactly result (λ j. (j < length self.now.parents.now) × (slice_index self.now.parents.now j ≡ 255)) }
    {
        places(self.parents, |&p| p == ROOT_MARK)
    }

    // Whether the byte of item i names an item, or marks the root and no lower item's does.
    fn right_byte(&self, i: usize) -> bool
        requires { i < length self.now.parents.now }
        ensures { Decides result (RightParent self.now.parents.now i) }
    {
        let p = self.parents[i];
        (p as usize) < self.parents.len()
            || (p == ROOT_MARK && !self.parents[..i].contains(&ROOT_MARK))
    }

    // The lowest item whose byte is wrong or whose way up never meets the root's mark; `above` has the ways up.
    fn lowest_unrooted(&self, above: &Relation<64>) -> Option<usize>
        requires { Rows 64 above.now.rows (Reaches (Parent self.now.parents.now)) }
        ensures { MatchOption result (AllRooted self.now.parents.now) (BreaksAt self.now.parents.now) }
    {
        let marked = self.marked();
        (0..self.parents.len()).find(|&i| !self.right_byte(i) || !meet(above.rows[i], marked))
    }
}

// A tree with, for each item, itself and the items above it, and its children, so that the plans of all job types over it share these.
#[derive(Drop)]
pub struct LockTree<'a> {
    pub(crate) tree: Tree<'a>,
    pub(crate) above: Relation<64>,
    pub(crate) children: Relation<64>,
    ghost above_are: { ∥ Rows 64 above.rows (Reaches (Parent tree.parents.now)) ∥₁ },
    ghost children_are: { Rows 64 children.rows (ChildOf tree.parents.now) },
}

impl<'a> LockTree<'a> {
    // The tree that the bytes make; or the item that breaks it: the lowest that is not rooted, or the first one past the limit.
    // That states hang together is told alike, but over definitions of its own.
    pub fn of(parents: &'a [u8]) -> Result<LockTree<'a>, usize>
        ensures { MatchResult result (λ lock. (lock.tree.parents.now ≡ parents.now) × AllRooted parents.now) (BreaksAt parents.now) }
    {
        let Some(tree) = Tree::of(parents) else {
            return Err(MOST_ITEMS);
        };
        let above = tree.above();
        if let Some(i) = tree.lowest_unrooted(&above) {
            return Err(i);
        }
        let children = tree.children();
        Ok(LockTree {
            tree,
            above,
            children,
        })
    }

    // The bytes that make it.
    pub fn parents(&self) -> &'a [u8]
        ensures { result.now ≡ self.now.tree.parents.now }
    {
        self.tree.parents
    }

    // For each item itself and the items above it.
    pub fn ways_up(&self) -> [ItemSet; 64]
        ensures { result ≡ self.now.above.rows }
    {
        self.above.rows
    }
}
