// What can be reached from a state of a job type.
ghost use Rattle.std.specs.Prelude.{◌≡◌, ◌<◌, ◌≤◌, length, MatchOption};
ghost use Rattle.rules.specs.Rules.{AllPlaced, Arc, Leads, Placed, StraysAt, Terminal};
ghost use Rattle.rules.specs.Sets.{Exactly, Rows};

use crate::closure::{Relation, Way, only};
use crate::places::{below, places};
use crate::state::State;
use itemset::ItemSet;

// As many states as a job type may have.
const MOST_STATES: usize = 32;

// The states of a job type. It is a type beside `Tree`: one for both would lose the names of what they hold.
#[derive(Clone, Copy)]
pub(crate) struct Graph<'a> {
    pub(crate) states: &'a [State],
    ghost few: { length states.now ≤ 32 },
}

// The states below `count` that the arcs of a state lead to.
fn next_states(state: &State, count: usize) -> ItemSet
    requires { count ≤ 32 }
    ensures { Exactly result (λ m. (m < count) × Leads state.now m) }
{
    let mut next = ItemSet::empty();
    for k in 0..state.arc_count.min(4) as usize {
        let arc = state.arcs[k];
        if (arc as usize) < count {
            next.insert(arc);
        }
    }
    next
}

impl<'a> Graph<'a> {
    // Nothing where there are more states than a job type may have.
    pub(crate) fn of(states: &'a [State]) -> Option<Graph<'a>>
        ensures { MatchOption result (32 < length states.now) (λ graph. graph.states.now ≡ states.now) }
    {
        if states.len() > MOST_STATES {
            return None;
        }
        Some(Graph { states })
    }

    // The states to which state s has arcs; none where there is no such state.
    fn next(&self, s: usize) -> ItemSet
        ensures { Exactly result (Arc self.now.states.now s) }
    {
        match self.states.get(s) {
            Some(state) => next_states(state, self.states.len()),
            None => ItemSet::empty(),
        }
    }

    // For each state the states to which it has arcs.
    pub(crate) fn arcs(&self) -> Relation<32>
        ensures { Rows 32 result.rows (Arc self.now.states.now) }
    {
        Relation::from_fn(|s| self.next(s))
    }

    // The terminal states.
    fn ends(&self) -> ItemSet
        ensures { Exactly result (λ e. (e < length self.now.states.now) × Terminal self.now.states.now e) }
    {
        places(self.states, |state| state.arc_count == 0)
    }

    // The states that are reached from state 0 and reach a terminal state.
    fn placed(&self) -> ItemSet
        ensures { Exactly result (Placed self.now.states.now) }
    {
        let arcs = self.arcs();
        let count = self.states.len();
        let from_start = arcs.reached(count, Way::On, only(0));
        let to_end = arcs.reached(count, Way::Back, self.ends());
        from_start.intersection(to_end)
    }

    // The lowest state that is not placed.
    fn lowest_stray(&self) -> Option<usize>
        ensures { MatchOption result (AllPlaced self.now.states.now) (StraysAt self.now.states.now) }
    {
        let stray = below(self.states.len()).difference(self.placed()).lowest()?;
        Some(stray as usize)
    }
}

// The state that strays: the lowest that is not placed, or the first one past the limit;
// nothing where all hang together.
pub fn first_stray(states: &[State]) -> Option<usize>
    ensures { MatchOption result (AllPlaced states.now) (StraysAt states.now) }
{
    let Some(graph) = Graph::of(states) else {
        return Some(MOST_STATES);
    };
    graph.lowest_stray()
}
