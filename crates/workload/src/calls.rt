// What a workload tells of itself: each call is a look-up.
ghost use Rattle.std.specs.Prelude.{◌≡◌, ◌<◌, ◌≤◌, true, [], vec_items, slice_index_or};
ghost use Rattle.model.specs.Workload.{Above, WellFormed};
ghost use Rattle.rules.specs.Sets.{Exactly};
ghost use Rattle.rules.specs.Plans.{Planned};
ghost use Rattle.workload.specs.Types.{all_states};
ghost use Rattle.workload.specs.View.{Answers, HasParent, HasState, IsState, view};

use crate::definition::{JobType, Workload};
use itemset::ItemSet;
use rules::plan::Plan;
use rules::state::State;
use rules::tree::ROOT_MARK;

impl Workload {
    // Every workload keeps the tree and state rules.
    pub fn keeps_rules(&self) -> bool
        ensures { (result ≡ true) × WellFormed (view self.now) }
    {
        true
    }

    pub fn item_count(&self) -> u8
        ensures value { result ≡ (view self.now).items }
        ensures range { (1 ≤ result) × (result ≤ 64) }
    {
        self.parents.len() as u8
    }

    pub fn code_count(&self) -> u8
        ensures { result ≡ (view self.now).codes }
    {
        self.code_count
    }

    pub fn type_count(&self) -> u8
        ensures value { result ≡ (view self.now).types }
        ensures range { (1 ≤ result) × (result ≤ 8) }
    {
        self.types.len() as u8
    }

    // The parent byte of each item, as a file has them.
    pub fn parent_bytes(&self) -> &[u8]
        ensures { result.now ≡ self.now.parents.items }
    {
        self.parents.as_slice()
    }

    // The job types, as they are held.
    pub fn job_types(&self) -> &[JobType]
        ensures { result.now ≡ self.now.types.items }
    {
        self.types.as_slice()
    }

    // The type t; nothing where there is no such type.
    fn job_type(&self, t: u8) -> Option<&JobType>
        ensures { Answers result (t < (view self.now).types) (λ j. (vec_items j.now.states ≡ slice_index_or (all_states self.now.types.items) t []) × Planned (view self.now) t j.now.plan) }
    {
        self.types.get(t as usize)
    }

    // How many states type t has; nothing where there is no such type.
    pub fn state_count(&self, t: u8) -> Option<u8>
        ensures { Answers result (t < (view self.now).types) (λ n. n ≡ (view self.now).states t) }
    {
        Some(self.job_type(t)?.states.len() as u8)
    }

    // The parent of item d; nothing where d is the root or no item.
    pub fn parent(&self, d: u8) -> Option<u8>
        ensures { Answers result (HasParent (view self.now) d) (λ p. p ≡ (view self.now).up d) }
    {
        let parent = *self.parents.get(d as usize)?;
        (parent != ROOT_MARK).then_some(parent)
    }

    // Item d and the items above it; nothing where there is no such item.
    pub fn above(&self, d: u8) -> Option<ItemSet>
        ensures { Answers result (d < (view self.now).items) (λ x. Exactly x (λ a. Above (view self.now) a d)) }
    {
        if d as usize >= self.parents.len() {
            return None;
        }
        Some(self.above[d as usize])
    }

    // State s of type t; nothing where there is no such state.
    pub fn state(&self, t: u8, s: u8) -> Option<State>
        ensures { Answers result (HasState (view self.now) t s) (IsState (view self.now) t s) }
    {
        self.job_type(t)?.states.get(s as usize).copied()
    }

    // The plan of type t: its local lock tree and the sets of its states; nothing where there is no such type.
    pub fn plan(&self, t: u8) -> Option<&Plan>
        ensures { Answers result (t < (view self.now).types) (λ p. Planned (view self.now) t p.now) }
    {
        Some(&self.job_type(t)?.plan)
    }
}
