// What an item of the job table can be: a trait, and the two kinds that there are.
#![tactic(auto)]

pub mod kind;
pub mod slot;
pub mod tally;
