// Jobs: their records, one step of a job, and the sixteen places of a table.
#![tactic(auto)]

mod active;
mod change;
mod changes;
mod going;
mod places;
pub mod record;
pub mod shift;
mod stepping;
mod turns;
mod wanting;
