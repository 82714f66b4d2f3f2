// Workloads: a tree of items and the job types over it, and the files that hold them.
#![tactic(auto)]

mod calls;
pub mod definition;
pub mod fault;
pub mod file;
mod plans;
mod read;
mod row;
mod start;
