// Writing workload files, and taking a workload through a file and a file through a workload.
#![tactic(auto)]

pub mod file;
mod put;
pub mod refusal;
pub mod trips;
