// The job table: begin, step, collect and leave, and any list of them, with the whole promise.
#![tactic(auto)]

pub mod answer;
mod calls;
pub mod definition;
pub mod lists;
pub mod rows;
pub mod ticket;
