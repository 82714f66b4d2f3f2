// The stores that the job table works on: what every store promises, a store over a row, and two stores as one.
#![tactic(auto)]

pub mod joined;
pub mod row;
pub mod state_work;
pub mod store;
