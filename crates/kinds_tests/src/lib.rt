// Tests of the kinds and the stores on real values. They stand apart so that neither crate is proved twice.
#![tactic(auto)]

#[cfg(test)]
mod cases;
#[cfg(test)]
mod long_rows;
#[cfg(test)]
mod slots;
#[cfg(test)]
mod stores_joined;
#[cfg(test)]
mod tallies;
#[cfg(test)]
mod works_of_states;
