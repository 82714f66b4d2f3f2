// Tests of the text of the program yard. They stand apart so that its crate is not proved twice.
#![tactic(auto)]

#[cfg(test)]
mod inputs;
#[cfg(test)]
mod lines;
#[cfg(test)]
mod reports;
