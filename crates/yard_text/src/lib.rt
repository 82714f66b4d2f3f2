// The text of the program yard: the calls that its input asks for, and the words that it prints.
#![tactic(auto)]

pub mod input;
pub mod report;
pub mod word;
