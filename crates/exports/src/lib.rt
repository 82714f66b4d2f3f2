// The library for callers in other languages: files are read and taken round, lists of calls are made, and the text of yard is told, each by one call.
// Numbers and slices of plain data cross, and no handle does; so each call reads the file that it is given.
// Nothing checks a caller in another language: it brings slices as Rust has them, of which the writable ones do not overlap.
#![tactic(auto)]

mod files;
mod joined;
mod looks;
mod plain;
mod rounds;
mod runs;
mod told;
mod writes;
mod yard;
