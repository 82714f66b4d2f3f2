// Tests of what a workload file comes to: reading, writing, sets, jobs and the table. They stand apart, so that no crate
// is proved twice, and together, so that what builds their files stands once.
#![tactic(auto)]

#[cfg(test)]
mod checks;
#[cfg(test)]
mod files;
#[cfg(test)]
mod job_sets;
#[cfg(test)]
mod job_steps;
#[cfg(test)]
mod read_files;
#[cfg(test)]
mod table_calls;
#[cfg(test)]
mod write_files;
