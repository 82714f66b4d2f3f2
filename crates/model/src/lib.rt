// The theorems of the job table. Each stands on the contract of one small function, so that the check asks for its proof.
#![tactic(auto)]

ghost use Rattle.model.specs.Journal.{TableStands, RunsOneWay};
ghost use Rattle.model.specs.Examples.{ExamplesStand};

// After every list of calls on a new table the promise stands: each next call has one answer, the journal has the store's values,
// the jobs did what they do alone in some serial order, some unfinished job can always move,
// and every collect answered its job's register.
pub fn table_stands<V>()
    ensures { TableStands V }
{}

// A run alone has one course.
pub fn alone_runs_one_way<V>()
    ensures { RunsOneWay V }
{}

// Three small workloads keep the rules, and two have the one unlockable item that they should have.
pub fn examples_stand()
    ensures { ExamplesStand }
{}
