// The theorems of tree locking. Each stands on the contract of one small function, so that the check asks for its proof.
#![tactic(auto)]

ghost use Rattle.locking.specs.Tree.{TreeOrder, TreePositions};
ghost use Rattle.locking.specs.Serial.{SerialLog, SerialEffect};
ghost use Rattle.locking.specs.Serializable.{TreeSerial};
ghost use Rattle.locking.specs.Progress.{Progress, NoDeadlock};
ghost use Rattle.locking.specs.Sample.{RulesKept};

// Jobs that lock by the tree have one serial order that agrees with every item's order of locks.
pub fn tree_order_stands()
    ensures { TreeOrder }
{}

// The same, by the position of each job.
pub fn tree_positions_stand()
    ensures { TreePositions }
{}

// The serial log, in an order that agrees with the log, is alike to the log: no item and no job can tell them apart.
pub fn serial_log_stands<P>()
    ensures { SerialLog P }
{}

// And it has the same effect on the values of the items.
pub fn serial_effect_stands<P, V>()
    ensures { SerialEffect P V }
{}

// Every run of tree locking is serializable.
pub fn tree_serial_stands<P, V>()
    ensures { TreeSerial P V }
{}

// While a job has not ended, some job can go on.
pub fn progress_stands()
    ensures { Progress }
{}

// Jobs never all wait for one another.
pub fn no_deadlock_stands()
    ensures { NoDeadlock }
{}

// A small run keeps all the rules, so the theorems do not speak of nothing.
pub fn rules_can_be_kept()
    ensures { RulesKept }
{}
