// What is kept of a job, and what a step of it tells.
use itemset::ItemSet;

// One job.
#[derive(Clone, Copy, PartialEq, Eq, Debug)]
pub struct JobRecord {
    pub job_type: u8,
    pub state: u8,
    // whether it has worked in its state
    pub worked: bool,
    // the one number that it carries from work to work
    pub register: i32,
    // the items that it holds, and all that it ever locked
    pub held: ItemSet,
    pub locked: ItemSet,
    // the items that it may lock next: it never locked them, and they are its local root or right below a locked item
    // in its local lock tree
    pub next: ItemSet,
    // the items that it will not need again
    pub done: ItemSet,
    pub finished: bool,
    // whether the one who began it has neither collected nor left it yet
    pub awaited: bool,
}

// What a step tells: an item, or the new state; of a wait also the place of the holder.
#[derive(Clone, Copy, PartialEq, Eq, Debug)]
pub enum StepAnswer {
    Released(u8),
    Worked(u8),
    Locked(u8),
    Waiting(u8, u8),
    Gone(u8),
    Finished,
}

// Why no job is entered at a place. The place is looked at first, then the type, then whether the place is taken.
#[derive(Clone, Copy, PartialEq, Eq, Debug)]
pub enum EnterError {
    NoSuchPlace,
    NoSuchType,
    PlaceTaken,
}
