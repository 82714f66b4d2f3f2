ghost use Rattle.std.specs.Prelude.{◌≡◌, length};
ghost use Rattle.kinds.specs.View.{view};
ghost use Rattle.stores.specs.Works.{WorksAt};

use crate::store::{ShowingStore, WorkingStore};
use kinds::kind::Kind;

// The work of a job's state as the model has it, in any store of any kind.
// Answers the job's register afterwards, which is the old one where the store has no such item.
pub fn work_of_state<K: Kind, S: WorkingStore<K>>(
    store: &mut S,
    item: usize,
    code: u8,
    operand: i32,
    register: i32,
) -> i32
    ensures works { WorksAt (view K.Kind) item code operand (S.ShowingStore.values store.old) register (S.ShowingStore.values store.new) result }
    ensures length { length (S.ShowingStore.values store.new) ≡ length (S.ShowingStore.values store.old) }
    ensures outside { S.WorkingStore.stays store.old store.new }
{
    store
        .work(item, code, operand, register)
        .unwrap_or(register)
}
