// Lists of calls.
ghost use Rattle.std.specs.Prelude.{◌≡◌, length, IfOk, MatchResult};
ghost use Rattle.model.specs.Journal.{New};
ghost use Rattle.table.specs.Answers.{LeadsOn, Moved, PromisedBy, PromisedOn, ReachedBy, answer_view, call_view};
ghost use Rattle.table.specs.Room.{IsRoom};
ghost use Rattle.table.specs.View.{Keeps, view};

use crate::answer::{Answer, Call};
use crate::definition::Table;
use crate::ticket::Ticket;
use kinds::kind::Kind;
use std::alloc::{AllocError, Global};
use stores::store::{ShowingStore, WorkingStore};
use workload::definition::Workload;

impl<K: Kind, S: WorkingStore<K>> Table<K, S> {
    // One call of a list. A ticket counts by its place alone, so one is made for each collect and leave.
    pub fn call(&mut self, call: Call) -> Answer
        ensures moves { Moved K.Kind S.ShowingStore self.old (call_view call) (answer_view result) self.new }
        ensures kept { Keeps S.WorkingStore.own self.old self.new }
    {
        match call {
            Call::Begin(place, job_type, argument) => self
                .begin(place, job_type, argument)
                .map_or_else(Answer::Refused, |ticket| {
                    ticket.spend();
                    Answer::Began
                }),
            Call::Step(place) => self
                .step(place)
                .map_or_else(Answer::Refused, Answer::Stepped),
            Call::Collect(place) => self.collect(Ticket::new(place)).map_or_else(
                |(why, back)| {
                    back.spend();
                    Answer::Refused(why)
                },
                Answer::Collected,
            ),
            Call::Leave(place) => self
                .leave(Ticket::new(place))
                .map_or_else(Answer::Refused, |()| Answer::Left),
        }
    }

    // Makes each call in order, and puts its answer into the empty row, which has room for all.
    pub(crate) fn perform_in(&mut self, room: Vec<Answer>, calls: &[Call]) -> Vec<Answer>
        requires { IsRoom (length calls.now) room }
        ensures kept { Keeps S.WorkingStore.own self.old self.new }
        ensures each { length result.items ≡ length calls.now }
        ensures leads { LeadsOn K.Kind S.ShowingStore self.old calls.now result.items self.new }
        ensures promised { PromisedOn K.Kind S.ShowingStore self.old calls.now result.items self.new }
    {
        let mut answers = room;
        for call in calls {
            let answer = self.call(*call);
            answers.push_reserved(answer);
        }
        answers
    }

    // Makes each call in order, and gives its answer. Without memory for the answers it makes none.
    // Whatever calls led to the table: with these calls and their answers, the promise stands.
    pub fn perform(&mut self, heap: Global, calls: &[Call]) -> Result<Vec<Answer>, AllocError>
        ensures kept { Keeps S.WorkingStore.own self.old self.new }
        ensures each { IfOk result (λ v. length v.items ≡ length calls.now) }
        ensures leads { MatchResult result (λ v. LeadsOn K.Kind S.ShowingStore self.old calls.now v.items self.new) (λ _. self.new ≡ self.old) }
        ensures promised { IfOk result (λ v. PromisedOn K.Kind S.ShowingStore self.old calls.now v.items self.new) }
    {
        let room = Vec::with_capacity(heap, calls.len())?;
        Ok(self.perform_in(room, calls))
    }
}

// Makes each call in order on a new table. Without memory for the answers the table stays new.
fn perform_on_new<K: Kind, S: WorkingStore<K>>(
    table: Table<K, S>,
    heap: Global,
    calls: &[Call],
) -> (Table<K, S>, Result<Vec<Answer>, AllocError>)
    requires { New (S.ShowingStore.values table.store) (view S.ShowingStore table) }
    ensures each { IfOk result.1 (λ v. length v.items ≡ length calls.now) }
    ensures reached { MatchResult result.1 (λ v. ReachedBy K.Kind S.ShowingStore table.store table.shift.workload calls.now v.items result.0) (λ _. New (S.ShowingStore.values table.store) (view S.ShowingStore result.0)) }
    ensures promise { IfOk result.1 (λ v. PromisedBy K.Kind S.ShowingStore table.store table.shift.workload calls.now v.items result.0) }
    ensures workload { result.0.shift.workload ≡ table.shift.workload }
    ensures outside { S.WorkingStore.stays table.store result.0.store }
{
    let mut table = table;
    let answers = table.perform(heap, calls);
    (table, answers)
}

// Makes a new table of the store and the workload, and each call in order: the answers and the table are reached by these calls,
// and the promise stands. Without memory for the answers the table is new.
pub fn run<K: Kind, S: WorkingStore<K>>(
    store: S,
    workload: Workload,
    heap: Global,
    calls: &[Call],
) -> (Table<K, S>, Result<Vec<Answer>, AllocError>)
    ensures each { IfOk result.1 (λ v. length v.items ≡ length calls.now) }
    ensures reached { MatchResult result.1 (λ v. ReachedBy K.Kind S.ShowingStore store workload calls.now v.items result.0) (λ _. New (S.ShowingStore.values store) (view S.ShowingStore result.0)) }
    ensures promise { IfOk result.1 (λ v. PromisedBy K.Kind S.ShowingStore store workload calls.now v.items result.0) }
    ensures workload { result.0.shift.workload ≡ workload }
    ensures outside { S.WorkingStore.stays store result.0.store }
{
    perform_on_new(Table::new(store, workload), heap, calls)
}
