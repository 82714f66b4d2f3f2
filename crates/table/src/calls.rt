// The four calls on a table. Each is the model's relation between the table before, the call, the answer and the table after.
ghost use Rattle.std.specs.Prelude.{◌≡◌, Decides, IfErr, IfOk, MatchOption};
ghost use Rattle.kinds.specs.View.{view as kind_view};
ghost use Rattle.model.specs.Table.{Fits, NoneAwaited, begin, collect as collects_at, leave as leaves_at, step as steps_at};
ghost use Rattle.table.specs.Answers.{Moved, begin_answer, collect_answer, leave_answer, step_answer};
ghost use Rattle.table.specs.View.{Awaited, Keeps, graph, view};

use crate::answer::Refusal;
use crate::definition::Table;
use crate::ticket::Ticket;
use jobs::record::{JobRecord, StepAnswer};
use kinds::kind::Kind;
use stores::store::{ShowingStore, WorkingStore};

impl<K: Kind, S: WorkingStore<K>> Table<K, S> {
    // Whether the store has as many items, and its kind as many codes, as the workload.
    pub fn fitting(&self) -> bool
        ensures { Decides result (Fits (graph self.now) (kind_view K.Kind) (view S.ShowingStore self.now)) }
    {
        let workload = self.shift.workload();
        workload.item_count() as usize <= self.store.len() && workload.code_count() <= K::CODES
    }

    // Puts a job of a type at an empty place, in its state 0 with the argument as its register, and gives a ticket of the place.
    #[tactic(auto, using(model::specs::Table::begin_unfit))]
    pub fn begin(&mut self, place: u8, job_type: u8, argument: i32) -> Result<Ticket, Refusal>
        ensures moves { Moved K.Kind S.ShowingStore self.old (begin place job_type argument) (begin_answer result) self.new }
        ensures ticket { IfOk result (λ t. t.place ≡ place) }
        ensures kept { Keeps S.WorkingStore.own self.old self.new }
    {
        if !self.fitting() {
            return Err(Refusal::Misfit);
        }
        self.shift.enter(place, job_type, argument)?;
        Ok(Ticket::new(place))
    }

    // The unfinished job at a place makes one step.
    #[tactic(auto, using(model::specs::Table::step_no_place))]
    pub fn step(&mut self, place: u8) -> Result<StepAnswer, Refusal>
        ensures moves { Moved K.Kind S.ShowingStore self.old (steps_at place) (step_answer result) self.new }
        ensures kept { Keeps S.WorkingStore.own self.old self.new }
    {
        if place >= 16 {
            return Err(Refusal::NoSuchPlace);
        }
        self.shift
            .step::<K, S>(&mut self.store, place)
            .ok_or(Refusal::NoJob)
    }

    // The job at a place, if its begin awaits its collect or leave.
    fn awaited(&self, place: u8) -> Option<JobRecord>
        ensures { MatchOption result (NoneAwaited (view S.ShowingStore self.now) place) (Awaited self.now place) }
    {
        self.shift.at(place).filter(|job| job.awaited)
    }

    // Answers a finished job's register and empties its place. A refusal hands the ticket back.
    #[tactic(auto, using(model::specs::Table::collect_none))]
    pub fn collect(&mut self, ticket: Ticket) -> Result<i32, (Refusal, Ticket)>
        ensures moves { Moved K.Kind S.ShowingStore self.old (collects_at ticket.place) (collect_answer result) self.new }
        ensures back { IfErr result (λ e. e.1 ≡ ticket) }
        ensures kept { Keeps S.WorkingStore.own self.old self.new }
    {
        let place = ticket.place();
        let Some(job) = self.awaited(place) else {
            return Err((Refusal::NotAwaited, ticket));
        };
        if !job.finished {
            return Err((Refusal::NotFinished, ticket));
        }
        self.shift.clear(place);
        ticket.spend();
        Ok(job.register)
    }

    // Takes the ticket. A finished job's place empties; an unfinished job goes on, and its place empties with its last step.
    #[tactic(auto, using(model::specs::Table::leave_none))]
    pub fn leave(&mut self, ticket: Ticket) -> Result<(), Refusal>
        ensures moves { Moved K.Kind S.ShowingStore self.old (leaves_at ticket.place) (leave_answer result) self.new }
        ensures kept { Keeps S.WorkingStore.own self.old self.new }
    {
        let place = ticket.place();
        ticket.spend();
        let Some(job) = self.awaited(place) else {
            return Err(Refusal::NotAwaited);
        };
        if job.finished {
            self.shift.clear(place);
        } else {
            self.shift.unawait(place);
        }
        Ok(())
    }
}
