// A job that is to make a step, and what it looks up for that.
ghost use Rattle.std.specs.Prelude.{◌≡◌, ◌<◌, ◌≤◌, MatchOption};
ghost use Rattle.model.specs.Workload.{Above, Local, LocalChild, Takes, Terminal, Unlockable, choice};
ghost use Rattle.rules.specs.Plans.{Planned};
ghost use Rattle.rules.specs.Sets.{Exactly};
ghost use Rattle.workload.specs.View.{IsState, view};
ghost use Rattle.jobs.specs.View.{SoundRecord};

use crate::record::JobRecord;
use itemset::ItemSet;
use rules::plan::Plan;
use rules::state::State;
use workload::definition::Workload;

// A job under its workload. Its record is sound, so each look-up finds what it asks for.
#[derive(Clone, Copy)]
pub(crate) struct ActiveJob<'a> {
    pub(crate) workload: &'a Workload,
    pub(crate) job: &'a JobRecord,
    ghost sound: { SoundRecord (view workload.now) job.now },
}

// Which of `count` arcs a register takes: it is raised to 0 if below, and cut to the last if above.
fn arc_of(register: i32, count: u8) -> u8
    requires { 1 ≤ count }
    ensures { result ≡ choice register count }
{
    let last = count - 1;
    register.clamp(0, i32::from(last)) as u8
}

impl ActiveJob<'_> {
    // The plan of the job's type.
    pub(crate) fn plan(&self) -> &Plan
        ensures { Planned (view self.now.workload.now) self.now.job.now.job_type result.now }
    {
        self.workload.plan(self.job.job_type).unwrap()
    }

    // The job's state.
    pub(crate) fn state(&self) -> State
        ensures { IsState (view self.now.workload.now) self.now.job.now.job_type self.now.job.now.state result }
    {
        self.workload
            .state(self.job.job_type, self.job.state)
            .unwrap()
    }

    // The state to which the register leads; nothing where the job's state is terminal.
    pub(crate) fn next_state(&self) -> Option<u8>
        ensures { let W = view self.now.workload.now in let j = self.now.job.now in MatchOption result (Terminal W j.job_type j.state) (λ n. Takes W j.job_type j.state j.register n) }
    {
        let state = self.state();
        if state.arc_count == 0 {
            return None;
        }
        let arc = arc_of(self.job.register, state.arc_count);
        Some(state.arcs[arc as usize])
    }

    // The items on the way from the local root to the state's item.
    pub(crate) fn way(&self) -> ItemSet
        ensures { let W = view self.now.workload.now in let j = self.now.job.now in Exactly result (λ d. Local W j.job_type d × Above W d (W.item j.job_type j.state)) }
    {
        let above = self.workload.above(self.state().item).unwrap();
        self.plan().local.intersection(above)
    }

    // The items right below d in the local lock tree of the job's type.
    pub(crate) fn children(&self, d: u8) -> ItemSet
        requires { d < (view self.now.workload.now).items }
        ensures { Exactly result (LocalChild (view self.now.workload.now) self.now.job.now.job_type d) }
    {
        self.plan().children[d as usize]
    }

    // The unlockable set of state s of the job's type.
    pub(crate) fn unlockable(&self, s: u8) -> ItemSet
        requires { s < (view self.now.workload.now).states self.now.job.now.job_type }
        ensures { Exactly result (Unlockable (view self.now.workload.now) self.now.job.now.job_type s) }
    {
        self.plan().unlockable[s as usize]
    }
}
