//! Making a graph.
ghost use Rattle.std.specs.Prelude.{◌≡◌, ℕ, ◌-◌, ◌<◌, ◌≤◌, true, not, ◌&&◌, None, nat_lt};
ghost use Rattle.base.specs.JobSets.{has};
ghost use Rattle.base.specs.Questions.{Asks, first_no};
ghost use Rattle.graph.specs.Rules.{precedes, has_succ, Lawful};
ghost use Rattle.graph.specs.Making.{sizes_asked, preds_lawful, job_asked, jobs_asked, succs_asked, making, AllBelow, LowerBelow, Made, Makes, Single, Cleared, HasParts};

use super::Graph;
use crate::draft::Draft;
use crate::limits::Limit;
use base::fault::Fault;
use base::job_set::JobSet;

impl Graph {
    /// One job of one minute, one crew, and a layover of one minute: a graph to begin with.
    pub fn smallest() -> Graph
        ensures { Single 1 result }
    {
        single(1)
    }

    /// The graph that has the parts of the draft, or the first question about them that is answered no: 3, 4 and 5, then 6 and 7
    /// of each job, where 7 also asks for lower numbers, and then 8.
    pub fn make(draft: &Draft) -> Result<Graph, Fault>
        ensures { Makes draft.now result }
    {
        let asked = ask_all(draft)?;
        Ok(asked.build())
    }
}

// One job of so many minutes, one crew, and a layover of one minute.
fn single(minutes: u16) -> Graph
    requires { (1 ≤ minutes) × (minutes ≤ 1440) }
    ensures { Single minutes result }
{
    let mut times = [0; 64];
    times[0] = minutes;
    whole(&Draft {
        jobs: 1,
        crews: 1,
        layover: 1,
        times,
        preds: [JobSet::empty(); 64],
    })
}

// Asks all questions about a draft.
#[tactic(auto, using(base::proofs::Asking::refused, base::proofs::Asking::all_passed, base::proofs::Asking::one_failed), unfolding(crate::specs::Making::making))]
fn ask_all(draft: &Draft) -> Result<SizedDraft<'_>, Fault>
    ensures { Asks (making draft.now) (λ s. (s.parts.now ≡ draft.now) × LowerBelow draft.now.preds draft.now.jobs) (Unit {0}) result }
{
    let sized = ask_sizes(draft)?;
    sized.ask_jobs()?;
    sized.ask_succs()?;
    Ok(sized)
}

// Questions 3, 4 and 5.
#[tactic(auto, using(base::proofs::Asking::refused), unfolding(crate::specs::Making::sizes_asked, base::specs::Questions::first_no))]
fn ask_sizes(draft: &Draft) -> Result<SizedDraft<'_>, Fault>
    ensures { Asks (sizes_asked draft.now.jobs draft.now.crews draft.now.layover) (λ s. s.parts.now ≡ draft.now) (Unit {0}) result }
{
    let jobs = u32::from(draft.jobs);
    let crews = u32::from(draft.crews);
    Limit::Jobs.ask(jobs, Fault::JobsOutOfRange { value: jobs })?;
    Limit::Crews.ask(crews, Fault::CrewsOutOfRange { value: crews })?;
    Limit::Layover.ask(
        draft.layover,
        Fault::LayoverOutOfRange {
            value: draft.layover,
        },
    )?;
    Ok(SizedDraft { parts: draft })
}

// A draft whose number of jobs was found in range.
#[derive(Clone, Copy)]
struct SizedDraft<'a> {
    parts: &'a Draft,
    ghost some: { 1 ≤ parts.now.jobs },
    ghost few: { parts.now.jobs ≤ 64 },
}

impl SizedDraft<'_> {
    // Questions 6 and 7 of each job.
    #[tactic(auto, using(base::proofs::Asking::asked_none, base::proofs::Asking::asked_more))]
    fn ask_jobs(self) -> Result<(), Fault>
        ensures { Asks (jobs_asked self.entry.parts.now.times self.entry.parts.now.preds self.entry.parts.now.jobs) (λ _. LowerBelow self.entry.parts.now.preds self.entry.parts.now.jobs) (Unit {0}) result }
    {
        // A loop, for its `?`: `(0..n).try_for_each(|v| ask_job(..))` says the same in as many words.
        for v in 0..self.parts.jobs {
            ask_job(
                self.parts.times[usize::from(v)],
                self.parts.preds[usize::from(v)],
                v,
            )?;
        }
        Ok(())
    }

    // Question 8 of each job but the last.
    #[tactic(auto, using(crate::proofs::Asked::all_succs, crate::proofs::Asked::no_succ))]
    fn ask_succs(self) -> Result<(), Fault>
        ensures { Asks (succs_asked (precedes self.entry.parts.now.preds) self.entry.parts.now.jobs) (λ _. Unit {0}) (Unit {0}) result }
    {
        match self.without_succ().lowest() {
            Some(job) => Err(Fault::NoSuccessor { job }),
            None => Ok(()),
        }
    }

    // The jobs, but for the last, that have no successor.
    fn without_succ(self) -> JobSet
        ensures { (u : ℕ) → has result.bits u ≡ (nat_lt u (self.entry.parts.now.jobs - 1) && not (has_succ (precedes self.entry.parts.now.preds) self.entry.parts.now.jobs u)) }
    {
        JobSet::below(self.parts.jobs - 1).difference(self.with_succ())
    }

    // The jobs that have a successor.
    fn with_succ(self) -> JobSet
        ensures { (u : ℕ) → has result.bits u ≡ has_succ (precedes self.entry.parts.now.preds) self.entry.parts.now.jobs u }
    {
        self.parts
            .preds
            .iter()
            .take(usize::from(self.parts.jobs))
            .fold(JobSet::empty(), |all, preds| all.union(*preds))
    }

    // The graph that has these parts, about which all questions hold.
    #[tactic(auto, using(crate::proofs::Keeping::lawful))]
    fn build(self) -> Graph
        requires all_hold { first_no (making self.parts.now) ≡ None }
        requires lower { LowerBelow self.parts.now.preds self.parts.now.jobs }
        ensures { Made self.entry.parts.now result }
    {
        whole(&self.cleared())
    }

    // The draft with nothing from `jobs` up.
    fn cleared(self) -> Draft
        ensures { Cleared self.entry.parts.now result }
    {
        let jobs = usize::from(self.parts.jobs);
        let mut times = [0; 64];
        times[..jobs].copy_from_slice(&self.parts.times[..jobs]);
        let mut preds = [JobSet::empty(); 64];
        preds[..jobs].copy_from_slice(&self.parts.preds[..jobs]);
        Draft {
            times,
            preds,
            ..*self.parts
        }
    }
}

// Questions 6 and 7 of job `v`, which has this longest time and these predecessors.
#[tactic(auto, using(base::proofs::Asking::refused), unfolding(crate::specs::Making::job_asked, base::specs::Questions::first_no))]
fn ask_job(time: u16, preds: JobSet, v: u8) -> Result<(), Fault>
    requires { v < 64 }
    ensures { Asks (job_asked time preds.bits v) (λ _. AllBelow preds.bits v) (Unit {0}) result }
{
    Limit::Time.ask(u32::from(time), Fault::TimeOutOfRange { job: v })?;
    if !are_lawful(preds, v) {
        return Err(Fault::NoPredecessor { job: v });
    }
    Ok(())
}

// Whether these may be the predecessors of job `v`: lower numbers, and at least one unless `v` is 0.
#[tactic(auto, using(crate::proofs::Asked::in_below, crate::proofs::Asked::of_first, crate::proofs::Asked::of_other))]
fn are_lawful(preds: JobSet, v: u8) -> bool
    requires { v < 64 }
    ensures value { result ≡ preds_lawful preds.bits v }
    ensures below { result ≡ true → AllBelow preds.bits v }
{
    preds.is_subset(JobSet::below(v)) && (v == 0 || !preds.is_empty())
}

// The graph that has just these parts, which keep the rules.
fn whole(parts: &Draft) -> Graph
    requires { Lawful parts.now.jobs parts.now.crews parts.now.layover parts.now.times parts.now.preds }
    ensures { HasParts parts.now result }
{
    Graph {
        jobs: parts.jobs,
        crews: parts.crews,
        layover: parts.layover,
        times: parts.times,
        preds: parts.preds,
    }
}
