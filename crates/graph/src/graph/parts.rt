//! The parts of a graph, for whoever asks.
ghost use Rattle.std.specs.Prelude.{◌≡◌, ℕ, ◌≤◌, length};
ghost use Rattle.graph.specs.Graphs.{time_of, preds_of, is_pred};
ghost use Rattle.graph.specs.Rules.{precedes, Unpreceded};
ghost use Rattle.base.specs.JobSets.{has};

use super::Graph;
use base::job_set::JobSet;

impl Graph {
    /// How many jobs there are, 1 to 64.
    pub fn jobs(&self) -> u8
        ensures value { result ≡ self.now.jobs }
        ensures range { (1 ≤ result) × (result ≤ 64) }
    {
        self.jobs
    }

    /// How many crews there are, 1 to 16.
    pub fn crews(&self) -> u8
        ensures value { result ≡ self.now.crews }
        ensures range { (1 ≤ result) × (result ≤ 16) }
    {
        self.crews
    }

    /// How many minutes the train stands, 1 to 92,160.
    pub fn layover(&self) -> u32
        ensures value { result ≡ self.now.layover }
        ensures range { (1 ≤ result) × (result ≤ 92160) }
    {
        self.layover
    }

    /// The longest time of job `v`, 1 to 1,440 minutes, and 0 where there is no such job.
    pub fn time(&self, v: u8) -> u16
        ensures value { result ≡ time_of self.now v }
        ensures range { result ≤ 1440 }
    {
        if v < self.jobs {
            self.times[usize::from(v)]
        } else {
            0
        }
    }

    // As `time`, and no generic one for both: it would be handed the table, and what stands for no job.
    /// The predecessors of job `v`, and the empty set where there is no such job.
    pub fn preds(&self, v: u8) -> JobSet
        ensures { result.bits ≡ preds_of self.now v }
    {
        if v < self.jobs {
            self.preds[usize::from(v)]
        } else {
            JobSet::empty()
        }
    }

    /// The successors of job `v`: the jobs of which it is a predecessor.
    pub fn succs(&self, v: u8) -> JobSet
        ensures { (w : ℕ) → has result.bits w ≡ is_pred self.now v w }
    {
        self.preceded_by(v)
    }

    // The jobs that have `v` among their predecessors.
    fn preceded_by(&self, v: u8) -> JobSet
        ensures { (w : ℕ) → has result.bits w ≡ is_pred self.now v w }
    {
        (0..self.jobs)
            .filter(|&w| self.preds(w).contains(v))
            .fold(JobSet::empty(), JobSet::with)
    }
}
