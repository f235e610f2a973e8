//! The work graph.
ghost use Rattle.std.specs.Prelude.{◌≡◌, ◌≤◌, length};
ghost use Rattle.graph.specs.Rules.{Timed, Untimed, Lower, Preceded, Succeeded, Unpreceded};

use base::job_set::JobSet;

mod equal;
mod make;
mod parts;

/// A work graph: jobs with their longest times and predecessors, crews, and the layover. Every graph that exists keeps the
/// rules, and from `jobs` up it holds nothing, so that graphs with the same jobs are the same value.
#[derive(Clone, Copy, Debug)]
pub struct Graph {
    jobs: u8,
    crews: u8,
    layover: u32,
    // 64 times and 64 sets, as two plain arrays: a rule of the project.
    times: [u16; 64],
    preds: [JobSet; 64],
    ghost all_times: { length times ≡ 64 },
    ghost all_preds: { length preds ≡ 64 },
    ghost some_jobs: { 1 ≤ jobs },
    ghost few_jobs: { jobs ≤ 64 },
    ghost some_crews: { 1 ≤ crews },
    ghost few_crews: { crews ≤ 16 },
    ghost some_layover: { 1 ≤ layover },
    ghost short_layover: { layover ≤ 92160 },
    ghost timed: { Timed jobs times },
    ghost untimed: { Untimed jobs times },
    ghost lower: { Lower preds },
    ghost preceded: { Preceded jobs preds },
    ghost succeeded: { Succeeded jobs preds },
    ghost unpreceded: { Unpreceded jobs preds },
}
