//! The parts of a work graph, before anything is asked of them.
use base::job_set::JobSet;

/// The parts that a graph is to be made of. Anybody can fill them in; `Graph::make` asks whether they keep the rules.
#[derive(Clone, Copy)]
pub struct Draft {
    /// How many jobs there are.
    pub jobs: u8,
    /// How many crews there are.
    pub crews: u8,
    /// How many minutes the train stands.
    pub layover: u32,
    // Two arrays, as in `Graph`: a rule of the project.
    /// The longest time of each job, in minutes. Those from `jobs` up are not looked at.
    pub times: [u16; 64],
    /// The predecessors of each job. Those from `jobs` up are not looked at.
    pub preds: [JobSet; 64],
}
