//! What stands at the head of a card.
ghost use Rattle.std.specs.Prelude.{◌≡◌, ◌≤◌};

/// How many jobs and crews a card has, and its layover in minutes. Every header that exists keeps to the ranges.
// `Graph` has the same three numbers in the same ranges, and no struct of them: `graph.jobs` says no less than
// `graph.header.jobs`, and a graph knows nothing of cards.
#[derive(Clone, Copy)]
pub struct Header {
    jobs: u8,
    crews: u8,
    layover: u32,
    ghost some_jobs: { 1 ≤ jobs },
    ghost few_jobs: { jobs ≤ 64 },
    ghost some_crews: { 1 ≤ crews },
    ghost few_crews: { crews ≤ 16 },
    ghost some_layover: { 1 ≤ layover },
    ghost short_layover: { layover ≤ 92160 },
}

impl Header {
    // Made by the reader of cards alone, which has asked the questions.
    pub(crate) fn new(jobs: u8, crews: u8, layover: u32) -> Header
        requires jobs { (1 ≤ jobs) × (jobs ≤ 64) }
        requires crews { (1 ≤ crews) × (crews ≤ 16) }
        requires layover { (1 ≤ layover) × (layover ≤ 92160) }
        ensures jobs { result.jobs ≡ jobs }
        ensures crews { result.crews ≡ crews }
        ensures layover { result.layover ≡ layover }
    {
        Header {
            jobs,
            crews,
            layover,
        }
    }

    /// How many jobs there are, 1 to 64.
    pub fn jobs(self) -> u8
        ensures value { result ≡ self.jobs }
        ensures range { (1 ≤ result) × (result ≤ 64) }
    {
        self.jobs
    }

    /// How many crews there are, 1 to 16.
    pub fn crews(self) -> u8
        ensures value { result ≡ self.crews }
        ensures range { (1 ≤ result) × (result ≤ 16) }
    {
        self.crews
    }

    /// How many minutes the train stands, 1 to 92,160.
    pub fn layover(self) -> u32
        ensures value { result ≡ self.layover }
        ensures range { (1 ≤ result) × (result ≤ 92160) }
    {
        self.layover
    }
}
