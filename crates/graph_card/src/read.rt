//! Reading a card.
ghost use Rattle.std.specs.Prelude.{◌≡◌, ◌+◌, ◌<◌, ◌≤◌};
ghost use Rattle.base.specs.Questions.{Asks};
ghost use Rattle.bits.specs.Fields.{bits_of};
ghost use Rattle.bits.specs.Trailing.{First, at_fault};
ghost use Rattle.graph_card.specs.Asking.{time_asked, preds_asked, questions};
ghost use Rattle.graph_card.specs.Cards.{card, ReadsCard};
ghost use Rattle.graph_card.specs.Layout.{start};
ghost use Rattle.graph_card.specs.Parts.{Lasting, PrecededBy, ReadsJob, ReadsRows, Unfilled, ReadsUnfilled};

use crate::layout::{Row, first_bit};
use base::fault::Fault;
use base::job_set::JobSet;
use bits::tail::first_stray;
use card::read::{read_field, read_header};
use graph::draft::Draft;
use graph::graph::Graph;
use graph::limits::Limit;

/// Reads the card of a graph into a lent place, which holds a lawful graph already. Bytes that are no card are refused at the
/// first question that is answered no, and the place keeps what it held.
pub fn read(bytes: &[u8], into: &mut Graph) -> Result<(), Fault>
    ensures { ReadsCard bytes.now into.old into.new result }
{
    let graph = read_unfilled(bytes)?;
    ask_filling(bytes, &graph)?;
    *into = graph;
    Ok(())
}

// The graph of a card, by all questions but the last.
#[tactic(auto, using(crate::proofs::Drafting::all_but_last))]
fn read_unfilled(bytes: &[u8]) -> Result<Graph, Fault>
    ensures { ReadsUnfilled bytes.now result }
{
    let header = read_header(bytes)?;
    let jobs = header.jobs();
    let Rows { times, preds } = read_rows(bytes, jobs)?;
    Graph::make(&Draft {
        jobs,
        crews: header.crews(),
        layover: header.layover(),
        times,
        preds,
    })
}

// The last question: are the filling bits behind the fields of the graph zero, with no byte after them?
#[tactic(auto, using(crate::proofs::Closing::to_the_end))]
fn ask_filling(bytes: &[u8], graph: &Graph) -> Result<(), Fault>
    requires { Unfilled bytes.now graph.now }
    ensures { Asks (questions (bits_of bytes.now)) (λ _. bytes.now ≡ card graph.now) (Unit {0}) result }
{
    match first_fault(bytes, graph) {
        // By `as`: the first bit at fault lies at most one byte behind the fields, and a refusal needs no second question.
        Some(bit) => Err(Fault::StrayBit { bit: bit as u32 }),
        None => Ok(()),
    }
}

// The first bit at fault behind the fields of the graph's card.
fn first_fault(bytes: &[u8], graph: &Graph) -> Option<u64>
    ensures { First (at_fault (bits_of bytes.now) (start graph.now.jobs)) result }
{
    first_stray(bytes, first_bit(graph.jobs()))
}

// What the fields of all jobs hold, in two arrays, as a graph has them: a rule of the project.
#[derive(Clone, Copy)]
struct Rows {
    times: [u16; 64],
    preds: [JobSet; 64],
}

// The fields of each of so many jobs.
#[tactic(auto, using(crate::proofs::Rowing::rows_stop))]
fn read_rows(bytes: &[u8], jobs: u8) -> Result<Rows, Fault>
    requires { jobs ≤ 64 }
    ensures { ReadsRows (bits_of bytes.now) jobs result }
{
    let mut times = [0; 64];
    let mut preds = [JobSet::empty(); 64];
    // A loop, since it fills the tables in place: of a closure that does so a proof knows nothing afterwards.
    for v in 0..jobs {
        let job = read_job(bytes, Row { job: v })?;
        times[usize::from(v)] = job.time;
        preds[usize::from(v)] = job.preds;
    }
    Ok(Rows { times, preds })
}

// What the fields of one job hold.
#[derive(Clone, Copy)]
struct Job {
    time: u16,
    preds: JobSet,
}

// The fields of one job. Here and below bytes and a row, and no struct of the two: it would be made once, to be taken apart
// in each line.
#[tactic(auto, using(crate::proofs::Ranging::of_job))]
fn read_job(bytes: &[u8], row: Row) -> Result<Job, Fault>
    ensures { ReadsJob (bits_of bytes.now) row.job result }
{
    let time = read_time(bytes, row)?;
    let preds = read_preds(bytes, row)?;
    Ok(Job { time, preds })
}

// The longest time of a job.
#[tactic(auto, using(crate::proofs::Ranging::of_time))]
fn read_time(bytes: &[u8], row: Row) -> Result<u16, Fault>
    ensures { Asks (time_asked (bits_of bytes.now) (start row.job) row.job) (Lasting (bits_of bytes.now) (start row.job)) (Unit {0}) result }
{
    let time = read_field(bytes, row.time())?;
    Limit::Time.ask(u32::from(time), Fault::TimeOutOfRange { job: row.job })?;
    Ok(time)
}

// The predecessors of a job. Job 0 has none.
#[tactic(auto, using(crate::proofs::Ranging::of_preds))]
fn read_preds(bytes: &[u8], row: Row) -> Result<JobSet, Fault>
    ensures { Asks (preds_asked (bits_of bytes.now) (start row.job + 11) row.job) (λ s. PrecededBy (bits_of bytes.now) (start row.job + 11) row.job s.bits) (Unit {0}) result }
{
    let Some(field) = row.preds() else {
        return Ok(JobSet::empty());
    };
    let number = read_field(bytes, field)?;
    if number == 0 {
        return Err(Fault::NoPredecessor { job: row.job });
    }
    Ok(row.to_preds(number))
}
