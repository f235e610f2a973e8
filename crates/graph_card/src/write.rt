//! Writing a card.
ghost use Rattle.std.specs.Prelude.{◌≡◌, ℕ, ◌+◌, ◌*◌, ◌^◌, ◌<◌, ◌≤◌, ◌++◌, length, drop, replicate, slice_index};
ghost use Rattle.bits.specs.Fields.{field, bits_of};
ghost use Rattle.graph.specs.Graphs.{time_of, preds_of};
ghost use Rattle.graph_card.specs.Cards.{card, WritesCard};
ghost use Rattle.card.specs.Heading.{head};
ghost use Rattle.graph_card.specs.Layout.{row as row_of, rows, start};
ghost use Rattle.graph_card.specs.Parts.{Put};

use crate::layout::{Row, first_bit};
use base::fault::Fault;
use base::room::ask_room;
use bits::field::Field;
use bits::number::Holds;
use card::layout::{CREWS, JOBS, LAYOVER, VERSION};
use graph::graph::Graph;

/// How many bytes the card of a graph has, at most 345.
pub fn size(graph: &Graph) -> usize
    ensures value { result ≡ length (card graph.now) }
    ensures range { (1 ≤ result) × (result ≤ 345) }
{
    byte_count(graph) as usize
}

/// Writes the card of a graph to the front of `target`, and answers how many bytes that is. A target that is too short is refused
/// before anything is written.
pub fn write(graph: &Graph, target: &mut [u8]) -> Result<usize, Fault>
    ensures { WritesCard graph.now target.old target.new result }
{
    ask_room(target, byte_count(graph))?;
    put_card(graph, target);
    Ok(size(graph))
}

// How many bytes the card has.
#[tactic(auto, using(crate::proofs::Putting::bytes))]
fn byte_count(graph: &Graph) -> u32
    ensures value { result ≡ length (card graph.now) }
    ensures range { (1 ≤ result) × (result ≤ 345) }
{
    first_bit(graph.jobs()).div_ceil(8)
}

// Writes the card to the front of `target`, which has to hold it. Here and below a graph and a target, and no struct of the
// two: it would be made once, to be taken apart in each line.
#[tactic(auto, using(crate::proofs::Putting::of_card))]
fn put_card(graph: &Graph, target: &mut [u8])
    requires { length (card graph.now) ≤ length target.old }
    ensures { target.new ≡ card graph.now ++ drop (length (card graph.now)) target.old }
{
    clear(target, size(graph));
    put_head(graph, target);
    put_jobs(graph, target);
}

// Makes the first bytes zero.
fn clear(target: &mut [u8], count: usize)
    requires { count ≤ length target.old }
    ensures zeros { target.new ≡ replicate count 0 ++ drop count target.old }
    ensures small { (i : ℕ) → slice_index target.new i < 256 }
{
    target[0..count].fill(0);
}

// Writes the head: the version, the jobs, the crews and the layover.
fn put_head(graph: &Graph, target: &mut [u8])
    requires { 33 ≤ 8 * length target.old }
    ensures { Put (bits_of target.old) 0 (head graph.now.jobs graph.now.crews graph.now.layover) (bits_of target.new) }
{
    put(target, VERSION, 1u8);
    put(target, JOBS, graph.jobs());
    put(target, CREWS, graph.crews());
    put(target, LAYOVER, graph.layover());
}

// Writes the fields of all jobs.
fn put_jobs(graph: &Graph, target: &mut [u8])
    requires { start graph.now.jobs ≤ 8 * length target.old }
    ensures { Put (bits_of target.old) 33 (rows graph.now.times graph.now.preds graph.now.jobs) (bits_of target.new) }
{
    // A loop, since it writes in place: of a closure that does so a proof knows nothing afterwards.
    for v in 0..graph.jobs() {
        put_job(graph, Row { job: v }, target);
    }
}

// Writes the fields of one job. Job 0 has no predecessor field.
fn put_job(graph: &Graph, row: Row, target: &mut [u8])
    requires { start row.job + (11 + row.job) ≤ 8 * length target.old }
    ensures { Put (bits_of target.old) (start row.job) (row_of (time_of graph.now row.job) (preds_of graph.now row.job) row.job) (bits_of target.new) }
{
    put(target, row.time(), graph.time(row.job));
    if let Some(field) = row.preds() {
        put(target, field, row.to_number(graph.preds(row.job)));
    }
}

// Writes one field, for which there is room, and which the value fits.
#[tactic(auto, using(crate::proofs::Putting::puts))]
fn put<const MOST: u8, T: Holds<MOST>>(target: &mut [u8], to: Field<MOST>, value: T)
    requires room { to.at + to.bits ≤ 8 * length target.old }
    requires fits { T.number value < 2 ^ to.bits }
    ensures { Put (bits_of target.old) to.entry.at (field to.entry.bits (T.number value)) (bits_of target.new) }
{
    to.write(target, value);
}
