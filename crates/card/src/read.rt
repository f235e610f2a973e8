//! Reading fields, and the head of a card.
ghost use Rattle.std.specs.Prelude.{◌≡◌};
ghost use Rattle.base.specs.Questions.{Asks};
ghost use Rattle.bits.specs.Fields.{bits_of};
ghost use Rattle.bits.specs.Reading.{Got};
ghost use Rattle.graph.specs.Limits.{most};
ghost use Rattle.graph.specs.declared.limits.Limit.TheVariants.{Jobs, Crews, Layover};
ghost use Rattle.card.specs.Heading.{ranged, ReadsWhole, ReadsField, ReadsHeader, HeadReadsBack};

use crate::header::Header;
use crate::layout::{CREWS, JOBS, LAYOVER, VERSION};
use base::fault::Fault;
use bits::field::Field;
use bits::number::Holds;
use graph::limits::Limit;

/// Reads what stands at the head of a card: the version, which is 1, the jobs, the crews and the layover.
#[tactic(auto, using(crate::proofs::Heads::headed), unfolding(crate::specs::Heading::heading, base::specs::Questions::first_no))]
pub fn read_header(bytes: &[u8]) -> Result<Header, Fault>
    ensures { ReadsHeader (bits_of bytes.now) result }
{
    ask_version(bytes)?;
    let jobs = read_jobs(bytes)?;
    let crews = read_crews(bytes)?;
    let layover = read_layover(bytes)?;
    Ok(Header::new(jobs, crews, layover))
}

/// Reads a field, which is refused where the card ends before it does.
#[tactic(auto, unfolding(base::specs::Questions::first_no))]
pub fn read_field<const MOST: u8, T: Holds<MOST>>(
    bytes: &[u8],
    field: Field<MOST>,
) -> Result<T, Fault>
    ensures { ReadsWhole T.number (bits_of bytes.now) field.entry.at field.entry.bits result }
{
    field.read(bytes).ok_or(Fault::FieldCut { bit: field.at })
}

// Asks whether the card is of version 1, the only one that is known.
#[tactic(auto, unfolding(base::specs::Questions::first_no))]
fn ask_version(bytes: &[u8]) -> Result<(), Fault>
    ensures { Asks (ranged (bits_of bytes.now) 0 4 1 1 2) (λ _. Got (bits_of bytes.now) 0 4 1) (Unit {0}) result }
{
    let version: u8 = read_field(bytes, VERSION)?;
    if version != 1 {
        return Err(Fault::UnknownVersion {
            value: u32::from(version),
        });
    }
    Ok(())
}

// How many jobs there are. For jobs, crews and layover there are three functions and no generic one: that would take a closure
// for the refusal, and a contract over all that it may refuse.
#[tactic(auto, unfolding(base::specs::Questions::first_no))]
fn read_jobs(bytes: &[u8]) -> Result<u8, Fault>
    ensures { ReadsField (bits_of bytes.now) 4 7 (most Jobs) 3 result }
{
    let jobs = read_field(bytes, JOBS)?;
    let value = u32::from(jobs);
    Limit::Jobs.ask(value, Fault::JobsOutOfRange { value })?;
    Ok(jobs)
}

// How many crews there are.
#[tactic(auto, unfolding(base::specs::Questions::first_no))]
fn read_crews(bytes: &[u8]) -> Result<u8, Fault>
    ensures { ReadsField (bits_of bytes.now) 11 5 (most Crews) 4 result }
{
    let crews = read_field(bytes, CREWS)?;
    let value = u32::from(crews);
    Limit::Crews.ask(value, Fault::CrewsOutOfRange { value })?;
    Ok(crews)
}

// How many minutes the train stands.
#[tactic(auto, unfolding(base::specs::Questions::first_no))]
fn read_layover(bytes: &[u8]) -> Result<u32, Fault>
    ensures { ReadsField (bits_of bytes.now) 16 17 (most Layover) 5 result }
{
    let value = read_field(bytes, LAYOVER)?;
    Limit::Layover.ask(value, Fault::LayoverOutOfRange { value })?;
    Ok(value)
}

/// Carries the law of the head: what was written in range is read back, whatever follows.
pub fn header_laws()
    ensures { HeadReadsBack }
{}
