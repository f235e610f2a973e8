//! Where the fields of a job stand on a card, and its predecessor field as a number.
ghost use Rattle.std.specs.Prelude.{◌≡◌, ◌+◌, ◌^◌, ◌<◌, ◌≤◌, MatchOption};
ghost use Rattle.bits.specs.Fields.{field};
ghost use Rattle.graph_card.specs.Layout.{MarkedBy, marks, start};

use base::job_set::JobSet;
use bits::field::Field;

// The bit at which the fields of job `v` begin. Of the number of jobs it is the bit behind all fields.
#[tactic(auto, using(crate::proofs::Spacing::start_is))]
pub(crate) fn first_bit(v: u8) -> u32
    ensures is { result ≡ start v }
    ensures small { result ≤ 40000 }
{
    let v = u32::from(v);
    33 + v * (v + 21) / 2
}

// The fields of one job.
#[derive(Clone, Copy)]
pub(crate) struct Row {
    pub(crate) job: u8,
    ghost few: { job < 64 },
}

impl Row {
    // The field of its longest time.
    pub(crate) fn time(self) -> Field<16>
        ensures at { result.at ≡ start self.job }
        ensures bits { result.bits ≡ 11 }
    {
        Field {
            at: first_bit(self.job),
            bits: 11,
        }
    }

    // The field of its predecessors, which job 0 has not.
    pub(crate) fn preds(self) -> Option<Field<63>>
        ensures { MatchOption result (self.job ≡ 0) (λ f. (f.at ≡ start self.job + 11) × (f.bits ≡ self.job)) }
    {
        if self.job == 0 {
            return None;
        }
        Some(Field {
            at: first_bit(self.job) + 11,
            bits: self.job,
        })
    }

    // These predecessors, as the number in that field: its most significant bit is for job 0.
    pub(crate) fn to_number(self, preds: JobSet) -> u64
        ensures bits { field self.job result ≡ marks preds.bits self.job }
        ensures small { result < 2 ^ self.job }
    {
        (0..self.job).fold(0, |number, u| (number << 1) | u64::from(preds.contains(u)))
    }

    // The predecessors that the number in that field says.
    pub(crate) fn to_preds(self, number: u64) -> JobSet
        ensures { MarkedBy number self.job result.bits }
    {
        (0..self.job)
            .filter(|&u| (number >> (self.job - 1 - u)) & 1 == 1)
            .fold(JobSet::empty(), JobSet::with)
    }
}
