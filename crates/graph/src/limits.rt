//! The limits of a work graph. Whoever reads or makes one asks here.
ghost use Rattle.std.specs.Prelude.{◌≡◌, true};
ghost use Rattle.base.specs.Questions.{Asks};

use base::fault::Fault;

/// A number of a work graph that has a limit: it is 1 at the least.
#[derive(Clone, Copy, Debug, PartialEq, Eq)]
pub enum Limit {
    /// How many jobs there are, at most 64.
    Jobs,
    /// How many crews there are, at most 16.
    Crews,
    /// How many minutes the train stands, at most 92,160.
    Layover,
    /// The longest time of a job in minutes, at most 1,440.
    Time,
}

impl Limit {
    ghost use Rattle.graph.specs.Limits.{most, allowed, limit_asked};

    /// The greatest number that is allowed.
    pub fn most(self) -> u32
        ensures { result ≡ most self }
    {
        match self {
            Limit::Jobs => 64,
            Limit::Crews => 16,
            Limit::Layover => 92_160,
            Limit::Time => 1440,
        }
    }

    /// Whether the number may be this one.
    pub fn allows(self, number: u32) -> bool
        ensures { result ≡ allowed self number }
    {
        (1..=self.most()).contains(&number)
    }

    /// Asks whether the number may be this one, and refuses it with the given refusal where not.
    #[tactic(auto, unfolding(base::specs::Questions::first_no))]
    pub fn ask(self, number: u32, refusal: Fault) -> Result<(), Fault>
        ensures { Asks (limit_asked self number refusal) (λ _. allowed self number ≡ true) (Unit {0}) result }
    {
        if self.allows(number) {
            Ok(())
        } else {
            Err(refusal)
        }
    }
}
