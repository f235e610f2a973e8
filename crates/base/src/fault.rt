//! Refusals. A call that refuses says which question was answered no, and where.
ghost use Rattle.std.specs.Prelude.{◌≡◌, Decides};
ghost use Rattle.base.specs.Refusal.{said, said_alike, KnownByNumberAndPlace};

/// The layer of the library that a question belongs to.
#[derive(Clone, Copy, PartialEq, Eq, Debug)]
pub enum Layer {
    /// Fields and bytes.
    Bits,
    /// The head of a work card.
    Card,
    /// The work graph, and the bound of its work.
    Graph,
    /// Orders by which work is chosen.
    Order,
    /// Runs and plans.
    Run,
}

/// A refusal: a case for each question, named by what is wrong, with its place.
#[derive(Clone, Copy, Debug, PartialEq, Eq)]
pub enum Fault {
    /// The field that begins at this bit is not there whole.
    FieldCut { bit: u32 },
    /// The card has this version, which is not known.
    UnknownVersion { value: u32 },
    /// The card has this many jobs, which is not 1 to 64.
    JobsOutOfRange { value: u32 },
    /// The card has this many crews, which is not 1 to 16.
    CrewsOutOfRange { value: u32 },
    /// The card has this layover, which is not 1 to 92,160 minutes.
    LayoverOutOfRange { value: u32 },
    /// The longest time of this job is not 1 to 1,440 minutes.
    TimeOutOfRange { job: u8 },
    /// This job, which is not job 0, has no predecessor.
    NoPredecessor { job: u8 },
    /// This job, which is not the last, has no successor.
    NoSuccessor { job: u8 },
    /// This bit after the last field is set, or is the first of a byte too many.
    StrayBit { bit: u32 },
    /// The target does not hold the bytes that are to be written, of which there are this many.
    TargetShort { needed: u32 },
    /// The bound on the finishing minute, this many minutes, is above the layover.
    BoundAboveLayover { bound: u32 },
    /// The list of jobs has not one entry for each of this many jobs.
    ListLength { jobs: u8 },
    /// The entry at this position of the list is no job of the graph, or stands earlier too.
    ListEntry { position: u32 },
    /// The row list has fewer rows than there are jobs, of which there are this many.
    RowsShort { jobs: u8 },
    /// The slip list has fewer than this many places.
    SlipsShort { places: u8 },
    /// This run is open already.
    RunOpen { run: u32 },
    /// From this next number on, too few numbers are left for a run.
    NumbersSpent { next: u32 },
    /// No run is open that has this number, which is the ticket's.
    NoSuchRun { ticket: u32 },
    /// No job in hand has this grant.
    NoSuchGrant { grant: u32 },
    /// The minute lies before this one, which is the clock's.
    BeforeClock { clock: u32 },
    /// The job was due at this minute, which has passed.
    Overdue { due: u32 },
    /// The minute lies after the one at which this other job in hand was due.
    PassesOther { job: u8 },
}

impl Fault {
    /// The number of the question that was answered no, 1 to 22.
    pub fn number(self) -> u8
        ensures { result ≡ (said self).number }
    {
        match self {
            Fault::FieldCut { bit: _ } => 1,
            Fault::UnknownVersion { value: _ } => 2,
            Fault::JobsOutOfRange { value: _ } => 3,
            Fault::CrewsOutOfRange { value: _ } => 4,
            Fault::LayoverOutOfRange { value: _ } => 5,
            Fault::TimeOutOfRange { job: _ } => 6,
            Fault::NoPredecessor { job: _ } => 7,
            Fault::NoSuccessor { job: _ } => 8,
            Fault::StrayBit { bit: _ } => 9,
            Fault::TargetShort { needed: _ } => 10,
            Fault::BoundAboveLayover { bound: _ } => 11,
            Fault::ListLength { jobs: _ } => 12,
            Fault::ListEntry { position: _ } => 13,
            Fault::RowsShort { jobs: _ } => 14,
            Fault::SlipsShort { places: _ } => 15,
            Fault::RunOpen { run: _ } => 16,
            Fault::NumbersSpent { next: _ } => 17,
            Fault::NoSuchRun { ticket: _ } => 18,
            Fault::NoSuchGrant { grant: _ } => 19,
            Fault::BeforeClock { clock: _ } => 20,
            Fault::Overdue { due: _ } => 21,
            Fault::PassesOther { job: _ } => 22,
        }
    }

    /// Where it was answered no: a bit, a value, a job, a count, a minute or a number, by the question.
    pub fn place(self) -> u32
        ensures { result ≡ (said self).place }
    {
        match self {
            Fault::FieldCut { bit } | Fault::StrayBit { bit } => bit,
            Fault::UnknownVersion { value }
            | Fault::JobsOutOfRange { value }
            | Fault::CrewsOutOfRange { value }
            | Fault::LayoverOutOfRange { value } => value,
            Fault::TimeOutOfRange { job }
            | Fault::NoPredecessor { job }
            | Fault::NoSuccessor { job }
            | Fault::PassesOther { job } => u32::from(job),
            Fault::TargetShort { needed } => needed,
            Fault::BoundAboveLayover { bound } => bound,
            Fault::ListLength { jobs } | Fault::RowsShort { jobs } => u32::from(jobs),
            Fault::ListEntry { position } => position,
            Fault::SlipsShort { places } => u32::from(places),
            Fault::RunOpen { run } => run,
            Fault::NumbersSpent { next } => next,
            Fault::NoSuchRun { ticket } => ticket,
            Fault::NoSuchGrant { grant } => grant,
            Fault::BeforeClock { clock } => clock,
            Fault::Overdue { due } => due,
        }
    }

    /// The layer that asked.
    pub fn layer(self) -> Layer
        ensures { result ≡ (said self).layer }
    {
        match self {
            Fault::FieldCut { bit: _ }
            | Fault::StrayBit { bit: _ }
            | Fault::TargetShort { needed: _ } => Layer::Bits,
            Fault::UnknownVersion { value: _ }
            | Fault::JobsOutOfRange { value: _ }
            | Fault::CrewsOutOfRange { value: _ }
            | Fault::LayoverOutOfRange { value: _ } => Layer::Card,
            Fault::TimeOutOfRange { job: _ }
            | Fault::NoPredecessor { job: _ }
            | Fault::NoSuccessor { job: _ }
            | Fault::BoundAboveLayover { bound: _ } => Layer::Graph,
            Fault::ListLength { jobs: _ } | Fault::ListEntry { position: _ } => Layer::Order,
            _ => Layer::Run,
        }
    }
}

/// Carries the laws of refusals: one is known by its number and its place, and `==` decides by these two whether two
/// refusals are the same.
pub fn fault_laws()
    ensures known { KnownByNumberAndPlace }
    ensures equal { (f g : Fault) → ⟦<Fault as PartialEq>⟧.eq f g ≡ said_alike f g }
    ensures same { (f g : Fault) → Decides (⟦<Fault as PartialEq>⟧.eq f g) (f ≡ g) }
{}
