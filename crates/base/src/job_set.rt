//! Sets of job numbers, each kept in one word.
ghost use Rattle.std.specs.Prelude.{◌≡◌, ℕ, List, ◌+◌, ◌≤◌, true, false, not, ◌&&◌, ◌||◌, length, if◌then◌else◌, Decides, MatchOption, ◌==◌, nat_lt};
ghost use Rattle.base.specs.JobSets.{has, members, size, Empty, Subset, Disjoint, Lowest, TakesLowest, IsSetOf, GivesNext, SameMembers, Ascending, Listed, Complete, SizeWithin, SubsetSize, UnionSize};
ghost use Rattle.std.specs.Iterator.{at_most};

use crate::word::{self, Digit};
use std::marker::Model;

// Clauses name its word, and there is no `impl Model`: with one, `?` on a graph is not proved in a function that names no set.
/// A set of job numbers, 0 to 63. Numbers above 63 are members of nothing and change nothing.
#[derive(Clone, Copy, PartialEq, Eq, Debug)]
pub struct JobSet {
    bits: u64,
}

impl JobSet {
    /// The set with no member.
    #[tactic(auto, using(crate::proofs::Digits::digits))]
    pub fn empty() -> JobSet
        ensures none { Empty result.bits }
        ensures value { result.bits ≡ 0 }
    {
        JobSet { bits: 0 }
    }

    /// The set of every number below `n` and below 64.
    pub fn below(n: u8) -> JobSet
        ensures { (u : ℕ) → has result.bits u ≡ (nat_lt u n && nat_lt u 64) }
    {
        JobSet {
            bits: word::ones(n.min(64)),
        }
    }

    /// Whether `job` is a member.
    #[tactic(auto, using(crate::proofs::Digits::digits))]
    pub fn contains(self, job: u8) -> bool
        ensures value { result ≡ has self.bits job }
        ensures within { result ≡ true → job ≤ 63 }
    {
        job <= 63 && Digit { at: job }.is_one(self.bits)
    }

    /// Adds `job`, and answers whether it was new.
    pub fn insert(&mut self, job: u8) -> bool
        ensures fresh { result ≡ (nat_lt job 64 && not (has self.old.bits job)) }
        ensures members { (u : ℕ) → has self.new.bits u ≡ (has self.old.bits u || (u == job && nat_lt u 64)) }
        ensures grows { size self.new.bits ≡ size self.old.bits + (if result then 1 else 0) }
    {
        if job > 63 || self.contains(job) {
            return false;
        }
        self.bits = Digit { at: job }.set(self.bits);
        true
    }

    /// The members and `job`.
    pub fn with(self, job: u8) -> JobSet
        ensures { (u : ℕ) → has result.bits u ≡ (has self.bits u || (u == job && nat_lt u 64)) }
    {
        let mut set = self;
        set.insert(job);
        set
    }

    /// Takes `job` out, and answers whether it was there.
    pub fn remove(&mut self, job: u8) -> bool
        ensures there { result ≡ has self.old.bits job }
        ensures members { (u : ℕ) → has self.new.bits u ≡ (has self.old.bits u && not (u == job)) }
        ensures shrinks { size self.old.bits ≡ size self.new.bits + (if result then 1 else 0) }
    {
        if !self.contains(job) {
            return false;
        }
        self.bits = Digit { at: job }.clear(self.bits);
        true
    }

    /// The members of either set.
    pub fn union(self, other: JobSet) -> JobSet
        ensures members { (u : ℕ) → has result.bits u ≡ (has self.bits u || has other.bits u) }
        ensures adds { Disjoint self.bits other.bits → size result.bits ≡ size self.bits + size other.bits }
    {
        JobSet {
            bits: word::or(self.bits, other.bits),
        }
    }

    /// The members of both sets.
    pub fn intersection(self, other: JobSet) -> JobSet
        ensures { (u : ℕ) → has result.bits u ≡ (has self.bits u && has other.bits u) }
    {
        JobSet {
            bits: word::and(self.bits, other.bits),
        }
    }

    /// The members of this set that are not members of `other`.
    pub fn difference(self, other: JobSet) -> JobSet
        ensures { (u : ℕ) → has result.bits u ≡ (has self.bits u && not (has other.bits u)) }
    {
        JobSet {
            bits: word::and_not(self.bits, other.bits),
        }
    }

    /// Whether there is no member.
    pub fn is_empty(self) -> bool
        ensures counted { result ≡ (size self.bits == 0) }
        ensures bare { Decides result (Empty self.bits) }
    {
        self.len() == 0
    }

    /// Whether every member is a member of `other`.
    pub fn is_subset(self, other: JobSet) -> bool
        ensures part { Decides result (Subset self.bits other.bits) }
        ensures smaller { result ≡ true → size self.bits ≤ size other.bits }
    {
        word::is_part(self.bits, other.bits)
    }

    /// How many members there are.
    pub fn len(self) -> u8
        ensures value { result ≡ size self.bits }
        ensures none { Decides (result == 0) (Empty self.bits) }
    {
        word::count(self.bits)
    }

    /// The lowest member, if there is one.
    pub fn lowest(self) -> Option<u8>
        ensures { MatchOption result (Empty self.bits) (Lowest self.bits) }
    {
        if self.is_empty() {
            return None;
        }
        Some(word::lowest(self.bits))
    }

    /// Takes the lowest member out, if there is one, and answers it.
    #[tactic(auto, using(crate::proofs::Members::none_listed))]
    pub fn take_lowest(&mut self) -> Option<u8>
        ensures first { TakesLowest self.old.bits result self.new.bits }
        ensures others { MatchOption result (Empty self.old.bits) (λ v. (u : ℕ) → has self.new.bits u ≡ (has self.old.bits u && not (u == v))) }
    {
        let job = self.lowest()?;
        self.bits = Digit { at: job }.clear(self.bits);
        Some(job)
    }

    /// The members in ascending sequence.
    pub fn members(self) -> Members
        ensures { result ≡ members self.bits }
    {
        Members { left: self }
    }
}

/// The set of these numbers, of those among them that are below 64.
impl<const N: usize> From<[u8; N]> for JobSet {
    ghost from_gives = { λ jobs s. IsSetOf jobs s.bits };

    fn from(jobs: [u8; N]) -> JobSet {
        let mut set = JobSet::empty();
        for job in jobs {
            set.insert(job);
        }
        set
    }
}

/// Goes through the members of a set in ascending sequence.
#[derive(Drop)]
pub struct Members {
    left: JobSet,
}

// Clauses see the members that are still to come, in sequence.
impl Model for Members {
    ghost Value = { List ℕ };

    ghost view = { λ it. members it.left.bits };
}

/// Gives the lowest member that is left.
impl Iterator for Members {
    type Item = u8;

    ghost next_gives = { GivesNext };

    ghost remaining = { λ s. at_most (length s) };

    fn next(&mut self) -> Option<u8> {
        self.left.take_lowest()
    }
}

/// Carries the laws of sets: same members, same set; the members as a list; sizes of parts and unions.
pub fn set_laws()
    ensures same { SameMembers }
    ensures ascending { Ascending }
    ensures listed { Listed }
    ensures complete { Complete }
    ensures sizes { SizeWithin }
    ensures parts { SubsetSize }
    ensures unions { UnionSize }
{}
