//! Words of 64 bits, digit by digit: what the bit operations behind a set of job numbers do to its members.
ghost use Rattle.std.specs.Prelude.{◌≡◌, ℕ, ◌+◌, ◌≤◌, true, false, not, ◌&&◌, ◌||◌, ◌∷◌, Decides, ◌==◌, ◌≢◌, nat_lt};
ghost use Rattle.base.specs.JobSets.{has, members, size, Empty, Subset, Disjoint, Lowest};

// A digit of a word, counted from the lowest.
#[derive(Clone, Copy)]
pub(crate) struct Digit {
    pub(crate) at: u8,
    ghost within: { at ≤ 63 },
}

impl Digit {
    // Whether the digit is 1.
    #[tactic(auto, using(std::proofs::lemmas::Nat::Bits::shr_and_one), unfolding(crate::specs::JobSets::has))]
    pub(crate) fn is_one(self, word: u64) -> bool
        ensures { result ≡ has word self.at }
    {
        (word >> self.at) & 1 == 1
    }

    // The word with the digit, which is 0, made 1.
    #[tactic(auto, using(crate::proofs::Digits::digits, crate::proofs::Members::set_more))]
    pub(crate) fn set(self, word: u64) -> u64
        requires { has word self.at ≡ false }
        ensures digits { (u : ℕ) → has result u ≡ (has word u || (u == self.at && nat_lt u 64)) }
        ensures more { size result ≡ size word + 1 }
    {
        word | (1 << self.at)
    }

    // The word with the digit, which is 1, made 0.
    #[tactic(auto, using(crate::proofs::Digits::digits, crate::proofs::Members::cleared_fewer, crate::proofs::Members::cleared_first))]
    pub(crate) fn clear(self, word: u64) -> u64
        requires { has word self.at ≡ true }
        ensures digits { (u : ℕ) → has result u ≡ (has word u && not (u == self.at)) }
        ensures fewer { size word ≡ size result + 1 }
        ensures first { Lowest word self.at → members word ≡ self.at ∷ members result }
    {
        word & !(1 << self.at)
    }
}

// The word whose `n` lowest digits are 1.
#[tactic(auto, using(crate::proofs::Digits::digits))]
pub(crate) fn ones(n: u8) -> u64
    requires { n ≤ 64 }
    ensures { (u : ℕ) → has result u ≡ nat_lt u n }
{
    if n == 64 { u64::MAX } else { (1 << n) - 1 }
}

// The digits that are 1 in either word.
#[tactic(auto, using(crate::proofs::Digits::digits, crate::proofs::Members::union_size))]
pub(crate) fn or(a: u64, b: u64) -> u64
    ensures digits { (u : ℕ) → has result u ≡ (has a u || has b u) }
    ensures adds { Disjoint a b → size result ≡ size a + size b }
{
    a | b
}

// The digits that are 1 in both words.
#[tactic(auto, using(crate::proofs::Digits::digits))]
pub(crate) fn and(a: u64, b: u64) -> u64
    ensures { (u : ℕ) → has result u ≡ (has a u && has b u) }
{
    a & b
}

// The digits that are 1 in `a` and 0 in `b`.
#[tactic(auto, using(crate::proofs::Digits::digits))]
pub(crate) fn and_not(a: u64, b: u64) -> u64
    ensures { (u : ℕ) → has result u ≡ (has a u && not (has b u)) }
{
    a & !b
}

// Whether every digit that is 1 in `a` is 1 in `b`.
pub(crate) fn is_part(a: u64, b: u64) -> bool
    ensures part { Decides result (Subset a b) }
    ensures smaller { result ≡ true → size a ≤ size b }
{
    and_not(a, b) == 0
}

// How many digits are 1.
#[tactic(auto, using(crate::proofs::Members::counted, crate::proofs::Members::none_counted))]
pub(crate) fn count(word: u64) -> u8
    ensures value { result ≡ size word }
    ensures none { Decides (result == 0) (Empty word) }
{
    word.count_ones() as u8
}

// The lowest digit that is 1.
#[tactic(auto, using(crate::proofs::Members::lowest_found))]
pub(crate) fn lowest(word: u64) -> u8
    requires { size word ≢ 0 }
    ensures { Lowest word result }
{
    word.trailing_zeros() as u8
}
