//! The numbers that fields are read into and written from.
ghost use Rattle.std.specs.Prelude.{◌≡◌, ℕ, ◌^◌, ◌≤◌, MatchOption};
ghost use Rattle.std.proofs.Common.{rules};

/// A type of numbers in which every field of up to `MOST` bits has its value.
pub trait Holds<const MOST: u8>: Copy {
    // The number that a value is.
    ghost number: { Self → ℕ };

    /// This value, in the type. Only where it has more than `MOST` bits there may be none.
    fn from_u64(value: u64) -> Option<Self>
        ensures { MatchOption result (2 ^ MOST ≤ value) (λ x. number x ≡ value) };

    /// The number, as a `u64`.
    fn to_u64(self) -> u64
        ensures { result ≡ number self };

    // A field has at most 63 bits.
    ghost most: { MOST ≤ 63 };
}

// Alike but for the type, and written out: the gate refuses an impl that a macro of ours wrote.
impl Holds<8> for u8 {
    ghost number = { λ x. x };

    ghost most = { Prim.search rules };

    fn from_u64(value: u64) -> Option<u8> {
        u8::try_from(value).ok()
    }

    fn to_u64(self) -> u64 {
        u64::from(self)
    }
}

impl Holds<16> for u16 {
    ghost number = { λ x. x };

    ghost most = { Prim.search rules };

    fn from_u64(value: u64) -> Option<u16> {
        u16::try_from(value).ok()
    }

    fn to_u64(self) -> u64 {
        u64::from(self)
    }
}

impl Holds<32> for u32 {
    ghost number = { λ x. x };

    ghost most = { Prim.search rules };

    fn from_u64(value: u64) -> Option<u32> {
        u32::try_from(value).ok()
    }

    fn to_u64(self) -> u64 {
        u64::from(self)
    }
}

impl Holds<63> for u64 {
    ghost number = { λ x. x };

    ghost most = { Prim.search rules };

    fn from_u64(value: u64) -> Option<u64> {
        Some(value)
    }

    fn to_u64(self) -> u64 {
        self
    }
}
