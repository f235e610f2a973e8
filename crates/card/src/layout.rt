//! Where the fields at the head of a card stand.
use bits::field::Field;

/// The version of the card.
pub const VERSION: Field<8> = Field { at: 0, bits: 4 };

/// How many jobs there are.
pub const JOBS: Field<8> = Field { at: 4, bits: 7 };

/// How many crews there are.
pub const CREWS: Field<8> = Field { at: 11, bits: 5 };

/// How many minutes the train stands.
pub const LAYOVER: Field<32> = Field { at: 16, bits: 17 };
