//! Fields: where they stand, how they are read, and how they are written.
ghost use Rattle.std.specs.Prelude.{◌≡◌, ◌+◌, ◌*◌, ◌/◌, ◌^◌, ◌≤◌, length, nat_le, option_map};
ghost use Rattle.bits.specs.Fields.{bits_of};
ghost use Rattle.bits.specs.Reading.{Reads, Got};
ghost use Rattle.bits.specs.Writing.{WritesField, Wrote};

use crate::bit::{bit, set_bit};
use crate::number::Holds;

/// Where a field stands: it begins at bit `at`, and has 1 to `MOST` bits. No other field can be written down.
#[derive(Clone, Copy, PartialEq, Eq, Debug)]
pub struct Field<const MOST: u8> {
    /// The bit at which the field begins.
    pub at: u32,
    /// How many bits the field has.
    pub bits: u8,
    ghost some: { 1 ≤ bits },
    ghost most: { bits ≤ MOST },
}

impl<const MOST: u8> Field<MOST> {
    /// What the field holds, or `None` where the bytes end before it does.
    pub fn read<T: Holds<MOST>>(self, bytes: &[u8]) -> Option<T>
        ensures { Reads (bits_of bytes.now) self.entry.at self.entry.bits (option_map T.number result) }
    {
        if !self.lies_in(bytes) {
            return None;
        }
        T::from_u64(self.value(bytes))
    }

    // A bool, since what a format refuses, with which number, it asks itself before it writes.
    /// Writes a value into the field, and leaves all other bits as they are. Answers whether it did: it writes nothing where
    /// the bytes end before the field does, or where the value has more bits.
    pub fn write<T: Holds<MOST>>(self, bytes: &mut [u8], value: T) -> bool
        ensures { WritesField bytes.old self.entry.at self.entry.bits (T.number value) result bytes.new }
    {
        let value = value.to_u64();
        if !self.lies_in(bytes) || value >> self.bits != 0 {
            return false;
        }
        self.place(bytes, value);
        true
    }

    // The bit behind the field. Here and below by `as`: there is no `From` of `u32` for `usize`.
    fn end(self) -> usize
        ensures { result ≡ self.entry.at + self.entry.bits }
    {
        self.at as usize + usize::from(self.bits)
    }

    // Whether the bytes hold the whole field.
    #[tactic(auto, using(crate::proofs::Packing::bits_of_bytes))]
    fn lies_in(self, bytes: &[u8]) -> bool
        ensures { result ≡ nat_le (self.entry.at + self.entry.bits) (length (bits_of bytes.now)) }
    {
        self.end().div_ceil(8) <= bytes.len()
    }

    // The number that the bits of the field write.
    fn value(self, bytes: &[u8]) -> u64
        requires room { self.at + self.bits ≤ length (bits_of bytes.now) }
        requires few { self.bits ≤ 63 }
        ensures { Got (bits_of bytes.now) self.entry.at self.entry.bits result }
    {
        (self.at as usize..self.end()).fold(0, |value, p| (value << 1) | u64::from(bit(bytes, p)))
    }

    // Writes the bits of a value that the field has room for.
    #[tactic(auto, using(crate::proofs::Placing::placing))]
    fn place(self, bytes: &mut [u8], value: u64)
        requires room { self.at + self.bits ≤ length (bits_of bytes.old) }
        requires few { self.bits ≤ 63 }
        requires fits { value / 2 ^ self.bits ≡ 0 }
        ensures { Wrote (bits_of bytes.old) self.entry.at self.entry.bits value (bits_of bytes.new) }
    {
        // A loop, since after `for_each` a proof knows nothing of the bytes that the closure changed.
        for k in 0..self.bits {
            let one = (value >> (self.bits - 1 - k)) & 1 == 1;
            set_bit(bytes, self.at as usize + usize::from(k), one);
        }
    }
}
