//! One bit of bytes.
ghost use Rattle.std.specs.Prelude.{◌≡◌, ◌<◌, ◌==◌, length, slice_index, slice_set};
ghost use Rattle.std.specs.Int.{from_bool};
ghost use Rattle.bits.specs.Fields.{bits_of};

// Whether bit `p` is 1. Past the end there is none.
#[tactic(auto, using(crate::proofs::Packing::bits_of_bytes))]
pub(crate) fn bit(bytes: &[u8], p: usize) -> bool
    ensures { result ≡ (slice_index (bits_of bytes.now) p == 1) }
{
    p / 8 < bytes.len() && (bytes[p / 8] >> (7 - p % 8)) & 1 == 1
}

// Makes bit `p` the given one.
#[tactic(auto, using(crate::proofs::Setting::setting))]
pub(crate) fn set_bit(bytes: &mut [u8], p: usize, one: bool)
    requires { p < length (bits_of bytes.old) }
    ensures { bits_of bytes.new ≡ slice_set (bits_of bytes.old) p (from_bool one) }
{
    let mask = 1 << (7 - p % 8);
    if one {
        bytes[p / 8] |= mask;
    } else {
        bytes[p / 8] &= !mask;
    }
}
