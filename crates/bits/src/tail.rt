//! What may follow the last field, and what a target holds.
ghost use Rattle.std.specs.Prelude.{◌≡◌, length, nat_le};
ghost use Rattle.bits.specs.Fields.{bits_of};
ghost use Rattle.bits.specs.Trailing.{First, at_fault};

use crate::bit::bit;

/// The first bit at fault after fields that end before bit `at`: bits up to a whole byte are to be zero, and no byte is to follow.
pub fn first_stray(bytes: &[u8], at: u32) -> Option<u64>
    ensures { First (at_fault (bits_of bytes.now) at) result }
{
    let start = at as usize;
    let end = start.div_ceil(8);
    let stray = (start..end * 8).find(|&p| bit(bytes, p));
    let behind = (bytes.len() > end).then_some(end * 8);
    // By `as`: there is no `From` of `usize`.
    stray.or(behind).map(|p| p as u64)
}

/// Does the target hold this many bytes?
pub fn holds(target: &[u8], bytes: usize) -> bool
    ensures { result ≡ nat_le bytes (length target.now) }
{
    bytes <= target.len()
}
