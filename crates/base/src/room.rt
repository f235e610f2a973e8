//! Room for what is to be written.
ghost use Rattle.std.specs.Prelude.{◌≤◌, length};
ghost use Rattle.base.specs.Questions.{Asks, space};

use crate::fault::Fault;

/// Question 10: does the target hold as many bytes as are needed?
#[tactic(auto, unfolding(crate::specs::Questions::first_no))]
pub fn ask_room(target: &[u8], needed: u32) -> Result<(), Fault>
    ensures { Asks (space needed target.now) (λ _. needed ≤ length target.now) (Unit {0}) result }
{
    // By `as`: there is no `From` of `u32` for `usize`.
    if needed as usize <= target.len() {
        return Ok(());
    }
    Err(Fault::TargetShort { needed })
}
