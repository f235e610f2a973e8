//! The line of a refusal.
ghost use Rattle.std.specs.Prelude.{◌≡◌};
ghost use Rattle.base.specs.Questions.{Writes};
ghost use Rattle.base.specs.Refusal.{said};
ghost use Rattle.text.specs.Lines.{refusal_line, LinesDiffer};

use crate::line::{Line, write_line};
use base::fault::Fault;
use itoa::Buffer;

/// Writes the line of a refusal to the front of `target`: the word refused, the number and the place.
/// Answers how many bytes that is, or refuses a target that is too short.
pub fn write_refusal(fault: Fault, target: &mut [u8]) -> Result<usize, Fault>
    ensures { Writes (refusal_line (said fault).number (said fault).place) target.old target.new result }
{
    write_line(&refusal_text(fault.number(), fault.place()), target)
}

// The line of a refusal that has this number and this place.
// By pieces: `write!` says what it wrote where it answers `Ok`, and never that it does. And written out, as the other line is:
// one function for both would have to require that its pieces fit.
#[tactic(auto, unfolding(crate::specs::Lines::refusal_line))]
fn refusal_text(number: u8, place: u32) -> Line
    ensures { result.bytes ≡ refusal_line number place }
{
    let mut digits = Buffer::new();
    let mut line = Line::new();
    line.push_str("refused ");
    line.push_str(digits.format(number));
    line.push_str(" ");
    line.push_str(digits.format(place));
    line.push_str("\n");
    line
}

/// Carries the law that refusals whose numbers or places differ have different lines.
#[tactic(auto, using(crate::proofs::Splits::lines_differ))]
pub fn refusal_lines_differ()
    ensures { LinesDiffer }
{}
