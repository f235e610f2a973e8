//! The sheet of a plan.
ghost use Rattle.std.specs.Prelude.{◌≡◌};
ghost use Rattle.base.specs.Questions.{Writes};
ghost use Rattle.text.specs.Lines.{first_line};

use crate::line::{Line, write_line};
use base::fault::Fault;
use itoa::Buffer;

/// Writes the first line of a plan's sheet to the front of `target`: how many jobs and crews there are.
/// Answers how many bytes that is, or refuses a target that is too short.
pub fn write_first_line(jobs: u8, crews: u8, target: &mut [u8]) -> Result<usize, Fault>
    ensures { Writes (first_line jobs crews) target.old target.new result }
{
    write_line(&first_text(jobs, crews), target)
}

// The first line of the sheet of a plan with these jobs and crews.
// By pieces: `write!` says what it wrote where it answers `Ok`, and never that it does. And written out, as the other line is:
// one function for both would have to require that its pieces fit.
#[tactic(auto, unfolding(crate::specs::Lines::first_line))]
fn first_text(jobs: u8, crews: u8) -> Line
    ensures { result.bytes ≡ first_line jobs crews }
{
    let mut digits = Buffer::new();
    let mut line = Line::new();
    line.push_str("plan ");
    line.push_str(digits.format(jobs));
    line.push_str(" jobs ");
    line.push_str(digits.format(crews));
    line.push_str(" crews\n");
    line
}
