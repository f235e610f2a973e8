//! What `plan` answers to a card.
ghost use Rattle.std.specs.Prelude.{◌≡◌, is_ok};
ghost use Rattle.base.specs.Questions.{Writes};
ghost use Rattle.bits.specs.Fields.{bits_of};
ghost use Rattle.planner.specs.Answering.{answer_text, is_taken, wording, AnswersCard};

use base::fault::Fault;
use card::header::Header;
use card::read::read_header;
use text::refusal::write_refusal;
use text::sheet::write_first_line;

/// Whether a card was taken, and how many bytes of text answer it.
#[derive(Clone, Copy, PartialEq, Eq, Debug)]
pub struct Answer {
    // A flag, and no enum of two cases: the count is there in both, and means the same.
    /// Was the card taken?
    pub taken: bool,
    /// How many bytes were written to the target.
    pub written: usize,
}

/// Reads a card and writes the text that answers it to the front of `target`: the first line of the plan, or the refusal
/// of the first fault in the card. A target that is too short for that text is refused, and left as it was.
pub fn answer_card(card: &[u8], target: &mut [u8]) -> Result<Answer, Fault>
    ensures { AnswersCard (bits_of card.now) target.old target.new result }
{
    let header = read_head(card);
    let taken = header.is_ok();
    let written = write_answer(header, target)?;
    Ok(Answer { taken, written })
}

// What stands at the head of a card, or its first fault: by that the card is answered.
#[tactic(auto, using(crate::proofs::Wording::words, crate::proofs::Wording::tells))]
fn read_head(card: &[u8]) -> Result<Header, Fault>
    ensures text { wording result ≡ answer_text (bits_of card.now) }
    ensures taken { is_ok result ≡ is_taken (bits_of card.now) }
{
    read_header(card)
}

// Writes the first line of the plan, or the line of the refusal.
fn write_answer(header: Result<Header, Fault>, target: &mut [u8]) -> Result<usize, Fault>
    ensures { Writes (wording header) target.old target.new result }
{
    match header {
        Ok(header) => write_first_line(header.jobs(), header.crews(), target),
        Err(fault) => write_refusal(fault, target),
    }
}
