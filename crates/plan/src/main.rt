//! Reads a work card from standard input and prints what the planner answers.
//! The exit status is 0 where the card is taken and 1 where it is refused, or where input or output failed.
#![tactic(auto)]

use planner::answer::{Answer, answer_card};
use std::alloc::Global;
use std::io::{self, Read, Write};
use std::process::ExitCode;

// The longest card has 345 bytes, and one byte more shows that a card is too long.
const CARD_LIMIT: u64 = 346;

fn main(rt: HostRuntime) -> ExitCode {
    match answer(rt.alloc(), rt.stdin(), rt.stdout()) {
        Ok(true) => ExitCode::SUCCESS,
        Ok(false) | Err(_) => ExitCode::FAILURE,
    }
}

// Answers the card that is read, and says whether it is taken.
fn answer(
    alloc: Global,
    input: impl Read + Drop,
    mut output: impl Write + Drop,
) -> io::Result<bool> {
    let mut card = Vec::new(alloc);
    input.take(CARD_LIMIT).read_to_end(&mut card)?;
    // The library writes into lent bytes: it takes no memory from a heap.
    let mut text = [0u8; 2048];
    let Ok(Answer { taken, written }) = answer_card(&card, &mut text) else {
        return Ok(false);
    };
    output.write_all(&text[0..written])?;
    Ok(taken)
}
