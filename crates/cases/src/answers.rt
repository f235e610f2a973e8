//! What `plan` answers to cards, whole or cut, at the edges of the head's ranges.
use base::fault::Fault;
use bits::field::Field;
use planner::answer::{Answer, answer_card};
use std::process::Abort;
use std::test::Fail;

// The head of a card, with zeros up to a whole byte.
fn head(version: u64, jobs: u64, crews: u64, layover: u64) -> [u8; 5] {
    let mut card = [0; 5];
    Field::<63> { at: 0, bits: 4 }.write(&mut card, version);
    Field::<63> { at: 4, bits: 7 }.write(&mut card, jobs);
    Field::<63> { at: 11, bits: 5 }.write(&mut card, crews);
    Field::<63> { at: 16, bits: 17 }.write(&mut card, layover);
    card
}

// The card is answered by this line, and the target keeps what it held behind it.
fn says(rt: &impl Abort, card: &[u8], line: &str) -> Result<(), Fail> {
    let mut text = [7; 32];
    let Ok(Answer { taken, written }) = answer_card(card, &mut text) else {
        return Err(Fail::new("no room for the answer"));
    };
    assert!(rt; &text[0..written] == line.as_bytes(), "{}", line);
    assert!(rt; taken == line.starts_with("plan "), "{}", line);
    for byte in &text[written..32] {
        assert!(rt; *byte == 7, "{}", line);
    }
    Ok(())
}

#[test]
fn graph_a(rt: HostRuntime) -> Result<(), Fail> {
    says(
        &rt,
        &[
            0x10, 0xC2, 0x00, 0x09, 0x00, 0x20, 0x0B, 0x00, 0x90, 0x03, 0x80, 0x19, 0x80, 0x08,
            0xC0,
        ],
        "plan 6 jobs 2 crews\n",
    )
}

#[test]
fn cut_cards(rt: HostRuntime) -> Result<(), Fail> {
    says(&rt, &[], "refused 1 0\n")?;
    says(&rt, &[0x10], "refused 1 4\n")?;
    says(&rt, &[0x10, 0xC2], "refused 1 16\n")?;
    says(&rt, &[0x10, 0xC2, 0x00, 0x09], "refused 1 16\n")?;
    says(
        &rt,
        &[0x10, 0xC2, 0x00, 0x09, 0x00],
        "plan 6 jobs 2 crews\n",
    )
}

#[test]
fn versions(rt: HostRuntime) -> Result<(), Fail> {
    says(&rt, &[0x00], "refused 2 0\n")?;
    says(&rt, &[0x20], "refused 2 2\n")?;
    says(&rt, &head(15, 0, 0, 0), "refused 2 15\n")
}

#[test]
fn jobs(rt: HostRuntime) -> Result<(), Fail> {
    says(&rt, &head(1, 0, 2, 18), "refused 3 0\n")?;
    says(&rt, &head(1, 1, 2, 18), "plan 1 jobs 2 crews\n")?;
    says(&rt, &head(1, 64, 2, 18), "plan 64 jobs 2 crews\n")?;
    says(&rt, &head(1, 65, 2, 18), "refused 3 65\n")?;
    says(&rt, &head(1, 127, 2, 18), "refused 3 127\n")
}

#[test]
fn crews(rt: HostRuntime) -> Result<(), Fail> {
    says(&rt, &head(1, 6, 0, 18), "refused 4 0\n")?;
    says(&rt, &head(1, 6, 1, 18), "plan 6 jobs 1 crews\n")?;
    says(&rt, &head(1, 6, 16, 18), "plan 6 jobs 16 crews\n")?;
    says(&rt, &head(1, 6, 17, 18), "refused 4 17\n")
}

#[test]
fn layovers(rt: HostRuntime) -> Result<(), Fail> {
    says(&rt, &head(1, 6, 2, 0), "refused 5 0\n")?;
    says(&rt, &head(1, 6, 2, 1), "plan 6 jobs 2 crews\n")?;
    says(&rt, &head(1, 6, 2, 92_160), "plan 6 jobs 2 crews\n")?;
    says(&rt, &head(1, 6, 2, 92_161), "refused 5 92161\n")
}

#[test]
fn the_first_fault_speaks(rt: HostRuntime) -> Result<(), Fail> {
    says(&rt, &head(1, 65, 17, 0), "refused 3 65\n")?;
    says(&rt, &head(1, 6, 17, 0), "refused 4 17\n")?;
    says(&rt, &[0x10, 0x00], "refused 3 0\n")
}

#[test]
fn a_target_too_short(rt: HostRuntime) {
    let card = head(1, 6, 2, 18);
    let mut text = [7; 19];
    assert_eq!(rt;
        answer_card(&card, &mut text),
        Err(Fault::TargetShort { needed: 20 })
    );
    assert!(rt; text == [7; 19]);
    assert_eq!(rt;
        answer_card(&[], &mut text[0..11]),
        Err(Fault::TargetShort { needed: 12 })
    );
    assert!(rt; text == [7; 19]);
}
