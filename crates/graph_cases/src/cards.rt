//! Cards, both ways: whole, cut, filled wrongly, and at the edges of the ranges.
use crate::graphs::{draft_a, largest_draft};
use base::fault::Fault;
use bits::field::Field;
use graph::draft::Draft;
use graph::graph::Graph;
use graph_card::read::read;
use graph_card::write::{size, write};
use std::process::Abort;
use std::test::Fail;

// The card of graph A.
pub const CARD_A: [u8; 15] = [
    0x10, 0xC2, 0x00, 0x09, 0x00, 0x20, 0x0B, 0x00, 0x90, 0x03, 0x80, 0x19, 0x80, 0x08, 0xC0,
];

// The bytes are refused so, and the place keeps what it held.
fn refuses(rt: &impl Abort, bytes: &[u8], fault: Fault) {
    let mut place = Graph::smallest();
    assert_eq!(rt; read(bytes, &mut place), Err(fault));
    assert_eq!(rt; place, Graph::smallest());
}

// Writes the card of the graph that the draft makes, and hands a refusal of either on.
fn write_made(draft: &Draft, target: &mut [u8]) -> Result<usize, Fault> {
    let graph = Graph::make(draft)?;
    write(&graph, target)
}

#[test]
fn made_and_written(rt: HostRuntime) {
    let mut target = [7; 15];
    assert_eq!(rt; write_made(&draft_a(), &mut target), Ok(15));
    assert!(rt; target == CARD_A);
    let mut draft = draft_a();
    draft.crews = 17;
    assert_eq!(rt;
        write_made(&draft, &mut target),
        Err(Fault::CrewsOutOfRange { value: 17 })
    );
    assert_eq!(rt;
        write_made(&draft_a(), &mut target[0..14]),
        Err(Fault::TargetShort { needed: 15 })
    );
    assert!(rt; target == CARD_A);
}

#[test]
fn graph_a_both_ways(rt: HostRuntime) {
    let mut place = Graph::smallest();
    assert_eq!(rt; read(&CARD_A, &mut place), Ok(()));
    assert_eq!(rt; Ok(place), Graph::make(&draft_a()));
    assert_eq!(rt; size(&place), 15);
    let mut target = [7; 17];
    assert_eq!(rt; write(&place, &mut target), Ok(15));
    assert!(rt; &target[0..15] == CARD_A.as_slice());
    assert!(rt; target[15] == 7 && target[16] == 7);
}

#[test]
fn a_target_one_byte_short(rt: HostRuntime) -> Result<(), Fail> {
    let Ok(a) = Graph::make(&draft_a()) else {
        return Err(Fail::new("graph A"));
    };
    let mut target = [7; 14];
    assert_eq!(rt;
        write(&a, &mut target),
        Err(Fault::TargetShort { needed: 15 })
    );
    assert!(rt; target == [7; 14]);
    Ok(())
}

#[test]
fn the_largest_card(rt: HostRuntime) -> Result<(), Fail> {
    let Ok(large) = Graph::make(&largest_draft()) else {
        return Err(Fail::new("the largest graph"));
    };
    let mut target = [7; 346];
    assert_eq!(rt; write(&large, &mut target), Ok(345));
    assert!(rt; target[345] == 7);
    refuses(&rt, &target, Fault::StrayBit { bit: 2760 });
    refuses(&rt, &target[0..344], Fault::FieldCut { bit: 2690 });
    let mut place = Graph::smallest();
    assert_eq!(rt; read(&target[0..345], &mut place), Ok(()));
    assert_eq!(rt; place, large);
    Ok(())
}

#[test]
fn every_cut(rt: HostRuntime) {
    let places = [0, 4, 16, 16, 16, 33, 44, 56, 56, 69, 80, 83, 94, 98, 109];
    for (length, bit) in places.iter().enumerate() {
        if length <= 15 {
            refuses(&rt, &CARD_A[0..length], Fault::FieldCut { bit: *bit });
        }
    }
}

#[test]
fn behind_the_fields(rt: HostRuntime) {
    for bit in 114..120u32 {
        let mut card = CARD_A;
        Field::<63> { at: bit, bits: 1 }.write(&mut card, 1);
        refuses(&rt, &card, Fault::StrayBit { bit });
    }
    let mut long = [0; 16];
    long[0..15].copy_from_slice(&CARD_A);
    refuses(&rt, &long, Fault::StrayBit { bit: 120 });
    long[15] = 0xFF;
    refuses(&rt, &long, Fault::StrayBit { bit: 120 });
    long[14] = 0xC5;
    refuses(&rt, &long, Fault::StrayBit { bit: 117 });
}

#[test]
fn times(rt: HostRuntime) {
    let mut card = CARD_A;
    let mut place = Graph::smallest();
    Field::<63> { at: 98, bits: 11 }.write(&mut card, 1440);
    assert_eq!(rt; read(&card, &mut place), Ok(()));
    assert_eq!(rt; place.time(5), 1440);
    Field::<63> { at: 98, bits: 11 }.write(&mut card, 1441);
    refuses(&rt, &card, Fault::TimeOutOfRange { job: 5 });
    Field::<63> { at: 33, bits: 11 }.write(&mut card, 0);
    refuses(&rt, &card, Fault::TimeOutOfRange { job: 0 });
}

#[test]
fn predecessors_and_successors(rt: HostRuntime) {
    let mut card = CARD_A;
    card[14] = 0x40;
    refuses(&rt, &card, Fault::NoSuccessor { job: 3 });
    card[14] = 0x81;
    refuses(&rt, &card, Fault::NoSuccessor { job: 4 });
    card[14] = 0x00;
    refuses(&rt, &card, Fault::NoPredecessor { job: 5 });
    card[10] = 0x00;
    refuses(&rt, &card, Fault::NoPredecessor { job: 3 });
}
