//! Number, place and layer of every refusal, and its line.
use base::fault::{Fault, Layer};
use std::process::Abort;
use text::refusal::write_refusal;

fn says(rt: &impl Abort, fault: Fault, number: u8, place: u32, layer: Layer) {
    assert_eq!(rt; fault.number(), number);
    assert_eq!(rt; fault.place(), place, "{}", number);
    assert_eq!(rt; fault.layer(), layer, "{}", number);
}

#[test]
fn numbers_places_layers(rt: HostRuntime) {
    says(&rt, Fault::FieldCut { bit: 33 }, 1, 33, Layer::Bits);
    says(&rt, Fault::UnknownVersion { value: 3 }, 2, 3, Layer::Card);
    says(&rt, Fault::JobsOutOfRange { value: 65 }, 3, 65, Layer::Card);
    says(
        &rt,
        Fault::CrewsOutOfRange { value: 17 },
        4,
        17,
        Layer::Card,
    );
    says(
        &rt,
        Fault::LayoverOutOfRange { value: 0 },
        5,
        0,
        Layer::Card,
    );
    says(&rt, Fault::TimeOutOfRange { job: 63 }, 6, 63, Layer::Graph);
    says(&rt, Fault::NoPredecessor { job: 5 }, 7, 5, Layer::Graph);
    says(&rt, Fault::NoSuccessor { job: 4 }, 8, 4, Layer::Graph);
    says(&rt, Fault::StrayBit { bit: 120 }, 9, 120, Layer::Bits);
    says(
        &rt,
        Fault::TargetShort { needed: 345 },
        10,
        345,
        Layer::Bits,
    );
    says(
        &rt,
        Fault::BoundAboveLayover { bound: 18 },
        11,
        18,
        Layer::Graph,
    );
}

#[test]
fn numbers_places_layers_of_orders_and_runs(rt: HostRuntime) {
    says(&rt, Fault::ListLength { jobs: 6 }, 12, 6, Layer::Order);
    says(&rt, Fault::ListEntry { position: 2 }, 13, 2, Layer::Order);
    says(&rt, Fault::RowsShort { jobs: 64 }, 14, 64, Layer::Run);
    says(&rt, Fault::SlipsShort { places: 16 }, 15, 16, Layer::Run);
    says(&rt, Fault::RunOpen { run: 7 }, 16, 7, Layer::Run);
    says(
        &rt,
        Fault::NumbersSpent { next: u32::MAX },
        17,
        u32::MAX,
        Layer::Run,
    );
    says(&rt, Fault::NoSuchRun { ticket: 8 }, 18, 8, Layer::Run);
    says(&rt, Fault::NoSuchGrant { grant: 9 }, 19, 9, Layer::Run);
    says(&rt, Fault::BeforeClock { clock: 12 }, 20, 12, Layer::Run);
    says(&rt, Fault::Overdue { due: 1440 }, 21, 1440, Layer::Run);
    says(&rt, Fault::PassesOther { job: 3 }, 22, 3, Layer::Run);
}

#[test]
fn equal_refusals(rt: HostRuntime) {
    assert_eq!(rt; Fault::FieldCut { bit: 4 }, Fault::FieldCut { bit: 4 });
    assert_ne!(rt; Fault::FieldCut { bit: 4 }, Fault::FieldCut { bit: 5 });
    assert_ne!(rt; Fault::FieldCut { bit: 4 }, Fault::StrayBit { bit: 4 });
}

#[test]
fn the_longest_line(rt: HostRuntime) {
    let fault = Fault::NumbersSpent { next: u32::MAX };
    let mut text = [7; 22];
    assert_eq!(rt;
        write_refusal(fault, &mut text[0..21]),
        Err(Fault::TargetShort { needed: 22 })
    );
    assert!(rt; text == [7; 22]);
    assert_eq!(rt; write_refusal(fault, &mut text), Ok(22));
    assert!(rt; &text[0..22] == b"refused 17 4294967295\n".as_slice());
}
