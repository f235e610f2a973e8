//! Fields at the edges: widths, positions, values, and what follows the last field.
use bits::field::Field;
use bits::tail::{first_stray, holds};

#[test]
fn reads(rt: HostRuntime) {
    let bytes = [0x10, 0xC2, 0x00, 0x09, 0x00];
    assert_eq!(rt; Field::<8> { at: 0, bits: 4 }.read(&bytes), Some(1));
    assert_eq!(rt; Field::<8> { at: 4, bits: 7 }.read(&bytes), Some(6));
    assert_eq!(rt; Field::<8> { at: 11, bits: 5 }.read(&bytes), Some(2));
    assert_eq!(rt; Field::<32> { at: 16, bits: 17 }.read(&bytes), Some(18));
    assert_eq!(rt;
        Field::<63> { at: 0, bits: 40 }.read(&bytes),
        Some(0x10_C200_0900)
    );
    assert_eq!(rt; Field::<63> { at: 0, bits: 41 }.read::<u64>(&bytes), None);
    assert_eq!(rt; Field::<8> { at: 39, bits: 1 }.read(&bytes), Some(0));
    assert_eq!(rt; Field::<8> { at: 40, bits: 1 }.read::<u8>(&bytes), None);
    assert_eq!(rt; Field::<8> { at: 4, bits: 8 }.read(&bytes), Some(0x0C));
    assert_eq!(rt; Field::<8> { at: 0, bits: 8 }.read(&[0xFF]), Some(255));
    assert_eq!(rt;
        Field::<32> { at: 0, bits: 32 }.read(&[0xFF; 4]),
        Some(u32::MAX)
    );
    assert_eq!(rt; Field::<8> { at: 0, bits: 1 }.read::<u8>(&[]), None);
    assert_eq!(rt;
        Field::<63> {
            at: u32::MAX,
            bits: 63
        }
        .read::<u64>(&bytes),
        None
    );
}

#[test]
fn the_widest_field(rt: HostRuntime) {
    let mut bytes = [0x55; 9];
    let most = (1 << 63) - 1;
    let field = Field::<63> { at: 5, bits: 63 };
    assert!(rt; field.write(&mut bytes, most));
    assert!(rt; bytes == [0x57, 0xFF, 0xFF, 0xFF, 0xFF, 0xFF, 0xFF, 0xFF, 0xF5]);
    assert_eq!(rt; field.read(&bytes), Some(most));
    assert!(rt; field.write(&mut bytes, 1));
    assert!(rt; bytes == [0x50, 0, 0, 0, 0, 0, 0, 0, 0x15]);
}

#[test]
fn every_number_type(rt: HostRuntime) {
    let mut bytes = [0; 11];
    let small = Field::<8> { at: 1, bits: 8 };
    let time = Field::<16> { at: 9, bits: 11 };
    let layover = Field::<32> { at: 20, bits: 17 };
    let wide = Field::<63> { at: 37, bits: 34 };
    let cut = Field::<16> { at: 73, bits: 16 };
    assert!(rt; small.write(&mut bytes, 200) && time.write(&mut bytes, 1440));
    assert!(rt; layover.write(&mut bytes, 92_160) && wide.write(&mut bytes, 1 << 33));
    assert!(rt; !time.write(&mut bytes, 2048) && !cut.write(&mut bytes, 0));
    assert_eq!(rt; small.read(&bytes), Some(200));
    assert_eq!(rt; time.read(&bytes), Some(1440));
    assert_eq!(rt; layover.read(&bytes), Some(92_160));
    assert_eq!(rt; wide.read(&bytes), Some(1 << 33));
    assert_eq!(rt; cut.read::<u16>(&bytes), None);
}

#[test]
fn what_does_not_fit_is_not_written(rt: HostRuntime) {
    let mut bytes = [0xA5, 0x5A];
    assert!(rt; !Field::<63> { at: 0, bits: 4 }.write(&mut bytes, 16));
    assert!(rt; !Field::<63> { at: 13, bits: 4 }.write(&mut bytes, 1));
    assert!(rt;
        !Field::<63> {
            at: u32::MAX,
            bits: 1
        }
        .write(&mut bytes, 1)
    );
    assert!(rt; bytes == [0xA5, 0x5A]);
    assert!(rt; Field::<63> { at: 12, bits: 4 }.write(&mut bytes, 15));
    assert!(rt; bytes == [0xA5, 0x5F]);
}

#[test]
fn stray_bits(rt: HostRuntime) {
    assert_eq!(rt; first_stray(&[0xFE], 7), None);
    assert_eq!(rt; first_stray(&[0xFF], 7), Some(7));
    assert_eq!(rt; first_stray(&[0xFF], 8), None);
    assert_eq!(rt; first_stray(&[0xC5], 2), Some(5));
    assert_eq!(rt; first_stray(&[0xC0, 0x00], 2), Some(8));
    assert_eq!(rt; first_stray(&[0xC0, 0xFF], 2), Some(8));
    assert_eq!(rt; first_stray(&[0xC0, 0xFF], 8), Some(8));
    assert_eq!(rt; first_stray(&[0xC1, 0x00], 2), Some(7));
    assert_eq!(rt; first_stray(&[], 0), None);
    assert_eq!(rt; first_stray(&[0x00], 0), Some(0));
    assert_eq!(rt; first_stray(&[0xFF], 9), None);
}

#[test]
fn targets(rt: HostRuntime) {
    assert!(rt; holds(&[0; 3], 3) && holds(&[], 0) && !holds(&[0; 3], 4));
}
