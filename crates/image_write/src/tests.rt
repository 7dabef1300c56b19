// Parts of an image read from outside `image`: of bytes made up by the tables of docs/IMAGE.md, at every kind of place, and of what is
// written here.
use crate::write_image;
use image::{Part, SIZE, VERSION, meter_in};
use line::Party;
use meter::Meter;
use model::Register;
use picks::{Progress, Transfer};

// Four other bytes, a register, one other byte.
const LENT: [u8; 18] = [9, 9, 9, 9, 1, 0, 1, 8, 0, 255, 1, 253, 30, 0, 0, 1, 2, 9];

// The last bytes as a part, for any kind of part.
fn last<T: Part>(s: &[u8]) -> T {
    T::read(s, s.len().saturating_sub(T::SIZE))
}

#[test]
fn a_register_is_read_at_its_place(rt: HostRuntime) {
    let read = Register::read(&LENT, 4);
    assert_eq!(rt; read.name.bytes, [1, 0, 1, 8, 0, 255]);
    assert!(rt; read.readable);
    assert_eq!(rt; read.scaler, 253);
    assert_eq!(rt; read.unit, 30);
    assert_eq!(rt; read.value, 258);
}

#[test]
fn the_last_bytes_are_a_part_too(rt: HostRuntime) {
    assert_eq!(rt; last::<Register>(&LENT[..17]).value, 258);
    assert_eq!(rt; last::<u32>(&LENT[..17]), 258);
    assert_eq!(rt; last::<u16>(&LENT), 521);
    assert_eq!(rt; last::<u8>(&LENT), 9);
    assert_eq!(rt; last::<usize>(&LENT[..17]), 0xFF01_FD1E_0000_0102);
}

#[test]
fn where_too_few_bytes_stand_zeros_are_read(rt: HostRuntime) {
    for at in [6, 17, 18, 19, usize::MAX] {
        let read = Register::read(&LENT, at);
        assert_eq!(rt; read.name.bytes, [0; 6], "at {at}");
        assert!(rt; !read.readable, "at {at}");
        assert_eq!(rt; read.value, 0, "at {at}");
    }
    assert_eq!(rt; last::<u32>(&LENT[..3]), 0);
    assert!(rt; last::<Transfer>(&LENT).progress == Progress::Idle);
}

#[test]
fn a_meter_is_read_behind_the_version(rt: HostRuntime) {
    let mut image = [0u8; SIZE];
    image[0] = VERSION;
    image[104] = 3;
    image[107] = 132;
    image[75] = 1;
    let read = Meter::read(&image, 1);
    assert_eq!(rt; read.body.period, 50331780);
    assert!(rt; read.line.p5);
    assert_eq!(rt; meter_in(&image).body.period, read.body.period);
    assert_eq!(rt; Meter::read(&image, 2).body.period, 0);
}

#[test]
fn what_is_written_is_read_part_by_part(rt: HostRuntime) {
    let mut image = [0u8; SIZE];
    let meter = Meter::new([1; 16], [2; 8], [3; 8], [4; 8])
        .set_period(900)
        .meter;
    assert!(rt; write_image(meter, &mut image).is_ok());
    assert_eq!(rt; u32::read(&image, 104), 900);
    assert_eq!(rt; Party::read(&image, 9).title, [3; 8]);
    assert_eq!(rt; last::<Meter>(&image).body.device, [1; 16]);
}
