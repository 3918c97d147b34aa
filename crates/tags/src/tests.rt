use crate::refusal::{MapFault, Refusal};
use crate::tag::{Tag, check};

const WIDE: [u8; 202] = [b'x'; 202];

#[test]
fn lengths(rt: HostRuntime) {
    assert_eq!(rt; check(&[]), Err(Refusal::EmptyTag));
    assert_eq!(rt; check(&WIDE[0..1]), Ok(()));
    assert_eq!(rt; check(&WIDE[0..200]), Ok(()));
    assert_eq!(rt; check(&WIDE[0..201]), Err(Refusal::LongTag));
    assert_eq!(rt; check(&WIDE), Err(Refusal::LongTag));
}

#[test]
fn too_long_goes_before_a_bad_byte(rt: HostRuntime) {
    let mut bytes = [b'x'; 201];
    bytes[100] = 0;
    assert_eq!(rt; check(&bytes), Err(Refusal::LongTag));
}

#[test]
fn bad_bytes_at_every_place(rt: HostRuntime) {
    for bad in [0, 255] {
        for at in [0usize, 100, 199] {
            let mut bytes = [b'x'; 200];
            bytes[at] = bad;
            assert_eq!(rt; check(&bytes), Err(Refusal::BadByte));
        }
    }
}

#[test]
fn every_other_byte_passes(rt: HostRuntime) {
    for byte in 1..255u8 {
        assert_eq!(rt; check(&[byte]), Ok(()));
    }
}

#[test]
fn a_tag_is_a_window(rt: HostRuntime) {
    assert_eq!(rt; Tag::new(b"technics").bytes(), b"technics".as_slice());
    assert_eq!(rt; Tag::new(b"").bytes(), b"?".as_slice());
    let read = Tag::try_from(b"technics".as_slice());
    assert_eq!(rt; read.map(|tag| tag.bytes()), Ok(b"technics".as_slice()));
    assert!(rt; matches!(Tag::try_from(b"".as_slice()), Err(Refusal::EmptyTag)));
}

#[test]
fn spelled_forms(rt: HostRuntime) {
    assert_eq!(rt;
        Tag::new(b"ab").spelled().bytes(),
        [b'a', b'b', 0].as_slice()
    );
    let longest = Tag::new(&WIDE[0..200]).spelled();
    assert_eq!(rt; longest.bytes().len(), 201);
    assert_eq!(rt; longest.bytes().last().copied(), Some(0));
}

#[test]
fn ten_brings_the_map_fault(rt: HostRuntime) {
    let why = Refusal::NoNextRoom(MapFault::LastRoom);
    assert_eq!(rt; u8::from(why), 10);
    assert_eq!(rt; u8::from(MapFault::LastRoom), 5);
}
