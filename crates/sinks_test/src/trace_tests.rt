use crate::words::{OFF, ON};
use replay::{Event, recorded};
use sink::SinkFault;
use syntax::Token;

const EMPTY: Event = Event::Node {
    production: 0,
    children: 0,
};

const MORE: Event = Event::Node {
    production: 1,
    children: 2,
};

/// The records of a plan `on off`: a letter, its numbers, and of a leaf the place and the letters of its word.
const ON_OFF: [u8; 80] = *b"N\0\0\0\0\0\0\0\0\0\0\0\0\0\0\0\
    L\x01\0\0\0\0\0\0\0\0\0\0\0\0on\
    N\x01\x02\0\0\0\0\0\0\0\0\0\0\0\0\0\
    L\x01\0\0\0\0\0\x03\0\0\0\0\0off\
    N\x01\x02\0\0\0\0\0\0\0\0\0\0\0\0\0";

#[test]
fn the_events_of_on_off_give_exactly_the_bytes_of_the_format(rt: HostRuntime) {
    let mut bytes = [255; 80];
    let (answer, written) = recorded(
        9,
        &mut bytes,
        &[EMPTY, Event::Leaf(ON), MORE, Event::Leaf(OFF), MORE],
    );
    assert_eq!(rt; answer, Ok(()));
    assert_eq!(rt; &written[..], &ON_OFF[..]);
}

#[test]
fn a_trace_of_79_bytes_holds_four_records_and_leaves_the_last_15_bytes(rt: HostRuntime) {
    let mut bytes = [255; 79];
    let (answer, written) = recorded(
        9,
        &mut bytes,
        &[EMPTY, Event::Leaf(ON), MORE, Event::Leaf(OFF), MORE],
    );
    assert_eq!(rt; answer, Err(SinkFault::Full { trees: 2 }));
    let (records, rest) = written.split_at(64);
    assert_eq!(rt; &records[..], &ON_OFF[0..64]);
    assert_eq!(rt; &rest[..], &[255; 15][..]);
}

#[test]
fn a_number_of_64_bits_is_written_highest_byte_first(rt: HostRuntime) {
    let mut bytes = [0; 16];
    let token = Token {
        place: 0x01020304,
        value: 0x1112131415161718,
        ..ON
    };
    let (answer, written) = recorded(1, &mut bytes, &[Event::Leaf(token)]);
    assert_eq!(rt; answer, Ok(()));
    let expected = [b'L', 1, 0, 0, 1, 2, 3, 4, 17, 18, 19, 20, 21, 22, 23, 24];
    assert_eq!(rt; &written[..], &expected[..]);
}
