use crate::words::{OFF, ON};
use measure::{Measure, Span, over_leaves};
use sink::{Sink, SinkFault};
use syntax::Token;
use totals::Totals;

/// A number of a plan, which counts as minutes.
fn number(value: u64) -> Token {
    Token {
        kind: 2,
        place: 9,
        length: 1,
        value,
    }
}

#[test]
fn minutes_stop_at_the_largest_number(rt: HostRuntime) {
    let mut places = [0u64; 3];
    let mut totals = Totals::new(&mut places);
    let answers = [
        totals.leaf(number(u64::MAX - 1)),
        totals.leaf(ON),
        totals.leaf(number(2)),
        totals.node(1, 3),
    ];
    assert_eq!(rt; answers, [Ok(()); 4]);
    assert_eq!(rt; totals.finish().first().copied(), Some(u64::MAX));
}

#[test]
fn a_span_over_two_tokens_goes_from_the_first_place_to_the_last_end(rt: HostRuntime) {
    let mut places = [Span { start: 0, end: 0 }; 2];
    let mut totals = Totals::new(&mut places);
    let answers = [totals.leaf(OFF), totals.leaf(ON), totals.node(1, 2)];
    assert_eq!(rt; answers, [Ok(()); 3]);
    assert_eq!(rt;
        totals.finish().first().copied(),
        Some(Span { start: 0, end: 6 })
    );
}

#[test]
fn a_span_may_end_beyond_32_bits_and_that_of_no_token_is_the_unit(rt: HostRuntime) {
    let far = Token {
        place: u32::MAX,
        ..ON
    };
    let spans = [over_leaves::<Span>(&[far]), over_leaves::<Span>(&[])];
    let unit = Span {
        start: 4294967295,
        end: 0,
    };
    let beyond = Span {
        start: 4294967295,
        end: 4294967297,
    };
    assert_eq!(rt; spans, [beyond, unit]);
}

#[test]
fn two_places_are_full_for_a_childless_node_and_not_for_one_with_children(rt: HostRuntime) {
    let mut places = [0u64; 2];
    let mut totals = Totals::new(&mut places);
    let leaves = [
        totals.leaf(number(3)),
        totals.leaf(number(4)),
        totals.leaf(number(5)),
    ];
    let nodes = [totals.node(0, 0), totals.node(0, 3), totals.node(0, 2)];
    let full = Err(SinkFault::Full { trees: 2 });
    let too_few = Err(SinkFault::TooFewTrees { trees: 2 });
    assert_eq!(rt; leaves, [Ok(()), Ok(()), full]);
    assert_eq!(rt; nodes, [full, too_few, Ok(())]);
    assert_eq!(rt; totals.finish().first().copied(), Some(7));
}
