use crate::words::{OFF, ON};
use quota::Quota;
use sink::{Sink, SinkFault};
use trace::Trace;

#[test]
fn a_quota_of_0_over_a_trace_takes_nothing_and_tells_too_few_trees_first(rt: HostRuntime) {
    let mut bytes = [7; 32];
    let mut sink = Quota::new(0, Trace::new(&mut bytes));
    let answers = [sink.leaf(ON), sink.node(0, 0), sink.node(0, 1)];
    let too_few = Err(SinkFault::TooFewTrees { trees: 0 });
    let full = Err(SinkFault::Full { trees: 0 });
    assert_eq!(rt; answers, [full, full, too_few]);
    assert_eq!(rt; &sink.finish().finish()[..], &[7; 32][..]);
}

#[test]
fn a_quota_ends_at_the_smaller_of_its_number_and_the_places_below(rt: HostRuntime) {
    let mut bytes = [0; 32];
    let mut sink = Quota::new(3, Trace::new(&mut bytes));
    let answers = [
        sink.leaf(ON),
        sink.leaf(OFF),
        sink.node(1, 3),
        sink.node(1, 2),
    ];
    let too_few = Err(SinkFault::TooFewTrees { trees: 2 });
    let full = Err(SinkFault::Full { trees: 2 });
    assert_eq!(rt; answers, [Ok(()), Ok(()), too_few, full]);
    assert_eq!(rt; sink.trees(), 2);
}

#[test]
fn quotas_stack_over_a_sink_that_is_lent(rt: HostRuntime) {
    let mut bytes = [0; 64];
    let mut trace = Trace::new(&mut bytes);
    let mut sink = Quota::new(5, Quota::new(1, &mut trace));
    let answers = [sink.leaf(ON), sink.leaf(OFF)];
    drop(sink);
    assert_eq!(rt; answers, [Ok(()), Err(SinkFault::Full { trees: 1 })]);
    assert_eq!(rt; trace.leaf(OFF), Ok(()));
    assert_eq!(rt; (trace.trees(), trace.written()), (2, 2));
}

#[test]
fn a_fault_has_its_number_and_the_length_of_the_list_as_its_place(rt: HostRuntime) {
    let full = SinkFault::Full { trees: 4 };
    let few = SinkFault::TooFewTrees { trees: 5 };
    assert_eq!(rt;
        [(full.number(), full.place()), (few.number(), few.place())],
        [(23, 4), (24, 5)]
    );
}
