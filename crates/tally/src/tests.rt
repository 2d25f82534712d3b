use crate::{Pair, Span, Sum, Tally};

#[test]
fn a_sum_counts_modulo_its_width(rt: HostRuntime) {
    assert_eq!(rt; Sum::of(3).join(Sum::of(4)).value(), 7);
    assert_eq!(rt; Sum::of(18446744073709551615).join(Sum::of(2)).value(), 1);
    assert_eq!(rt; <Sum as Tally>::neutral_value().value(), 0);
}

#[test]
fn a_span_covers_its_times_in_either_order(rt: HostRuntime) {
    let backward = Span::of(5, 3);
    assert_eq!(rt; (backward.first(), backward.last()), (Some(3), Some(5)));
    assert_eq!(rt; backward.times(), Some((3, 5)));
    assert_eq!(rt; backward.join(Span::at(4)), Span::of(3, 5));
    assert_eq!(rt;
        Span::at(4294967295).join(Span::at(0)),
        Span::of(0, 4294967295)
    );
}

#[test]
fn an_empty_span_leaves_the_other_as_it_stands(rt: HostRuntime) {
    let empty = <Span as Tally>::neutral_value();
    assert_eq!(rt; (empty.first(), empty.last()), (None, None));
    assert_eq!(rt; empty.times(), None);
    assert_eq!(rt; empty.join(Span::of(5, 3)), Span::of(5, 3));
    assert_eq!(rt; Span::of(5, 3).join(empty), Span::of(5, 3));
}

#[test]
fn a_pair_is_joined_part_by_part(rt: HostRuntime) {
    let one = Pair {
        first: Sum::of(1),
        second: Span::of(9, 7),
    };
    let other = Pair {
        first: Sum::of(2),
        second: Span::at(8),
    };
    let whole = one.join(other).join(<Pair<_, _> as Tally>::neutral_value());
    assert_eq!(rt; whole.first.value(), 3);
    assert_eq!(rt; whole.second, Span::of(7, 9));
}
