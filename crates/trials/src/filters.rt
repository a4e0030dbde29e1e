// The tests of filters on examples: the edges of ranges, empty ranges, rows of other lengths, and the order.
use filter::{Filter, Notice, in_place};

#[test]
fn covers_by_its_numbers(rt: HostRuntime) {
    let wide = Filter::new(&[0, 9, 3, 7]);
    let narrow = Filter::new(&[2, 5, 3, 7]);
    let empty = Filter::new(&[5, 2, 3, 7]);
    assert!(rt; wide.covers(narrow) && !narrow.covers(wide) && wide.covers(wide));
    assert!(rt; narrow.covers(empty) && !empty.covers(narrow));
    assert!(rt;
        in_place::covers(&[], &[])
            && !in_place::covers(&[1], &[1])
            && !in_place::covers(&[0, 9], &[0, 9, 0, 9])
    );
}

#[test]
fn matches_at_the_edges(rt: HostRuntime) {
    let f = Filter::new(&[2, 5, 3, 7]);
    assert!(rt; f.matches(Notice::new(&[2, 7])) && f.matches(Notice::new(&[5, 3])));
    assert!(rt;
        !f.matches(Notice::new(&[1, 7]))
            && !f.matches(Notice::new(&[6, 3]))
            && !f.matches(Notice::new(&[2, 8]))
    );
    assert!(rt; !Filter::new(&[5, 2]).matches(Notice::new(&[3])));
    assert!(rt;
        in_place::matches(&[2, 5], &[4, 99])
            && !in_place::matches(&[2, 5], &[])
            && !in_place::matches(&[2], &[2])
    );
}

#[test]
fn orders_number_by_number(rt: HostRuntime) {
    let a = Filter::new(&[2, 5, 3, 7]);
    let b = Filter::new(&[2, 6, 0, 0]);
    assert!(rt; a.before(b) && !b.before(a) && !a.before(a));
    assert!(rt; a.same(a) && !a.same(b) && a == a && a != b);
    assert!(rt;
        in_place::before(&[1], &[1, 0])
            && !in_place::before(&[1, 0], &[1])
            && !in_place::same(&[1], &[1, 0])
    );
}
