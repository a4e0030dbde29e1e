// A broker on examples: its subscribers at the edges of their room, who is reached, and what is to be announced.
use broker::neighbour::Neighbour;
use broker::{announcing, forwarding, subscribers};
use filter::Filter;
use std::test::Fail;

#[test]
fn subscribers_come_and_go(rt: HostRuntime) -> Result<(), Fail> {
    let mut part = [0; 10];
    subscribers::join(&mut part, 1, 3, 20, Filter::new(&[0, 9]))?;
    subscribers::join(&mut part, 1, 3, 30, Filter::new(&[2, 5]))?;
    subscribers::join(&mut part, 1, 3, 40, Filter::new(&[4, 7]))?;
    assert!(rt; subscribers::join(&mut part, 1, 3, 50, Filter::new(&[0, 0])).is_err());
    subscribers::leave(&mut part, 1, 20)?;
    assert_eq!(rt; part, [2, 30, 2, 5, 40, 4, 7, 0, 0, 0]);
    assert!(rt; subscribers::leave(&mut part, 1, 20).is_err());
    assert_eq!(rt; subscribers::find(&part, 1, 40), Some(1));
    assert_eq!(rt; subscribers::find(&part, 1, 20), None);
    Ok(())
}

#[test]
fn a_notice_reaches_those_that_match(rt: HostRuntime) {
    let part = [3, 20, 0, 9, 30, 2, 5, 40, 4, 7];
    let mut out = [0; 3];
    assert_eq!(rt; subscribers::deliver(&part, 1, &[6], &mut out), 2);
    assert_eq!(rt; out, [20, 40, 0]);
}

#[test]
fn sixty_four_subscribers_and_no_more(rt: HostRuntime) -> Result<(), Fail> {
    let mut part = [0; 193];
    for n in 0..64 {
        subscribers::join(&mut part, 1, 64, n, Filter::new(&[n, n]))?;
    }
    assert!(rt; subscribers::join(&mut part, 1, 64, 64, Filter::new(&[9, 9])).is_err());
    assert_eq!(rt; subscribers::find(&part, 1, 63), Some(63));
    Ok(())
}

#[test]
fn tables_learn_and_change(rt: HostRuntime) {
    let mut table = [0; 7];
    announcing::learn(&mut table, 1, Filter::new(&[2, 5]));
    assert_eq!(rt; table, [1, 2, 5, 0, 0, 0, 0]);
    let mut adds = [0; 4];
    let mut cuts = [0; 4];
    let changes = announcing::compare(&[2, 0, 9, 2, 5], &[2, 2, 5, 4, 7], 1, &mut adds, &mut cuts);
    assert!(rt; changes.adds == 1 && changes.cuts == 1);
    assert_eq!(rt; adds, [4, 7, 0, 0]);
    assert_eq!(rt; cuts, [0, 9, 0, 0]);
}

#[test]
fn a_neighbour_is_not_told_its_own(rt: HostRuntime) -> Result<(), Fail> {
    let own = [1, 30, 2, 5];
    let neighbours = [
        Neighbour {
            broker: 5,
            learned: &[1, 0, 9],
        },
        Neighbour {
            broker: 8,
            learned: &[1, 4, 7],
        },
    ];
    let mut out = [1; 7];
    announcing::to_announce(&own, &neighbours, 5, 1, &mut out);
    assert_eq!(rt; out, [2, 2, 5, 4, 7, 0, 0]);
    Ok(())
}

#[test]
fn a_notice_goes_on_but_not_back(rt: HostRuntime) -> Result<(), Fail> {
    let neighbours = [
        Neighbour {
            broker: 1,
            learned: &[1, 0, 9],
        },
        Neighbour {
            broker: 2,
            learned: &[1, 4, 7],
        },
    ];
    let mut out = [0; 2];
    assert_eq!(rt; forwarding::goes_on(&neighbours, 1, &[5], 1, &mut out), 1);
    assert_eq!(rt; out, [2, 0]);
    Ok(())
}
