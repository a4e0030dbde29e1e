// What is announced on examples: equal filters, empty ranges, chains and antichains of 1,024.
use cover::{Unfit, tell};
use std::process::Abort;

fn expect(
    rt: &impl Abort,
    known: &[u64],
    said: &mut [u64],
    mail: &mut [u64],
    told: Result<usize, Unfit>,
) {
    assert_eq!(rt; tell(known, said, mail), told);
}

// Filters of one pair: 1-1, 2-2 and so on, none of which covers another.
fn lay_antichain(known: &mut [u64]) {
    for (i, word) in known.iter_mut().enumerate() {
        *word = (i / 2) as u64;
    }
}

// Filters of one pair, each within the one before.
fn lay_chain(known: &mut [u64]) {
    for (i, word) in known.iter_mut().enumerate() {
        let k = (i / 2) as u64;
        *word = if i % 2 == 0 { k } else { u64::MAX - k };
    }
}

#[test]
fn announces_each_once(rt: HostRuntime) {
    let mut said = [0; 16385];
    let mut mail = [0; 32770];
    // twice the same, one that it covers, and one that ends before it begins and is covered by its numbers
    let known = [1, 4, 2, 5, 2, 5, 3, 4, 4, 3];
    expect(&rt, &known, &mut said, &mut mail, Ok(1));
    assert!(rt; said[0] == 1 && said[1] == 2 && said[2] == 5);
    expect(&rt, &known, &mut said, &mut mail, Ok(0));
    // an empty range that nothing covers is announced, and what is no more is cut
    expect(&rt, &[1, 1, 9, 1], &mut said, &mut mail, Ok(2));
    assert!(rt; mail[0] == 1 && mail[1] == 1 && mail[2] == 9 && mail[4] == 2);
}

#[test]
fn announces_all_of_an_antichain(rt: HostRuntime) {
    let mut known = [0; 2050];
    let mut said = [0; 16385];
    let mut mail = [0; 32770];
    lay_antichain(&mut known);
    known[0] = 1;
    known[1] = 1024;
    expect(&rt, &known, &mut said, &mut mail, Ok(1024));
    expect(&rt, &[1, 1, 0, 5000], &mut said, &mut mail, Ok(1025));
    assert!(rt; mail[0] == 1 && mail[1] == 1024 && said[0] == 1);
}

#[test]
fn announces_the_first_of_a_chain(rt: HostRuntime) {
    let mut known = [0; 2050];
    let mut said = [0; 16385];
    let mut mail = [0; 32770];
    lay_chain(&mut known);
    known[0] = 1;
    known[1] = 1024;
    expect(&rt, &known, &mut said, &mut mail, Ok(1));
    assert!(rt; said[0] == 1 && said[1] == 1);
}

#[test]
fn refuses_what_is_cut_short(rt: HostRuntime) {
    let mut said = [0; 16385];
    let mut mail = [0; 32770];
    expect(&rt, &[1, 2, 3, 4], &mut said, &mut mail, Err(Unfit::Known));
    expect(&rt, &[9, 0], &mut said, &mut mail, Err(Unfit::Known));
    expect(&rt, &[1, 0], &mut said, &mut mail[1..], Err(Unfit::Mail));
}
