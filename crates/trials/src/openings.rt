// Openings on examples: the bounds of each part, the order of the refusals, and the words that a network takes.
use network::links::link;
use network::{Opening, Refusal, Rooms};
use std::test::Fail;

fn refused(
    ranges: usize,
    brokers: usize,
    given: &[u8],
    subscribers: usize,
    messages: usize,
) -> Option<Refusal> {
    let rooms = Rooms {
        subscribers,
        messages,
    };
    Opening::new(ranges, brokers, given, rooms).err()
}

#[test]
fn opens_within_bounds(rt: HostRuntime) {
    assert_eq!(rt; refused(1, 1, &[], 1, 1), None);
    assert_eq!(rt;
        refused(
            8,
            16,
            &[0, 1, 2, 3, 4, 5, 6, 7, 8, 9, 10, 11, 12, 13, 14],
            64,
            32768,
        ),
        None
    );
    assert_eq!(rt; refused(1, 2, &[0, 9, 9], 1, 1), None);
}

#[test]
fn refuses_the_first_fault(rt: HostRuntime) {
    assert_eq!(rt; refused(0, 17, &[9], 0, 0), Some(Refusal::BadOpening(0)));
    assert_eq!(rt; refused(9, 2, &[0], 1, 1), Some(Refusal::BadOpening(0)));
    assert_eq!(rt; refused(1, 0, &[], 1, 1), Some(Refusal::BadOpening(0)));
    assert_eq!(rt; refused(1, 2, &[0], 65, 1), Some(Refusal::BadOpening(0)));
    assert_eq!(rt; refused(1, 2, &[0], 1, 32769), Some(Refusal::BadOpening(0)));
    assert_eq!(rt;
        refused(1, 4, &[0, 2, 3], 1, 1),
        Some(Refusal::BadOpening(2))
    );
    assert_eq!(rt; refused(1, 4, &[0, 1], 1, 1), Some(Refusal::BadOpening(3)));
}

#[test]
fn takes_so_many_words(rt: HostRuntime) -> Result<(), Fail> {
    let Ok(smallest) = Opening::new(
        1,
        1,
        &[],
        Rooms {
            subscribers: 1,
            messages: 1,
        },
    ) else {
        return Err(Fail::new("refused"));
    };
    assert_eq!(rt; smallest.words(), 4 + 4097 + 4097 + 131073);
    let Ok(largest) = Opening::new(
        8,
        16,
        &[0, 0, 0, 0, 0, 0, 0, 0, 0, 0, 0, 0, 0, 0, 0],
        Rooms::LARGEST,
    ) else {
        return Err(Fail::new("refused"));
    };
    assert_eq!(rt;
        largest.words(),
        16 * (1089 + 4097) + 30 * (2 * 15601 + 589826) + 4097 + 131073
    );
    let text = Refusal::NumberUsed(20).to_string(rt.alloc())?;
    assert!(rt; text.as_str() == "refused 3 at 20");
    Ok(())
}

#[test]
fn brokers_beside_in_the_order_of_telling(rt: HostRuntime) -> Result<(), Fail> {
    let Ok(four) = Opening::new(1, 4, &[0, 1, 1], Rooms::LARGEST) else {
        return Err(Fail::new("refused"));
    };
    assert!(rt; four.brokers == 4);
    assert_eq!(rt; four.beside(1).as_slice(), [0, 2, 3].as_slice());
    assert!(rt; link(1, 0) == 0 && link(0, 1) == 1 && link(3, 1) == 4 && link(1, 3) == 5);
    Ok(())
}
