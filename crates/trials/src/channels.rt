// Messages and channels on examples: a channel filled to its last slot, drained, and filled again across its end.
use channel::batch::Change;
use channel::{Message, batch, ring};
use cover::Rows;
use filter::{Filter, Notice};
use std::test::Fail;

fn note(number: u64) -> Message {
    Message::Notice {
        number,
        notice: Notice::new(&[9]),
    }
}

// The number of a notice, if it is one.
fn number(message: Option<Message>) -> Option<u64> {
    match message {
        Some(Message::Notice { number, .. }) => Some(number),
        _ => None,
    }
}

#[test]
fn a_channel_goes_round(rt: HostRuntime) -> Result<(), Fail> {
    let mut words = [0; 14];
    ring::append(&mut words, 1, 3, note(1))?;
    ring::append(&mut words, 1, 3, note(2))?;
    ring::append(&mut words, 1, 3, note(3))?;
    assert!(rt; ring::append(&mut words, 1, 3, note(4)).is_err());
    assert_eq!(rt; number(ring::take(&mut words, 1, 3)), Some(1));
    assert_eq!(rt; number(ring::take(&mut words, 1, 3)), Some(2));
    ring::append(&mut words, 1, 3, note(4))?;
    ring::append(&mut words, 1, 3, note(5))?;
    assert_eq!(rt; words, [2, 3, 3, 4, 9, 0, 3, 5, 9, 0, 3, 3, 9, 0]);
    assert_eq!(rt; number(ring::get(&words, 1, 3, 2)), Some(5));
    assert_eq!(rt; number(ring::get(&words, 1, 3, 3)), None);
    Ok(())
}

#[test]
fn an_emptied_channel_is_as_new(rt: HostRuntime) -> Result<(), Fail> {
    let mut words = [0; 10];
    ring::append(&mut words, 1, 2, Message::Add(Filter::new(&[2, 5])))?;
    assert_eq!(rt; words, [0, 1, 1, 0, 2, 5, 0, 0, 0, 0]);
    ring::append(&mut words, 1, 2, Message::Cut(Filter::new(&[0, 9])))?;
    assert_eq!(rt; words, [0, 2, 1, 0, 2, 5, 2, 0, 0, 9]);
    assert!(rt; ring::take(&mut words, 1, 2).is_some());
    assert!(rt; ring::take(&mut words, 1, 2).is_some());
    assert!(rt; ring::take(&mut words, 1, 2).is_none());
    assert_eq!(rt; words, [0; 10]);
    Ok(())
}

#[test]
fn a_batch_is_written_in_order(rt: HostRuntime) -> Result<(), Fail> {
    let mut words = [0; 14];
    batch::append_all(
        &mut words,
        1,
        3,
        Change::Add,
        Rows::new(&[2, 5, 4, 7], 2, 2),
    )?;
    assert!(rt;
        batch::append_all(
            &mut words,
            1,
            3,
            Change::Cut,
            Rows::new(&[0, 9, 1, 1], 2, 2)
        )
        .is_err()
    );
    batch::append_all(
        &mut words,
        1,
        3,
        Change::Cut,
        Rows::new(&[0, 9, 1, 1], 2, 1),
    )?;
    assert_eq!(rt; words, [0, 3, 1, 0, 2, 5, 1, 0, 4, 7, 2, 0, 0, 9]);
    Ok(())
}
