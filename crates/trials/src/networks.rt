// A network on examples: the worked example played, and what is under way and learned after each of its commands.
use channel::Message;
use filter::{Filter, Notice};
use network::{Network, Opening, Rooms};
use std::alloc::Global;
use std::fmt::Write;
use std::process::Abort;
use std::test::Fail;

// A message as the example writes it.
fn tell_message(text: &mut String, message: Message) -> Result<(), Fail> {
    match message {
        Message::Add(filter) => tell_filter(text, "add ", filter),
        Message::Cut(filter) => tell_filter(text, "cut ", filter),
        Message::Notice { number, .. } => {
            write!(text, "notice {number}")?;
            Ok(())
        }
    }
}

fn tell_filter(text: &mut String, what: &str, filter: Filter) -> Result<(), Fail> {
    let low = filter.bounds[0];
    let high = filter.bounds[1];
    write!(text, "{what}{low}-{high}")?;
    Ok(())
}

// The messages from one broker to another, the oldest first, behind those of the channels before.
fn tell_channel(text: &mut String, net: &Network<'_>, from: u64, to: u64) -> Result<(), Fail> {
    let messages = (0..8).map_while(|i| net.message(from, to, i));
    for (i, message) in messages.enumerate() {
        if i > 0 {
            text.push_str(", ")?;
        } else {
            if !text.is_empty() {
                text.push_str("; ")?;
            }
            write!(text, "{from}>{to} ")?;
        }
        tell_message(text, message)?;
    }
    Ok(())
}

// All that is under way.
fn under_way(heap: Global, net: &Network<'_>) -> Result<String, Fail> {
    let mut text = String::new(heap);
    for from in 0..4 {
        for to in 0..4 {
            tell_channel(&mut text, net, from, to)?;
        }
    }
    Ok(text)
}

// What broker 0 has learned from 1.
fn learned(heap: Global, net: &Network<'_>) -> Result<String, Fail> {
    let mut text = String::new(heap);
    let filters = (0..8).map_while(|i| net.learned(0, 1, i));
    for (i, filter) in filters.enumerate() {
        if i > 0 {
            text.push_str(", ")?;
        }
        tell_filter(&mut text, "", filter)?;
    }
    Ok(text)
}

// Whether this is under way, and broker 0 has learned that from 1; the network is quiet just if nothing is under way.
fn stands(
    rt: &impl Abort,
    heap: Global,
    net: &Network<'_>,
    way: &str,
    known: &str,
) -> Result<(), Fail> {
    assert_eq!(rt; under_way(heap, net)?.as_str(), way);
    assert_eq!(rt; learned(heap, net)?.as_str(), known);
    assert_eq!(rt; net.is_quiet(), way.is_empty());
    Ok(())
}

// A filter with one range.
fn range(low: u64, high: u64) -> Filter {
    Filter::new(&[low, high])
}

// The worked example up to the first notice.
fn subscribe(rt: &impl Abort, heap: Global, net: &mut Network<'_>) -> Result<(), Fail> {
    stands(rt, heap, net, "", "")?;
    net.join(2, 20, range(0, 9))?;
    stands(rt, heap, net, "2>1 add 0-9", "")?;
    net.carry(2, 1)?;
    stands(rt, heap, net, "1>0 add 0-9; 1>3 add 0-9", "")?;
    net.carry(1, 0)?;
    net.carry(1, 3)?;
    stands(rt, heap, net, "", "0-9")?;
    net.join(3, 30, range(2, 5))?;
    assert_eq!(rt; net.known_to_all(3, 30)?, false);
    net.carry(3, 1)?;
    stands(rt, heap, net, "1>2 add 2-5", "0-9")?;
    assert_eq!(rt; net.known_to_all(3, 30)?, false);
    net.carry(1, 2)?;
    stands(rt, heap, net, "", "0-9")?;
    assert_eq!(rt; net.known_to_all(3, 30)?, true);
    Ok(())
}

#[test]
fn the_worked_example(rt: HostRuntime) -> Result<(), Fail> {
    let heap = rt.alloc();
    let opening = Opening::new(
        1,
        4,
        &[0, 1, 1],
        Rooms {
            subscribers: 2,
            messages: 4,
        },
    )?;
    let mut memory = vec![in heap; 0u64; opening.words()]?;
    if memory.len() < opening.words() {
        return Err(Fail::new("too little memory"));
    }
    let mut net = Network::open(&mut memory, opening);
    subscribe(&rt, heap, &mut net)
}
