// The commands that a network takes.
use filter::{Filter, Notice};

#[derive(Clone, Copy, PartialEq, Eq, Debug)]
pub enum Command {
    // A subscriber comes to a broker, with a number and a filter.
    Join {
        broker: u64,
        number: u64,
        filter: Filter,
    },
    // The subscriber with this number leaves the broker.
    Leave {
        broker: u64,
        number: u64,
    },
    // A notice with a number arrives at a broker.
    Post {
        broker: u64,
        number: u64,
        notice: Notice,
    },
    // The oldest message from the first broker to the second arrives.
    Carry {
        from: u64,
        to: u64,
    },
}
