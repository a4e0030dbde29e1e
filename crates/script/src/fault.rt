// What is wrong with a script: that it ends too soon, or that a command begins with a byte that means none.

ghost use Rattle.std.specs.Prelude.{◌≡◌, Some};
ghost use Rattle.script.specs.Messages.{expected_text, fault_text};
ghost use Rattle.script.specs.declared.fault.Unopened.TheVariants.{Faulty, Refused};

use layout::Refusal;
use std::fmt;

// What a byte of a script is for.
#[derive(Clone, Copy, PartialEq, Eq, Debug)]
pub enum Expected {
    // How many ranges a filter has.
    Ranges,
    // How many brokers there are.
    Brokers,
    // The broker that this one hangs on.
    HungOn(u64),
    Broker,
    // The second broker, to carry.
    OtherBroker,
    SubscriberNumber,
    NoticeNumber,
    // This one of the filter's numbers, counted from 0.
    Bound(u64),
    // This one of the notice's numbers, counted from 0.
    Value(u64),
}

#[derive(Clone, Copy, PartialEq, Eq, Debug)]
pub enum Fault {
    // The script ends at this byte, where this was expected.
    Cut { at: usize, expected: Expected },
    // This byte, where a command begins, is none of 0 to 3.
    Unknown { at: usize, byte: u8 },
}

// Why no network was opened: the script does not hold a whole opening, or the one that it holds is refused.
#[derive(Clone, Copy, PartialEq, Eq, Debug)]
pub enum Unopened {
    Faulty(Fault),
    Refused(Refusal),
}

impl From<Fault> for Unopened {
    ghost from_gives = { λ fault r. r ≡ Faulty fault };

    fn from(fault: Fault) -> Unopened {
        Unopened::Faulty(fault)
    }
}

impl From<Refusal> for Unopened {
    ghost from_gives = { λ refusal r. r ≡ Refused refusal };

    fn from(refusal: Refusal) -> Unopened {
        Unopened::Refused(refusal)
    }
}

impl fmt::Display for Expected {
    ghost output = { λ e. Some (expected_text e) };

    fn fmt<W: fmt::Write>(&self, f: &mut fmt::Formatter<W>) -> fmt::Result {
        match *self {
            Expected::Ranges => write!(f, "how many ranges a filter has"),
            Expected::Brokers => write!(f, "how many brokers there are"),
            Expected::HungOn(broker) => write!(f, "the broker that broker {broker} hangs on"),
            Expected::Broker => write!(f, "a broker"),
            Expected::OtherBroker => write!(f, "the second broker"),
            Expected::SubscriberNumber => write!(f, "a subscriber's number"),
            Expected::NoticeNumber => write!(f, "a notice's number"),
            Expected::Bound(i) => write!(f, "a filter's number at place {i}"),
            Expected::Value(i) => write!(f, "a notice's number at place {i}"),
        }
    }
}

impl fmt::Display for Fault {
    ghost output = { λ e. Some (fault_text e) };

    fn fmt<W: fmt::Write>(&self, f: &mut fmt::Formatter<W>) -> fmt::Result {
        match *self {
            Fault::Cut { at, expected } => write!(
                f,
                "the script ends at byte {at}, where {expected} was expected"
            ),
            Fault::Unknown { at, byte } => write!(
                f,
                "byte {at} is {byte}, where a command was expected: 0 join, 1 leave, 2 post or 3 carry"
            ),
        }
    }
}
