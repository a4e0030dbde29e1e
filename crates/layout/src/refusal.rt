// Why an opening or a command was refused: a case for each rule, with the value that it names.
ghost use Rattle.std.specs.Prelude.{◌≡◌, Some};
ghost use Rattle.layout.specs.Refusal.{refusal_number, refusal_place, refusal_line};

use std::fmt;

#[derive(Clone, Copy, PartialEq, Eq, Debug)]
pub enum Refusal {
    // The ranges of a filter, the count of brokers or a room is out of bounds, at 0; a broker hangs on none before it, at the broker; the lent
    // memory is too short, at its length.
    BadOpening(u64),
    // There is no such broker.
    NoSuchBroker(u64),
    // To carry: the second of two brokers that are not beside each other.
    NotBeside(u64),
    // To join: the subscriber's number is used somewhere in the network.
    NumberUsed(u64),
    // To leave: the subscriber's number is not at that broker.
    NotSubscribed(u64),
    // The broker has as many subscribers as there is room for, this many.
    BrokerFull(u64),
    // A notice with this number was posted.
    NoticeUsed(u64),
    // A number is not below 2^32: its place in the command, where the broker is at 0, the subscriber's or notice's number at 1, and the numbers of
    // the filter or notice follow.
    NumberTooLarge(u64),
    // As many notices were posted as there is room for, this many.
    TooManyNotices(u64),
    // The channel to this broker has no room for all that the command would send.
    ChannelFull(u64),
    // There is no room for what would be delivered: this many deliveries are kept.
    TooManyDeliveries(u64),
}

impl Refusal {
    // The rule's number.
    pub fn number(self) -> u64
        ensures { result ≡ refusal_number self }
    {
        match self {
            Refusal::BadOpening(_) => 1,
            Refusal::NoSuchBroker(_) | Refusal::NotBeside(_) => 2,
            Refusal::NumberUsed(_) | Refusal::NotSubscribed(_) => 3,
            Refusal::BrokerFull(_) => 4,
            Refusal::NoticeUsed(_) => 5,
            Refusal::NumberTooLarge(_) => 6,
            Refusal::TooManyNotices(_) => 7,
            Refusal::ChannelFull(_) => 8,
            Refusal::TooManyDeliveries(_) => 9,
        }
    }

    // The value that the rule names.
    pub fn place(self) -> u64
        ensures { result ≡ refusal_place self }
    {
        match self {
            Refusal::BadOpening(place) | Refusal::NumberTooLarge(place) => place,
            Refusal::NoSuchBroker(broker)
            | Refusal::NotBeside(broker)
            | Refusal::ChannelFull(broker) => broker,
            Refusal::NumberUsed(number)
            | Refusal::NotSubscribed(number)
            | Refusal::NoticeUsed(number) => number,
            Refusal::BrokerFull(room)
            | Refusal::TooManyNotices(room)
            | Refusal::TooManyDeliveries(room) => room,
        }
    }
}

impl fmt::Display for Refusal {
    ghost output = { λ r. Some (refusal_line r) };

    fn fmt<W: fmt::Write>(&self, f: &mut fmt::Formatter<W>) -> fmt::Result {
        let number = self.number();
        let place = self.place();
        write!(f, "refused {number} at {place}")
    }
}
