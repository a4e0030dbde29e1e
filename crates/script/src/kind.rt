// The kinds of commands, and how they lie in a script: the first byte tells the kind; brokers take a byte, other numbers four, low byte first.
ghost use Rattle.std.specs.Prelude.{◌≡◌, ◌≤◌, ok_or};
ghost use Rattle.script.specs.Script.{kind_of, first_byte, size, part_at};

use crate::Expected;

#[derive(Clone, Copy, PartialEq, Eq, Debug)]
pub enum Kind {
    Join,
    Leave,
    Post,
    Carry,
}

// A byte with which no command begins.
#[derive(Clone, Copy, PartialEq, Eq, Debug)]
pub struct UnknownKind(pub u8);

// The kind of a command by its first byte.
impl TryFrom<u8> for Kind {
    type Error = UnknownKind;

    ghost try_from_gives = { λ byte r. r ≡ ok_or (kind_of byte) (record { 0 = byte }) };

    fn try_from(byte: u8) -> Result<Kind, UnknownKind> {
        match byte {
            0 => Ok(Kind::Join),
            1 => Ok(Kind::Leave),
            2 => Ok(Kind::Post),
            3 => Ok(Kind::Carry),
            _ => Err(UnknownKind(byte)),
        }
    }
}

// The first byte of a command of a kind.
impl From<Kind> for u8 {
    ghost from_gives = { λ kind byte. byte ≡ first_byte kind };

    fn from(kind: Kind) -> u8 {
        match kind {
            Kind::Join => 0,
            Kind::Leave => 1,
            Kind::Post => 2,
            Kind::Carry => 3,
        }
    }
}

impl Kind {
    // How many bytes such a command takes.
    pub fn size(self, ranges: usize) -> usize
        requires { ranges ≤ 8 }
        ensures { result ≡ size ranges self }
    {
        match self {
            Kind::Join => 6 + 8 * ranges,
            Kind::Leave => 6,
            Kind::Post => 6 + 4 * ranges,
            Kind::Carry => 3,
        }
    }

    // What the byte so many on from the first is for.
    pub fn part_at(self, i: usize) -> Expected
        ensures { result ≡ part_at self i }
    {
        match (self, i) {
            (_, 0..=1) => Expected::Broker,
            (Kind::Join, 2..=5) => Expected::SubscriberNumber,
            (Kind::Join, _) => Expected::Bound(((i - 6) / 4) as u64),
            (Kind::Leave, _) => Expected::SubscriberNumber,
            (Kind::Post, 2..=5) => Expected::NoticeNumber,
            (Kind::Post, _) => Expected::Value(((i - 6) / 4) as u64),
            (Kind::Carry, _) => Expected::OtherBroker,
        }
    }
}
