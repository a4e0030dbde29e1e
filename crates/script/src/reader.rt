// A reader over the bytes of a script.
ghost use Rattle.std.specs.Prelude.{◌≡◌, ◌+◌, ◌-◌, ◌*◌, ◌<◌, ◌≤◌, length, Some, None, MatchResult, IfOk, OnSome, slice_index};
ghost use Rattle.layout.specs.Opening.{hung_of};
ghost use Rattle.script.specs.Script.{size, command_at, reading, answer, place_after, hung_on_at, unopened};
ghost use Rattle.script.specs.declared.fault.Fault.TheVariants.{Cut};

use crate::kind::UnknownKind;
use crate::numbers::{filter_at, notice_at, number_at};
use crate::{Expected, Fault, Kind, Unopened};
use layout::{Command, Opening, Rooms};

#[derive(Drop)]
pub struct Reader<'a> {
    input: &'a [u8],
    // The place that it has come to.
    at: usize,
    ghost within: { at ≤ length input.now },
}

impl<'a> Reader<'a> {
    // A reader at the beginning of a script.
    pub fn new(input: &'a [u8]) -> Reader<'a>
        ensures start { result.at ≡ 0 }
        ensures script { result.input.now ≡ input.now }
    {
        Reader { input, at: 0 }
    }
}

impl Reader<'_> {
    // The fault of a script that ends where this was expected.
    fn cut(&self, expected: Expected) -> Fault
        ensures { result ≡ Cut (length self.now.input.now) expected }
    {
        Fault::Cut {
            at: self.input.len(),
            expected,
        }
    }

    // The command of this kind that stands here.
    fn whole(&self, kind: Kind, ranges: usize) -> Command
        requires { (ranges ≤ 8) × (self.now.at + size ranges kind ≤ length self.now.input.now) }
        ensures { result ≡ command_at ranges kind self.now.input.now self.now.at }
    {
        let input = self.input;
        let at = self.at;
        let broker = u64::from(input[at + 1]);
        match kind {
            Kind::Join => Command::Join {
                broker,
                number: number_at(input, at + 2),
                filter: filter_at(input, at + 6, ranges),
            },
            Kind::Leave => Command::Leave {
                broker,
                number: number_at(input, at + 2),
            },
            Kind::Post => Command::Post {
                broker,
                number: number_at(input, at + 2),
                notice: notice_at(input, at + 6, ranges),
            },
            Kind::Carry => Command::Carry {
                from: broker,
                to: u64::from(input[at + 2]),
            },
        }
    }

    // The opening, with these rooms; where there is none, the reader stays where it was.
    pub fn opening(&mut self, rooms: Rooms) -> Result<Opening, Unopened>
        ensures value { MatchResult result
            (λ o.
            (unopened self.old.input.now self.old.at rooms.subscribers rooms.messages ≡ None)
            × (o.ranges ≡ slice_index self.old.input.now self.old.at)
            × (o.brokers ≡ slice_index self.old.input.now (self.old.at + 1))
            × (o.hung ≡ hung_of o.brokers (hung_on_at self.old.input.now self.old.at))
            × (o.subscribers ≡ rooms.subscribers) × (o.messages ≡ rooms.messages)
            × (self.new.at ≡ self.old.at + 2 + (o.brokers - 1)))
            (λ e.
            (unopened self.old.input.now self.old.at rooms.subscribers rooms.messages ≡ Some e)
            × (self.new.at ≡ self.old.at)) }
        ensures script { self.new.input.now ≡ self.old.input.now }
    {
        let input = self.input;
        let at = self.at;
        let (ranges, rest) = input[at..].split_first().ok_or(self.cut(Expected::Ranges))?;
        let (brokers, rest) = rest.split_first().ok_or(self.cut(Expected::Brokers))?;
        let brokers = usize::from(*brokers);
        let others = brokers.saturating_sub(1);
        let missing = Expected::HungOn(rest.len() as u64 + 1);
        let hung = rest.get(..others).ok_or(self.cut(missing))?;
        let opening = Opening::new(usize::from(*ranges), brokers, hung, rooms)?;
        self.at = at + 2 + others;
        Ok(opening)
    }

    // The next command, or none where the script ends; a fault leaves the reader where it was.
    pub fn command(&mut self, opening: &Opening) -> Result<Option<Command>, Fault>
        ensures value { result ≡ answer (reading opening.now.ranges self.old.input.now self.old.at) }
        ensures place { self.new.at ≡ place_after self.old.at (reading opening.now.ranges self.old.input.now self.old.at) }
        ensures onward { IfOk result (λ command. OnSome command (self.old.at < self.new.at)) }
        ensures script { self.new.input.now ≡ self.old.input.now }
    {
        let input = self.input;
        let at = self.at;
        let Some(byte) = input.get(at) else {
            return Ok(None);
        };
        let kind = Kind::try_from(*byte).map_err(|UnknownKind(byte)| Fault::Unknown { at, byte })?;
        let size = kind.size(opening.ranges);
        let left = input.len() - at;
        if left < size {
            return Err(self.cut(kind.part_at(left)));
        }
        let command = self.whole(kind, opening.ranges);
        self.at = at + size;
        Ok(Some(command))
    }
}
