// The commands by which subscribers come and leave.
ghost use Rattle.std.specs.Prelude.{◌≡◌, ◌-◌, ◌<◌};
ghost use Rattle.model.specs.Model.{known, known_up_to};
ghost use Rattle.layout.specs.State.{network_of, Formed};
ghost use Rattle.steps.specs.Sound.{Sound, Performed};

use super::shared::{present, save, settle, small_enough};
use broker::subscribers;
use filter::Filter;
use layout::parts::{Kind, Span, place};
use layout::{Command, Opening, Refusal};

// Whether a subscriber has this number at a broker.
fn used_at(memory: &[u64], opening: &Opening, b: usize, number: u64) -> bool
    requires formed { Formed opening.now memory.now }
    requires there { b < opening.now.brokers }
    ensures { result ≡ known number ((network_of opening.now memory.now).subscribers b) }
{
    let Span { at, end } = place(opening, Kind::Subscribers, b);
    subscribers::find(&memory[at..end], opening.ranges, number).is_some()
}

// Whether a subscriber has this number at any broker.
fn used(memory: &[u64], opening: &Opening, number: u64) -> bool
    requires { Formed opening.now memory.now }
    ensures { result ≡ known_up_to number (network_of opening.now memory.now).subscribers (opening.now.brokers - 1) }
{
    (0..opening.brokers).any(|b| used_at(memory, opening, b, number))
}

// A subscriber comes to a broker, which tells.
pub fn join(
    memory: &mut [u64],
    opening: &Opening,
    broker: u64,
    number: u64,
    filter: Filter,
) -> Result<usize, Refusal>
    requires { Sound opening.now memory.old }
    ensures { Performed opening.now memory.old (Command.Join broker number filter) result memory.new }
{
    let ranges = opening.ranges;
    small_enough(number, &filter.bounds[..2 * ranges])?;
    let b = present(opening, broker)?;
    if used(memory, opening, number) {
        return Err(Refusal::NumberUsed(number));
    }
    let Span { at, end } = place(opening, Kind::Subscribers, b);
    let saved = save(&memory[at..end]);
    let room = opening.subscribers;
    let full = Refusal::BrokerFull(room as u64);
    subscribers::join(&mut memory[at..end], ranges, room, number, filter).map_err(|_| full)?;
    settle(memory, opening, b, Span { at, end }, &saved)?;
    Ok(0)
}

// A subscriber leaves a broker, which tells.
pub fn leave(
    memory: &mut [u64],
    opening: &Opening,
    broker: u64,
    number: u64,
) -> Result<usize, Refusal>
    requires { Sound opening.now memory.old }
    ensures { Performed opening.now memory.old (Command.Leave broker number) result memory.new }
{
    small_enough(number, &[])?;
    let b = present(opening, broker)?;
    let Span { at, end } = place(opening, Kind::Subscribers, b);
    let saved = save(&memory[at..end]);
    let absent = Refusal::NotSubscribed(number);
    subscribers::leave(&mut memory[at..end], opening.ranges, number).map_err(|_| absent)?;
    settle(memory, opening, b, Span { at, end }, &saved)?;
    Ok(0)
}
