// The brokers beside one, in the order of telling, each with the table that was learned from there.
ghost use Rattle.std.specs.Prelude.{◌<◌};
ghost use Rattle.layout.specs.State.{Formed};
ghost use Rattle.routing.specs.Around.{Surrounds};

use arrayvec::ArrayVec;
use broker::neighbour::Neighbour;
use layout::Opening;
use layout::links::link;
use layout::parts::{Kind, Span, place};

pub(crate) fn surround<'a>(
    memory: &'a [u64],
    opening: &Opening,
    broker: usize,
) -> ArrayVec<Neighbour<'a>, 16>
    requires formed { Formed opening.now memory.now }
    requires there { broker < opening.now.brokers }
    ensures { Surrounds opening.now memory.now broker result.items }
{
    let mut around = ArrayVec::new();
    let beside = opening.beside(broker);
    for &neighbour in beside.as_slice() {
        let Span { at, end } = place(opening, Kind::Learned, link(neighbour as usize, broker));
        around.push(Neighbour {
            broker: neighbour,
            learned: &memory[at..end],
        });
    }
    around
}
