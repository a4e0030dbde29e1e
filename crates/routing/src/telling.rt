// A broker tells those beside it what it has to announce to each: first what is new, then what is no more.
ghost use Rattle.std.specs.Prelude.{◌≡◌, ◌+◌, ◌*◌, ◌<◌, ◌≤◌, true, ◌++◌, length, None, nat_le};
ghost use Rattle.cover.specs.Rows.{listed};
ghost use Rattle.cover.specs.Table.{held, laid};
ghost use Rattle.broker.specs.Announcing.{Keeps};
ghost use Rattle.model.specs.Tree.{edge};
ghost use Rattle.model.specs.Model.{announcement, tell};
ghost use Rattle.model.specs.Turn.{tell_one};
ghost use Rattle.layout.specs.Memory.{table_words};
ghost use Rattle.layout.specs.Parts.{tree, filters_room};
ghost use Rattle.layout.specs.State.{network_of, Encodes, Formed};
ghost use Rattle.layout.specs.Mail.{telling};
ghost use Rattle.layout.specs.Changed.{with_channel, with_announced};
ghost use Rattle.routing.specs.Rooms.{ok_unless, tidings, no_room_to_tell};
ghost use Rattle.routing.specs.Around.{Ready};
ghost use Rattle.routing.specs.Tidings.{Told};

use crate::surroundings::surround;
use broker::announcing::{compare, to_announce};
use channel::batch::{Change, append_all};
use channel::ring;
use cover::Rows;
use layout::links::link;
use layout::memory::{LARGEST_TABLE, table_words};
use layout::parts::{Kind, Span, place};
use layout::{Opening, Refusal};

// What a broker has to tell one beside it: what it announces, as a table, and the filters that are new and those that are no more since it told it last.
// They lie in words of the caller's, so that none are copied when they are handed out.
#[derive(Clone, Copy)]
struct Tidings<'a> {
    table: &'a [u64],
    adds: Rows<'a>,
    cuts: Rows<'a>,
}

// What the broker has to announce to one beside it, as a table over whatever stood there.
fn find(memory: &[u64], opening: &Opening, broker: usize, n: u64, table: &mut [u64])
    requires ready { Ready opening.now memory.now broker }
    requires beside { edge (tree opening.now) broker n ≡ true }
    requires room { length table.old ≡ table_words opening.now.ranges opening.now.brokers opening.now.subscribers }
    ensures { table.new ≡ laid (2 * opening.now.ranges) (length table.old) (announcement (tree opening.now) (network_of opening.now memory.now) broker n) }
{
    let around = surround(memory, opening, broker);
    let Span { at, end } = place(opening, Kind::Subscribers, broker);
    to_announce(
        &memory[at..end],
        around.as_slice(),
        n,
        opening.ranges,
        table,
    );
}

impl<'a> Tidings<'a> {
    // What the broker has to tell one beside it, written over whatever stood in the lent words.
    fn new(
        memory: &[u64],
        opening: &Opening,
        broker: usize,
        n: u64,
        table: &'a mut [u64],
        adds: &'a mut [u64],
        cuts: &'a mut [u64],
    ) -> Tidings<'a>
        requires ready { Ready opening.now memory.now broker }
        requires beside { edge (tree opening.now) broker n ≡ true }
        requires room { length table.old ≡ table_words opening.now.ranges opening.now.brokers opening.now.subscribers }
        requires rooms { (length adds.old ≡ 15601) × (length cuts.old ≡ 15601) }
        ensures { Told opening.now (network_of opening.now memory.now) broker n result }
    {
        find(memory, opening, broker, n, table);
        let Span { at, end } = place(opening, Kind::Announced, link(broker, n as usize));
        let many = compare(&memory[at..end], table, opening.ranges, adds, cuts);
        let width = 2 * opening.ranges;
        Tidings {
            table,
            adds: Rows::new(adds, width, many.adds),
            cuts: Rows::new(cuts, width, many.cuts),
        }
    }
}

// Whether the channel to one beside the broker has room for what it is to be told.
fn has_room(memory: &[u64], opening: &Opening, broker: usize, n: u64) -> bool
    requires ready { Ready opening.now memory.now broker }
    requires beside { edge (tree opening.now) broker n ≡ true }
    ensures { result ≡ nat_le (length ((network_of opening.now memory.now).channel broker n) + length (tidings (tree opening.now) (network_of opening.now memory.now) broker n)) opening.now.messages }
{
    let size = table_words(opening);
    let mut table = [0; LARGEST_TABLE];
    let mut adds = [0; LARGEST_TABLE];
    let mut cuts = [0; LARGEST_TABLE];
    let told = Tidings::new(
        memory,
        opening,
        broker,
        n,
        &mut table[..size],
        &mut adds,
        &mut cuts,
    );
    let Span { at, end } = place(opening, Kind::Channel, link(broker, n as usize));
    ring::count(&memory[at..end]) + (told.adds.left + told.cuts.left) <= opening.messages
}

// The refusal if a channel has no room for what is to be told on it: the first such in the order of telling.
pub fn lacks_room(memory: &[u64], opening: &Opening, broker: usize) -> Result<(), Refusal>
    requires { Ready opening.now memory.now broker }
    ensures { result ≡ ok_unless (no_room_to_tell opening.now (network_of opening.now memory.now) broker) tt }
{
    let beside = opening.beside(broker);
    for &n in beside.as_slice() {
        if !has_room(memory, opening, broker, n) {
            return Err(Refusal::ChannelFull(n));
        }
    }
    Ok(())
}

// Writes a message for each of the filters behind the last message to one beside the broker.
fn send(
    memory: &mut [u64],
    opening: &Opening,
    from: usize,
    to: usize,
    change: Change,
    filters: Rows<'_>,
)
    requires formed { Formed opening.now memory.old }
    requires beside { edge (tree opening.now) from to ≡ true }
    requires wide { filters.width ≡ 2 * opening.now.ranges }
    requires room { length ((network_of opening.now memory.old).channel from to) + filters.left ≤ opening.now.messages }
    ensures { Encodes opening.now memory.new (with_channel (network_of opening.now memory.old) from to ((network_of opening.now memory.old).channel from to ++ telling change (listed filters.entry))) }
{
    let Span { at, end } = place(opening, Kind::Channel, link(from, to));
    append_all(
        &mut memory[at..end],
        opening.ranges,
        opening.messages,
        change,
        filters,
    )
    .unwrap();
}

// Writes down what was announced to one beside the broker.
fn announce(memory: &mut [u64], opening: &Opening, from: usize, to: usize, table: &[u64])
    requires formed { Formed opening.now memory.old }
    requires beside { edge (tree opening.now) from to ≡ true }
    requires table { Keeps (filters_room opening.now) opening.now.ranges (held (2 * opening.now.ranges) table.now) table.now }
    ensures { Encodes opening.now memory.new (with_announced (network_of opening.now memory.old) from to (held (2 * opening.now.ranges) table.now)) }
{
    let Span { at, end } = place(opening, Kind::Announced, link(from, to));
    memory[at..end].copy_from_slice(table);
}

// Tells one beside the broker.
fn tell_one(memory: &mut [u64], opening: &Opening, broker: usize, n: u64)
    requires ready { Ready opening.now memory.old broker }
    requires beside { edge (tree opening.now) broker n ≡ true }
    requires room { length ((network_of opening.now memory.old).channel broker n) + length (tidings (tree opening.now) (network_of opening.now memory.old) broker n) ≤ opening.now.messages }
    ensures { Encodes opening.now memory.new (tell_one (tree opening.now) broker n (network_of opening.now memory.old)) }
{
    let size = table_words(opening);
    let mut table = [0; LARGEST_TABLE];
    let mut adds = [0; LARGEST_TABLE];
    let mut cuts = [0; LARGEST_TABLE];
    let told = Tidings::new(
        memory,
        opening,
        broker,
        n,
        &mut table[..size],
        &mut adds,
        &mut cuts,
    );
    let to = n as usize;
    send(memory, opening, broker, to, Change::Add, told.adds);
    send(memory, opening, broker, to, Change::Cut, told.cuts);
    announce(memory, opening, broker, to, told.table);
}

// Tells all those beside the broker, in their order.
pub fn tell(memory: &mut [u64], opening: &Opening, broker: usize)
    requires ready { Ready opening.now memory.old broker }
    requires room { no_room_to_tell opening.now (network_of opening.now memory.old) broker ≡ None }
    ensures { Encodes opening.now memory.new (tell (tree opening.now) broker (network_of opening.now memory.old)) }
{
    let beside = opening.beside(broker);
    for &n in beside.as_slice() {
        tell_one(memory, opening, broker, n);
    }
}
