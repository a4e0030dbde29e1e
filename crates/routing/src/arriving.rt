// A notice arrives at a broker: it is delivered to the subscribers whose filter matches, and goes on to those beside the broker who wish for it.
ghost use Rattle.std.specs.Prelude.{◌≡◌, ℕ, ◌+◌, ◌<◌, ◌≤◌, true, List, [], ◌∷◌, ◌++◌, length, take, None};
ghost use Rattle.model.specs.Tree.{edge, has, distinct};
ghost use Rattle.model.specs.Model.{notice as passed, arrive};
ghost use Rattle.model.specs.Turn.{send_one, sent_to};
ghost use Rattle.layout.specs.Parts.{tree};
ghost use Rattle.layout.specs.State.{network_of, Encodes, Formed};
ghost use Rattle.layout.specs.Logs.{all_to};
ghost use Rattle.layout.specs.Changed.{with_arrived, with_deliveries};
ghost use Rattle.routing.specs.Rooms.{first, ok_unless, full, no_room_to_pass, no_room_to_deliver};
ghost use Rattle.routing.specs.Reach.{Reaches};

use crate::reach::Reach;
use crate::surroundings::surround;
use broker::forwarding::goes_on;
use broker::subscribers;
use channel::{Message, ring};
use filter::Notice;
use layout::links::link;
use layout::memory::MOST_DELIVERIES;
use layout::parts::{Kind, Span, place};
use layout::{Opening, Refusal, log};

// The neighbours that a notice from one of them, or from the broker itself, goes on to, and the subscribers that it is delivered to.
pub fn find(memory: &[u64], opening: &Opening, broker: usize, from: u64, notice: &[u64]) -> Reach
    requires formed { Formed opening.now memory.now }
    requires there { broker < opening.now.brokers }
    ensures { Reaches opening.now (network_of opening.now memory.now) broker from notice.now result }
{
    let around = surround(memory, opening, broker);
    let mut to = [0; 16];
    let on = goes_on(around.as_slice(), from, notice, opening.ranges, &mut to);
    let Span { at, end } = place(opening, Kind::Subscribers, broker);
    let mut whom = [0; 64];
    let many = subscribers::deliver(&memory[at..end], opening.ranges, notice, &mut whom);
    Reach { to, on, whom, many }
}

// The refusal if the channel to one of these beside the broker is full: the first such of the list.
fn lacks_room(memory: &[u64], opening: &Opening, broker: usize, to: &[u64]) -> Result<(), Refusal>
    requires formed { Formed opening.now memory.now }
    requires beside { (n : ℕ) → has to.now n ≡ true → edge (tree opening.now) broker n ≡ true }
    ensures { (k : ℕ) (e : List ℕ) → result ≡ ok_unless (full opening.now.messages ((network_of opening.now memory.now).channel broker) (λ n. passed k e ∷ []) to.now) tt }
{
    for &n in to {
        let Span { at, end } = place(opening, Kind::Channel, link(broker, n as usize));
        if ring::count(&memory[at..end]) >= opening.messages {
            return Err(Refusal::ChannelFull(n));
        }
    }
    Ok(())
}

// The refusal if there is no room for what the notice brings: on the channels, or among the deliveries.
#[tactic(auto, using(crate::proofs::Arrivals::goes_beside))]
pub fn refused(
    memory: &[u64],
    opening: &Opening,
    broker: usize,
    from: u64,
    number: u64,
    notice: &[u64],
    reach: &Reach,
) -> Result<(), Refusal>
    requires formed { Formed opening.now memory.now }
    requires there { broker < opening.now.brokers }
    requires reaches { Reaches opening.now (network_of opening.now memory.now) broker from notice.now reach.now }
    ensures { result ≡ ok_unless (first (no_room_to_pass opening.now (network_of opening.now memory.now) broker from number notice.now ∷ (no_room_to_deliver (network_of opening.now memory.now) broker number notice.now ∷ []))) tt }
{
    lacks_room(memory, opening, broker, &reach.to[..reach.on])?;
    let Span { at, .. } = place(opening, Kind::Deliveries, 0);
    if memory[at] as usize + reach.many > MOST_DELIVERIES {
        return Err(Refusal::TooManyDeliveries(MOST_DELIVERIES as u64));
    }
    Ok(())
}

// Writes the notice behind the last message to one beside the broker.
fn send(memory: &mut [u64], opening: &Opening, from: usize, to: usize, number: u64, notice: Notice)
    requires formed { Formed opening.now memory.old }
    requires beside { edge (tree opening.now) from to ≡ true }
    requires room { length ((network_of opening.now memory.old).channel from to) < opening.now.messages }
    ensures { Encodes opening.now memory.new (send_one from to number (take opening.now.ranges notice.numbers) (network_of opening.now memory.old)) }
{
    let Span { at, end } = place(opening, Kind::Channel, link(from, to));
    let message = Message::Notice { number, notice };
    ring::append(
        &mut memory[at..end],
        opening.ranges,
        opening.messages,
        message,
    )
    .unwrap();
}

// Sends the notice on to these brokers, in their order.
fn send_all(
    memory: &mut [u64],
    opening: &Opening,
    from: usize,
    to: &[u64],
    number: u64,
    notice: Notice,
)
    requires formed { Formed opening.now memory.old }
    requires apart { distinct to.now ≡ true }
    requires room { (n : ℕ) → has to.now n ≡ true → (edge (tree opening.now) from n ≡ true) × (length ((network_of opening.now memory.old).channel from n) < opening.now.messages) }
    ensures { Encodes opening.now memory.new (sent_to from number (take opening.now.ranges notice.numbers) to.now (network_of opening.now memory.old)) }
{
    for &n in to {
        send(memory, opening, from, n as usize, number, notice);
    }
}

// Writes down to whom the notice was delivered, and that it has arrived at the broker.
fn write_down(memory: &mut [u64], opening: &Opening, broker: usize, number: u64, whom: &[u64])
    requires formed { Formed opening.now memory.old }
    requires there { broker < opening.now.brokers }
    requires room { (length (network_of opening.now memory.old).deliveries + length whom.now ≤ 65536) × (length ((network_of opening.now memory.old).arrived broker) < 4096) }
    ensures { Encodes opening.now memory.new (with_arrived (with_deliveries (network_of opening.now memory.old) ((network_of opening.now memory.old).deliveries ++ all_to number whom.now)) broker (number ∷ (network_of opening.now memory.old).arrived broker)) }
{
    let Span { at, end } = place(opening, Kind::Deliveries, 0);
    log::deliver(&mut memory[at..end], number, whom);
    let Span { at, end } = place(opening, Kind::Arrived, broker);
    log::note(&mut memory[at..end], number);
}

// The notice arrives, where there is room for what it brings.
pub fn arrive(
    memory: &mut [u64],
    opening: &Opening,
    broker: usize,
    from: u64,
    number: u64,
    notice: Notice,
    reach: &Reach,
)
    requires formed { Formed opening.now memory.old }
    requires there { broker < opening.now.brokers }
    requires reaches { Reaches opening.now (network_of opening.now memory.old) broker from (take opening.now.ranges notice.numbers) reach.now }
    requires room { first (no_room_to_pass opening.now (network_of opening.now memory.old) broker from number (take opening.now.ranges notice.numbers) ∷ (no_room_to_deliver (network_of opening.now memory.old) broker number (take opening.now.ranges notice.numbers) ∷ [])) ≡ None }
    requires new { length ((network_of opening.now memory.old).arrived broker) < 4096 }
    ensures { Encodes opening.now memory.new (arrive (tree opening.now) broker from number (take opening.now.ranges notice.numbers) (network_of opening.now memory.old)) }
{
    send_all(
        memory,
        opening,
        broker,
        &reach.to[..reach.on],
        number,
        notice,
    );
    write_down(memory, opening, broker, number, &reach.whom[..reach.many]);
}
