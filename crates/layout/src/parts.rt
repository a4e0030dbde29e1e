// Where the parts of a network's memory lie.
ghost use Rattle.std.specs.Prelude.{◌≡◌, ◌+◌, ◌<◌, ◌≤◌};
ghost use Rattle.layout.specs.Plan.{words_of, many_of, size_of, start_of};
ghost use Rattle.layout.specs.Parts.{plan_of};
ghost use Rattle.layout.specs.Kinds.{kind_number};

use crate::{Opening, memory};

// What a part of the memory holds.
#[derive(Clone, Copy, PartialEq, Eq, Debug)]
pub enum Kind {
    // The subscribers of a broker.
    Subscribers,
    // The numbers of the notices that have arrived at a broker.
    Arrived,
    // What a broker announced last to one beside it.
    Announced,
    // What a broker has learned from one beside it.
    Learned,
    // What is under way from a broker to one beside it.
    Channel,
    // The numbers of the notices that were posted.
    Posted,
    Deliveries,
}

// The words of a part: from one to before another.
#[derive(Clone, Copy, PartialEq, Eq, Debug)]
pub struct Span {
    pub at: usize,
    pub end: usize,
}

// The word where the parts of a kind begin, and how many words each takes.
fn first(opening: &Opening, kind: Kind) -> (usize, usize)
    ensures { (result.0 ≡ start_of (plan_of opening.now) (kind_number kind) 0) × (result.1 ≡ size_of (plan_of opening.now) (kind_number kind)) }
{
    let subscribers = memory::subscribers_words(opening);
    let table = memory::table_words(opening);
    let channel = memory::channel_words(opening);
    let directions = 2 * (opening.brokers - 1);
    let arrived = opening.brokers * subscribers;
    let announced = arrived + opening.brokers * memory::NOTICES;
    let tables = directions * table;
    let posted = announced + 2 * tables + directions * channel;
    match kind {
        Kind::Subscribers => (0, subscribers),
        Kind::Arrived => (arrived, memory::NOTICES),
        Kind::Announced => (announced, table),
        Kind::Learned => (announced + tables, table),
        Kind::Channel => (announced + 2 * tables, channel),
        Kind::Posted => (posted, memory::NOTICES),
        Kind::Deliveries => (posted + memory::NOTICES, memory::DELIVERIES),
    }
}

// The words of the i-th part of a kind.
pub fn place(opening: &Opening, kind: Kind, i: usize) -> Span
    requires { i < many_of (plan_of opening.now) (kind_number kind) }
    ensures start { result.at ≡ start_of (plan_of opening.now) (kind_number kind) i }
    ensures stop { result.end ≡ start_of (plan_of opening.now) (kind_number kind) i + size_of (plan_of opening.now) (kind_number kind) }
    ensures within { result.end ≤ words_of (plan_of opening.now) }
{
    let (base, size) = first(opening, kind);
    let at = base + i * size;
    Span { at, end: at + size }
}
