// What can be read of a network, piece by piece: the messages under way, and the filters that brokers have learned.
ghost use Rattle.std.specs.Prelude.{◌≡◌, ◌<◌, ◌≤◌, true, false, [], length, MatchOption, slice_index_or};
ghost use Rattle.filter.specs.Filter.{padded};
ghost use Rattle.channel.specs.Message.{words};
ghost use Rattle.model.specs.Tree.{edge};
ghost use Rattle.layout.specs.Parts.{tree};
ghost use Rattle.layout.specs.State.{network_of};
ghost use Rattle.layout.specs.Mail.{message_in, piece_in};

use crate::network::Network;
use channel::{Message, ring};
use cover::Rows;
use filter::Filter;
use layout::Opening;
use steps::commands;

// Two brokers with these numbers that are beside each other; none if they are not there, or not beside each other.
fn beside(opening: &Opening, from: u64, to: u64) -> Option<(usize, usize)>
    ensures { MatchOption result
        (edge (tree opening.now) from to ≡ false)
        (λ p. (p.0 ≡ from) × (p.1 ≡ to) × (edge (tree opening.now) p.0 p.1 ≡ true)) }
{
    let a = commands::find(opening, from)?;
    let b = commands::find(opening, to)?;
    commands::hang_together(opening, a, b).then_some((a, b))
}

impl Network<'_> {
    // The i-th message under way from one broker to another, counted from the oldest.
    pub fn message(&self, from: u64, to: u64, i: usize) -> Option<Message>
        ensures { MatchOption result
            (length ((network_of self.now.opening self.now.memory.now).channel from to) ≤ i)
            (λ x.
            (i < length ((network_of self.now.opening self.now.memory.now).channel from to))
            × (message_in self.now.opening.ranges (words self.now.opening.ranges x) ≡ piece_in ((network_of self.now.opening self.now.memory.now).channel from to) i)) }
    {
        let opening = &self.opening;
        let (a, b) = beside(opening, from, to)?;
        ring::get(self.channel(a, b), opening.ranges, opening.messages, i)
    }

    // The i-th filter that a broker has learned from one beside it, in order.
    pub fn learned(&self, at: u64, from: u64, i: usize) -> Option<Filter>
        ensures { MatchOption result
            (length ((network_of self.now.opening self.now.memory.now).learned at from) ≤ i)
            (λ f.
            (i < length ((network_of self.now.opening self.now.memory.now).learned at from))
            × (f.bounds ≡ padded 16 (slice_index_or ((network_of self.now.opening self.now.memory.now).learned at from) i []))) }
    {
        let (a, b) = beside(&self.opening, from, at)?;
        let filter = Rows::counted(self.table(a, b), 2 * self.opening.ranges).get(i)?;
        Some(Filter::new(filter))
    }
}
