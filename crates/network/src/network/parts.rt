// The parts of a network's memory, each by what it holds.
ghost use Rattle.std.specs.Prelude.{◌≡◌, ◌<◌, true};
ghost use Rattle.broker.specs.Announcing.{Keeps};
ghost use Rattle.broker.specs.Subscribers.{Holds};
ghost use Rattle.model.specs.Tree.{edge};
ghost use Rattle.layout.specs.Parts.{tree, filters_room};
ghost use Rattle.layout.specs.Logs.{Delivers};
ghost use Rattle.layout.specs.Mail.{Carries};
ghost use Rattle.layout.specs.State.{network_of};

use crate::network::Network;
use layout::links::link;
use layout::parts::{Kind, Span, place};

impl Network<'_> {
    // The subscribers of a broker.
    pub(super) fn subscribers_at(&self, broker: usize) -> &[u64]
        requires { broker < self.now.opening.brokers }
        ensures { Holds self.now.opening.subscribers self.now.opening.ranges ((network_of self.now.opening self.now.memory.now).subscribers broker) result.now }
    {
        let Span { at, end } = place(&self.opening, Kind::Subscribers, broker);
        &self.memory[at..end]
    }

    // The filters that the second broker has learned from the first beside it.
    pub(super) fn table(&self, from: usize, to: usize) -> &[u64]
        requires { edge (tree self.now.opening) from to ≡ true }
        ensures { Keeps (filters_room self.now.opening) self.now.opening.ranges ((network_of self.now.opening self.now.memory.now).learned to from) result.now }
    {
        let Span { at, end } = place(&self.opening, Kind::Learned, link(from, to));
        &self.memory[at..end]
    }

    // The messages under way from one broker to another beside it.
    pub(super) fn channel(&self, from: usize, to: usize) -> &[u64]
        requires { edge (tree self.now.opening) from to ≡ true }
        ensures { Carries self.now.opening.messages self.now.opening.ranges ((network_of self.now.opening self.now.memory.now).channel from to) result.now }
    {
        let Span { at, end } = place(&self.opening, Kind::Channel, link(from, to));
        &self.memory[at..end]
    }

    // All that was delivered.
    pub(super) fn deliveries(&self) -> &[u64]
        ensures { Delivers (network_of self.now.opening self.now.memory.now).deliveries result.now }
    {
        let Span { at, end } = place(&self.opening, Kind::Deliveries, 0);
        &self.memory[at..end]
    }
}
