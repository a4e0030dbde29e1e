// What can be asked of a network: whether nothing is under way, whether a filter is known to all, and what was delivered.
ghost use Rattle.std.specs.Prelude.{◌≡◌, ◌*◌, ◌<◌, ◌≤◌, true, ◌&&◌, ◌||◌, nat_eq, length, slice_index, Some, None, Decides, MatchOption, MatchResult, ◌≢◌};
ghost use Rattle.broker.specs.Announcing.{Keeps};
ghost use Rattle.model.specs.Tree.{edge, hop};
ghost use Rattle.model.specs.Model.{filter_of};
ghost use Rattle.model.specs.Promise.{KnownToAll, lasts, covering};
ghost use Rattle.layout.specs.Parts.{tree, filters_room};
ghost use Rattle.layout.specs.State.{network_of};
ghost use Rattle.layout.specs.Logs.{delivery_in};
ghost use Rattle.network.specs.Promised.{Quietness, nobody};

use crate::network::Network;
use broker::subscribers;
use channel::ring;
use cover::Rows;
use layout::log::Delivery;
use layout::{Opening, Refusal, log};
use steps::commands;

// The next broker on the way from b to another, c: the last one before b on the way up from c, or the one that b hangs on if that way misses b.
fn towards(opening: &Opening, c: usize, b: usize) -> usize
    requires { (c < opening.now.brokers) × (b < opening.now.brokers) × (b ≢ c) }
    ensures { result ≡ hop (tree opening.now) c b }
{
    let mut x = c;
    while x > b {
        let up = usize::from(opening.hung[x]);
        if up == b {
            return x;
        }
        x = up;
    }
    usize::from(opening.hung[b])
}

impl Network<'_> {
    // How many messages are under way from one broker to another beside it.
    fn under_way(&self, from: usize, to: usize) -> usize
        requires { edge (tree self.now.opening) from to ≡ true }
        ensures { result ≡ length ((network_of self.now.opening self.now.memory.now).channel from to) }
    {
        ring::count(self.channel(from, to))
    }

    // Whether nothing is under way between a broker and the one that it hangs on, either way.
    fn is_still(&self, b: usize) -> bool
        requires { (0 < b) × (b < self.now.opening.brokers) }
        ensures { result ≡ (nat_eq (length ((network_of self.now.opening self.now.memory.now).channel b (slice_index self.now.opening.hung b))) 0 && nat_eq (length ((network_of self.now.opening self.now.memory.now).channel (slice_index self.now.opening.hung b) b)) 0) }
    {
        let up = usize::from(self.opening.hung[b]);
        self.under_way(b, up) == 0 && self.under_way(up, b) == 0
    }

    // Whether nothing is under way. In a loop of its own the place where the channels begin is computed once, and with `all` for each broker anew.
    pub fn is_quiet(&self) -> bool
        ensures { Quietness self.now.opening (network_of self.now.opening self.now.memory.now) result }
    {
        for b in 1..self.opening.brokers {
            if !self.is_still(b) {
                return false;
            }
        }
        true
    }

    // Whether a filter is covered by the table of one broker from another, and still is after each message that is under way from there; the table
    // holds at last what these messages make of it. The messages are counted through, for a ring's words may stand in two pieces, and so in no slice.
    fn replay(&self, from: usize, to: usize, filter: &[u64], table: &mut [u64]) -> bool
        requires beside { edge (tree self.now.opening) from to ≡ true }
        requires wide { length filter.now ≡ 2 * self.now.opening.ranges }
        requires table { Keeps (filters_room self.now.opening) self.now.opening.ranges ((network_of self.now.opening self.now.memory.now).learned to from) table.old }
        ensures { result ≡ lasts (covering filter.now) ((network_of self.now.opening self.now.memory.now).channel from to) ((network_of self.now.opening self.now.memory.now).learned to from) }
    {
        let opening = &self.opening;
        let channel = self.channel(from, to);
        for i in 0..ring::count(channel) {
            if !Rows::counted(table, filter.len()).covers(filter) {
                return false;
            }
            if let Some(message) = ring::get(channel, opening.ranges, opening.messages, i) {
                commands::apply(table, opening.ranges, message);
            }
        }
        Rows::counted(table, filter.len()).covers(filter)
    }

    // Whether a filter is covered by what one broker has learned from another, and still is after each message that is under way from there.
    fn lasts(&self, from: usize, to: usize, filter: &[u64]) -> bool
        requires beside { edge (tree self.now.opening) from to ≡ true }
        requires wide { length filter.now ≡ 2 * self.now.opening.ranges }
        ensures { result ≡ lasts (covering filter.now) ((network_of self.now.opening self.now.memory.now).channel from to) ((network_of self.now.opening self.now.memory.now).learned to from) }
    {
        let mut table = commands::save(self.table(from, to));
        self.replay(from, to, filter, &mut table)
    }

    // Whether the filter of a subscriber at a broker is known at another, b.
    fn is_known_at(&self, broker: usize, filter: &[u64], b: usize) -> bool
        requires there { (broker < self.now.opening.brokers) × (b < self.now.opening.brokers) }
        requires wide { length filter.now ≡ 2 * self.now.opening.ranges }
        ensures { result ≡ (nat_eq b broker || lasts (covering filter.now) ((network_of self.now.opening self.now.memory.now).channel (hop (tree self.now.opening) broker b) b) ((network_of self.now.opening self.now.memory.now).learned b (hop (tree self.now.opening) broker b))) }
    {
        b == broker || self.lasts(towards(&self.opening, broker, b), b, filter)
    }

    // Whether the filter of a subscriber at a broker is known to all.
    fn is_known(&self, broker: usize, filter: &[u64]) -> bool
        requires there { broker < self.now.opening.brokers }
        requires wide { length filter.now ≡ 2 * self.now.opening.ranges }
        ensures { Decides result (KnownToAll (tree self.now.opening) (network_of self.now.opening self.now.memory.now) broker filter.now) }
    {
        (0..self.opening.brokers).all(|b| self.is_known_at(broker, filter, b))
    }

    // Whether the filter of the subscriber with this number at a broker is known to all.
    pub fn known_to_all(&self, broker: u64, number: u64) -> Result<bool, Refusal>
        ensures { MatchResult result
            (λ known.
            (nobody self.now.opening (network_of self.now.opening self.now.memory.now) broker number ≡ None)
            × Decides known (KnownToAll (tree self.now.opening) (network_of self.now.opening self.now.memory.now) broker (filter_of number ((network_of self.now.opening self.now.memory.now).subscribers broker))))
            (λ e. nobody self.now.opening (network_of self.now.opening self.now.memory.now) broker number ≡ Some e) }
    {
        let b = commands::present(&self.opening, broker)?;
        let ranges = self.opening.ranges;
        let absent = Refusal::NotSubscribed(number);
        let filter = subscribers::filter_of(self.subscribers_at(b), ranges, number).ok_or(absent)?;
        Ok(self.is_known(b, &filter.bounds[..2 * ranges]))
    }

    // How many deliveries there have been.
    pub fn delivered(&self) -> usize
        ensures { result ≡ length (network_of self.now.opening self.now.memory.now).deliveries }
    {
        self.deliveries()[0] as usize
    }

    // The i-th delivery, counted from the oldest.
    pub fn delivery(&self, i: usize) -> Option<Delivery>
        ensures { MatchOption result
            (length (network_of self.now.opening self.now.memory.now).deliveries ≤ i)
            (λ d.
            (i < length (network_of self.now.opening self.now.memory.now).deliveries)
            × (d.notice ≡ (delivery_in (network_of self.now.opening self.now.memory.now).deliveries i).what)
            × (d.subscriber ≡ (delivery_in (network_of self.now.opening self.now.memory.now).deliveries i).whom)) }
    {
        log::delivery_at(self.deliveries(), i)
    }
}
