// To which neighbours a notice goes on.
ghost use Rattle.std.specs.Prelude.{◌≡◌, ◌≤◌, ◌++◌, map, length, drop};
ghost use Rattle.broker.specs.Announcing.{Learned, table_at};
ghost use Rattle.broker.specs.Forwarding.{wanting};

use crate::neighbour::Neighbour;
use cover::Rows;
use filter::in_place;

// Writes the neighbours that a notice from one of them goes on to, in their order, and says how many they are: not the one that it came from, and
// only where it matches a filter learned from there. The loop over a neighbour's filters is left from inside, by the label, at the first that
// matches: that settles the neighbour.
pub fn goes_on(
    neighbours: &[Neighbour<'_>],
    from: u64,
    notice: &[u64],
    m: usize,
    out: &mut [u64],
) -> usize
    requires count { m ≤ 8 }
    requires learned { Learned m neighbours.now }
    requires room { length neighbours.now ≤ length out.old }
    ensures counted { result ≡ length (wanting (table_at m neighbours.now) (map (λ n. n.broker) neighbours.now) from notice.now (length neighbours.now)) }
    ensures words { out.new ≡ wanting (table_at m neighbours.now) (map (λ n. n.broker) neighbours.now) from notice.now (length neighbours.now) ++ drop result out.old }
{
    let mut to = 0;
    'neighbours: for neighbour in neighbours {
        if neighbour.broker == from {
            continue 'neighbours;
        }
        for filter in Rows::counted(neighbour.learned, 2 * m) {
            if in_place::matches(filter, notice) {
                out[to] = neighbour.broker;
                to += 1;
                continue 'neighbours;
            }
        }
    }
    to
}
