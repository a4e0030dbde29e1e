// What a broker has learned from its neighbours, in tables of filters, and what it has to announce to one of them: computed anew, and compared with
// what it announced last, before anything is changed.
ghost use Rattle.std.specs.Prelude.{◌≡◌, ℕ, ◌+◌, ◌*◌, ◌<◌, ◌≤◌, List, ◌++◌, map, length, take, drop, slice_index};
ghost use Rattle.std.specs.List.{AllByRecursion};
ghost use Rattle.filter.specs.Filter.{Filter as Row};
ghost use Rattle.cover.specs.Maximal.{put, without, maximal, minus};
ghost use Rattle.cover.specs.Table.{held, changed, laid, written, inserted_all};
ghost use Rattle.broker.specs.Subscribers.{subscribers, Whole};
ghost use Rattle.broker.specs.Announcing.{Keeps, Learned, learned_from, to_announce, known_but};

use crate::neighbour::Neighbour;
use crate::subscribers;
use cover::{Rows, table};
use filter::Filter;

// How many filters are to be added and how many to be cut.
#[derive(Clone, Copy, PartialEq, Eq, Debug)]
pub struct Changes {
    pub adds: usize,
    pub cuts: usize,
}

// An add has arrived: puts the filter among those learned, once.
pub fn learn(learned: &mut [u64], m: usize, filter: Filter)
    requires count { (1 ≤ m) × (m ≤ 8) }
    requires room { 1 + (2 * m * slice_index learned.old 0 + 2 * m) ≤ length learned.old }
    ensures words { learned.new ≡ changed (2 * m) (put (take (2 * m) filter.bounds)) learned.old }
    ensures holds { (room : ℕ) (fs : List Row) → Keeps room m fs learned.old → Keeps room m (put (take (2 * m) filter.bounds) fs) learned.new }
{
    table::put(learned, &filter.bounds[0..2 * m]);
}

// A cut has arrived: takes the filter out.
pub fn forget(learned: &mut [u64], m: usize, filter: Filter)
    requires count { (1 ≤ m) × (m ≤ 8) }
    requires whole { 1 + 2 * m * slice_index learned.old 0 ≤ length learned.old }
    ensures words { learned.new ≡ changed (2 * m) (without (take (2 * m) filter.bounds)) learned.old }
    ensures holds { (room : ℕ) (fs : List Row) → Keeps room m fs learned.old → Keeps room m (without (take (2 * m) filter.bounds) fs) learned.new }
{
    table::take_out(learned, &filter.bounds[0..2 * m]);
}

// Inserts what was learned from a neighbour into a table of maximal filters.
fn gather(learned: &[u64], m: usize, out: &mut [u64])
    requires count { (1 ≤ m) × (m ≤ 8) }
    requires whole { 1 + 2 * m * slice_index learned.now 0 ≤ length learned.now }
    requires room { 1 + 2 * m * (slice_index out.old 0 + slice_index learned.now 0) ≤ length out.old }
    ensures { out.new ≡ inserted_all (2 * m) (held (2 * m) learned.now) out.old }
{
    table::insert_all(out, Rows::counted(learned, 2 * m));
}

// What a broker has to announce to the neighbour `but`, as a table over whatever stood there: the maximal filters of its own subscribers and of the
// tables that it learned from the other neighbours.
pub fn to_announce(own: &[u64], neighbours: &[Neighbour<'_>], but: u64, m: usize, out: &mut [u64])
    requires count { (1 ≤ m) × (m ≤ 8) }
    requires whole { Whole m own.now }
    requires learned { Learned m neighbours.now }
    requires room { 1 + 2 * m * length (known_but m (subscribers m own.now) neighbours.now but) ≤ length out.old }
    ensures words { out.new ≡ laid (2 * m) (length out.old) (maximal (known_but m (subscribers m own.now) neighbours.now but)) }
    ensures model { (table : ℕ → List Row) → AllByRecursion (λ n. learned_from m n ≡ table n.broker) neighbours.now → out.new ≡ laid (2 * m) (length out.old) (to_announce (subscribers m own.now) table (map (λ n. n.broker) neighbours.now) but) }
{
    out.fill(0);
    subscribers::gather(own, m, out);
    for neighbour in neighbours {
        if neighbour.broker != but {
            gather(neighbour.learned, m, out);
        }
    }
}

// From what was announced last to what is to be announced now: writes the filters to be added and those to be cut, each in order, and says how many
// they are. Either may be as long as a table, so they lie in words of the caller's, and are not handed over by value.
pub fn compare(old: &[u64], new: &[u64], m: usize, adds: &mut [u64], cuts: &mut [u64]) -> Changes
    requires count { m ≤ 8 }
    requires whole { (1 + 2 * m * slice_index old.now 0 ≤ length old.now) × (1 + 2 * m * slice_index new.now 0 ≤ length new.now) }
    requires room { (2 * m * slice_index new.now 0 ≤ length adds.old) × (2 * m * slice_index old.now 0 ≤ length cuts.old) }
    ensures counted { (result.adds ≡ length (minus (held (2 * m) new.now) (held (2 * m) old.now))) × (result.cuts ≡ length (minus (held (2 * m) old.now) (held (2 * m) new.now))) }
    ensures added { adds.new ≡ written (minus (held (2 * m) new.now) (held (2 * m) old.now)) ++ drop (2 * m * result.adds) adds.old }
    ensures gone { cuts.new ≡ written (minus (held (2 * m) old.now) (held (2 * m) new.now)) ++ drop (2 * m * result.cuts) cuts.old }
{
    let (old, new) = (Rows::counted(old, 2 * m), Rows::counted(new, 2 * m));
    Changes {
        adds: new.minus(old, adds),
        cuts: old.minus(new, cuts),
    }
}
