// A broker's subscribers in lent words: a count, then slots of a number and a filter, in the order in which they came; unused words are zero.
ghost use Rattle.std.specs.Prelude.{◌≡◌, ℕ, ◌+◌, ◌-◌, ◌*◌, ◌<◌, ◌≤◌, List, [], ◌∷◌, ◌++◌, length, take, drop, replicate, if◌then◌else◌, Some, None, Ok, Err, nat_lt, slice_index};
ghost use borrow.Rule.Slice.PartMut.{put_mid};
ghost use Rattle.filter.specs.Filter.{padded};
ghost use Rattle.cover.specs.Table.{inserted_all};
ghost use Rattle.broker.specs.Subscribers.{Subscriber, has_number, newcomer, subscribers, with_subscribers, Holds, Shape, Whole, filters_of, known, filter_of, ahead, dropped, reached};

use cover::{Rows, moving, table};
use filter::{Filter, in_place};

// A broker has no room for one subscriber more.
#[derive(Clone, Copy, PartialEq, Eq, Debug)]
pub struct Full;

// A broker has no subscriber with the number.
#[derive(Clone, Copy, PartialEq, Eq, Debug)]
pub struct Absent;

// Whether a slot begins with this number.
fn has_number(slot: &[u64], number: u64) -> bool
    ensures { result ≡ has_number number slot.now }
{
    match slot {
        [first, ..] => *first == number,
        [] => false,
    }
}

// The place of the subscriber with this number, if there is one.
pub fn find(part: &[u64], m: usize, number: u64) -> Option<usize>
    requires { (m ≤ 8) × Whole m part.now }
    ensures { result ≡ (if known number (subscribers m part.now) then Some (ahead number (subscribers m part.now)) else None) }
{
    Rows::counted(part, 1 + 2 * m).position(|slot| has_number(slot, number))
}

// The filter of the subscriber with this number, if there is one.
pub fn filter_of(part: &[u64], m: usize, number: u64) -> Option<Filter>
    requires { (m ≤ 8) × Whole m part.now }
    ensures { result ≡ (if known number (subscribers m part.now) then Some (record { bounds = padded 16 (filter_of number (subscribers m part.now)) }) else None) }
{
    let at = find(part, m, number)?;
    let slot = Rows::counted(part, 1 + 2 * m).get(at)?;
    Some(Filter::new(&slot[1..]))
}

// Writes a subscriber over the slot at place i.
fn write_slot(part: &mut [u64], m: usize, i: usize, number: u64, filter: Filter)
    requires { (m ≤ 8) × (1 + (1 + 2 * m) * i + (1 + 2 * m) ≤ length part.old) }
    ensures { part.new ≡ put_mid (1 + (1 + 2 * m) * i) (1 + 2 * m) part.old (number ∷ take (2 * m) filter.bounds) }
{
    let width = 1 + 2 * m;
    let at = 1 + width * i;
    part[at] = number;
    part[at + 1..at + width].copy_from_slice(&filter.bounds[0..2 * m]);
}

// Puts a subscriber behind the others; a broker that is full refuses, and is as it was.
pub fn join(
    part: &mut [u64],
    m: usize,
    room: usize,
    number: u64,
    filter: Filter,
) -> Result<(), Full>
    requires { (m ≤ 8) × Shape room m part.old }
    ensures answer { result ≡ (if nat_lt (slice_index part.old 0) room then Ok tt else Err (record {})) }
    ensures words { part.new ≡ (if nat_lt (slice_index part.old 0) room then with_subscribers m (subscribers m part.old ++ newcomer m number filter.bounds ∷ []) part.old else part.old) }
    ensures fits { slice_index part.new 0 ≤ room }
    ensures holds { (rs : List Subscriber) → Holds room m rs part.old → length rs < room → Holds room m (rs ++ newcomer m number filter.bounds ∷ []) part.new }
{
    let count = part[0] as usize;
    if count >= room {
        return Err(Full);
    }
    write_slot(part, m, count, number, filter);
    part[0] = count as u64 + 1;
    Ok(())
}

// Takes the subscriber with this number out; those behind it move up, in their order. Where there is none, nothing changes.
pub fn leave(part: &mut [u64], m: usize, number: u64) -> Result<(), Absent>
    requires { (m ≤ 8) × Whole m part.old }
    ensures answer { result ≡ (if known number (subscribers m part.old) then Ok tt else Err (record {})) }
    ensures words { part.new ≡ with_subscribers m (dropped number (subscribers m part.old)) part.old }
    ensures fits { slice_index part.new 0 ≤ slice_index part.old 0 }
    ensures holds { (room : ℕ) (rs : List Subscriber) → Holds room m rs part.old → Holds room m (dropped number rs) part.new }
{
    // (not `ok_or(Absent)?`: its proof has to take the library's two steps apart)
    let Some(at) = find(part, m, number) else {
        return Err(Absent);
    };
    let width = 1 + 2 * m;
    let count = part[0] as usize;
    moving::shift_out(&mut part[1..], width * at, width * count, width);
    part[0] = count as u64 - 1;
    Ok(())
}

// Writes the numbers of the subscribers whose filter matches the notice, in their order, and says how many they are.
pub fn deliver(part: &[u64], m: usize, notice: &[u64], out: &mut [u64]) -> usize
    requires whole { (m ≤ 8) × Whole m part.now }
    requires room { slice_index part.now 0 ≤ length out.old }
    ensures counted { result ≡ length (reached notice.now (subscribers m part.now)) }
    ensures words { out.new ≡ reached notice.now (subscribers m part.now) ++ drop result out.old }
{
    let mut to = 0;
    for slot in Rows::counted(part, 1 + 2 * m) {
        if in_place::matches(&slot[1..], notice) {
            out[to] = slot[0];
            to += 1;
        }
    }
    to
}

// Inserts the subscribers' filters into a table of maximal filters.
pub fn gather(part: &[u64], m: usize, table: &mut [u64])
    requires whole { (1 ≤ m) × (m ≤ 8) × Whole m part.now }
    requires room { 1 + 2 * m * (slice_index table.old 0 + slice_index part.now 0) ≤ length table.old }
    ensures { table.new ≡ inserted_all (2 * m) (filters_of (subscribers m part.now)) table.old }
{
    for slot in Rows::counted(part, 1 + 2 * m) {
        table::insert(table, &slot[1..]);
    }
}
