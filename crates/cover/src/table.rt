// Tables of filters in lent words: a count, then the filters, in order and each once, each as wide as the filter that is handed in; words that are
// not in use are zero. Each function says all words of the table afterwards, whatever it held. What a table holds is asked of its rows.
ghost use Rattle.std.specs.Prelude.{◌≡◌, ◌+◌, ◌*◌, ◌<◌, ◌≤◌, length, slice_index};
ghost use Rattle.cover.specs.Maximal.{put, without, outside, insert, maximal};
ghost use Rattle.cover.specs.Table.{Whole, RoomForOne, changed, laid, inserted_all};
ghost use Rattle.cover.specs.Rows.{listed};

use crate::{Rows, moving};

// Puts f in its place, unless it is there.
pub fn put(table: &mut [u64], f: &[u64])
    requires wide { 0 < length f.now }
    requires room { RoomForOne (length f.now) table.old }
    ensures { table.new ≡ changed (length f.now) (put f.now) table.old }
{
    let count = table[0] as usize;
    if let Err(at) = Rows::counted(table, f.len()).search(f) {
        moving::open(&mut table[1..], count, at, f);
        table[0] += 1;
    }
}

// Takes f out of the table, if it is there.
pub fn take_out(table: &mut [u64], f: &[u64])
    requires { Whole (length f.now) table.old }
    ensures { table.new ≡ changed (length f.now) (without f.now) table.old }
{
    let count = table[0] as usize;
    if let Some(at) = Rows::counted(table, f.len()).index_of(f) {
        moving::close(&mut table[1..], f.len(), count, at);
        table[0] -= 1;
    }
}

// Takes out the filters that f covers.
fn take_covered(table: &mut [u64], f: &[u64])
    requires { Whole (length f.now) table.old }
    ensures { table.new ≡ changed (length f.now) (outside f.now) table.old }
{
    let count = table[0] as usize;
    let left = moving::keep_outside(&mut table[1..], count, f);
    table[0] = left as u64;
}

// Inserts f into a table of maximal filters: nothing if one covers it; else out with those that it covers, and f in its place.
pub fn insert(table: &mut [u64], f: &[u64])
    requires wide { 0 < length f.now }
    requires room { RoomForOne (length f.now) table.old }
    ensures { table.new ≡ changed (length f.now) (insert f.now) table.old }
{
    if Rows::counted(table, f.len()).covers(f) {
        return;
    }
    take_covered(table, f);
    put(table, f);
}

// Inserts the filters of a list, one after the other.
pub fn insert_all(table: &mut [u64], list: Rows<'_>)
    requires wide { 0 < list.width }
    requires room { 1 + list.width * (slice_index table.old 0 + list.left) ≤ length table.old }
    ensures { table.new ≡ inserted_all list.entry.width (listed list.entry) table.old }
{
    for filter in list {
        insert(table, filter);
    }
}

// The table of the maximal filters of a list, whatever the table held.
pub fn maximal(table: &mut [u64], list: Rows<'_>)
    requires wide { 0 < list.width }
    requires room { 1 + list.width * list.left ≤ length table.old }
    ensures { table.new ≡ laid list.entry.width (length table.old) (maximal (listed list.entry)) }
{
    table.fill(0);
    insert_all(table, list);
}
