// Rows that move within the words of a table: one that comes in, one that goes out, and all that a filter covers.
ghost use Rattle.std.specs.Prelude.{◌≡◌, ◌+◌, ◌-◌, ◌*◌, ◌<◌, ◌≤◌, ◌++◌, length, take, drop, replicate, slice_range};
ghost use Rattle.std.proofs.Math.Seq.{paste};
ghost use Rattle.std.specs.List.{insert, remove};
ghost use Rattle.cover.specs.Maximal.{outside};
ghost use Rattle.cover.specs.Table.{rows, written};

use filter::in_place;

// The row at place i.
fn row(words: &[u64], width: usize, i: usize) -> &[u64]
    requires { width * i + width ≤ length words.now }
    ensures { result.now ≡ take width (drop (width * i) words.now) }
{
    &words[width * i..width * i + width]
}

// Copies n words from a place to one before it.
fn copy_down(words: &mut [u64], from: usize, to: usize, n: usize)
    requires { (to ≤ from) × (from + n ≤ length words.old) }
    ensures { words.new ≡ paste words.old to (drop from words.old) n }
{
    words.copy_within(from..from + n, to);
}

// Keeps the rows that f does not cover, blanks what they free, and says how many are left.
pub(crate) fn keep_outside(words: &mut [u64], count: usize, f: &[u64]) -> usize
    requires { length f.now * count ≤ length words.old }
    ensures counted { result ≡ length (outside f.now (rows (length f.now) count words.old)) }
    ensures within { result ≤ count }
    ensures words { words.new ≡ written (outside f.now (rows (length f.now) count words.old)) ++ (replicate (length f.now * count - length f.now * result) 0 ++ drop (length f.now * count) words.old) }
{
    let width = f.len();
    let mut left = 0;
    // by number, since rows move within the words that they are read from
    for i in 0..count {
        if !in_place::covers(f, row(words, width, i)) {
            copy_down(words, width * i, width * left, width);
            left += 1;
        }
    }
    words[width * left..width * count].fill(0);
    left
}

// Puts f in at a word; the words from there to the end move up by its length.
fn shift_in(words: &mut [u64], at: usize, end: usize, f: &[u64])
    requires { (at ≤ end) × (end + length f.now ≤ length words.old) }
    ensures { words.new ≡ take at words.old ++ (f.now ++ (slice_range words.old at end ++ drop (end + length f.now) words.old)) }
{
    words[at..end + f.len()].rotate_right(f.len());
    words[at..at + f.len()].copy_from_slice(f);
}

// Takes n words out at a word; the words past them to the end move down, and the last n are blank.
pub fn shift_out(words: &mut [u64], at: usize, end: usize, n: usize)
    requires { (at + n ≤ end) × (end ≤ length words.old) }
    ensures { words.new ≡ take at words.old ++ (take (end - (at + n)) (drop (at + n) words.old) ++ (replicate n 0 ++ drop end words.old)) }
{
    words[at..end].rotate_left(n);
    words[end - n..end].fill(0);
}

// Puts f in at a place; the rows from there on move up by one.
pub(crate) fn open(words: &mut [u64], count: usize, at: usize, f: &[u64])
    requires { (at ≤ count) × (length f.now * count + length f.now ≤ length words.old) }
    ensures { words.new ≡ written (insert (rows (length f.now) count words.old) at f.now) ++ drop (length f.now * count + length f.now) words.old }
{
    shift_in(words, f.len() * at, f.len() * count, f);
}

// Takes the row at a place out; the rows past it move down by one, and the last is blank.
pub(crate) fn close(words: &mut [u64], width: usize, count: usize, at: usize)
    requires { (at < count) × (width * count ≤ length words.old) }
    ensures { words.new ≡ written (remove (rows width count words.old) at) ++ (replicate width 0 ++ drop (width * count) words.old) }
{
    shift_out(words, width * at, width * count, width);
}
