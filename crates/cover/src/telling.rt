// The entry that finds what one broker has to announce to another, given all filters that it knows but from that one, and what it announced last.
ghost use Rattle.std.specs.Prelude.{◌≡◌, ◌+◌, ◌*◌, ◌<◌, ◌≤◌, ◌∷◌, ◌++◌, length, take, drop, Some, None, MatchResult, slice_index};
ghost use Rattle.cover.specs.Maximal.{minus};
ghost use Rattle.cover.specs.Table.{Whole, held, written};
ghost use Rattle.cover.specs.Rows.{listed};
ghost use Rattle.cover.specs.Entry.{TellSays, known_whole, said_whole, unfit};

use crate::{Rows, table};

// Why nothing was told.
#[derive(Clone, Copy, PartialEq, Eq, Debug)]
pub enum Unfit {
    // Of the filters that are known a count is out of bounds, or not all are there.
    Known,
    // Of the filters announced last likewise, or there is no room for as many as there can be.
    Said,
    // There is no room for as many changes as there can be.
    Mail,
}

// How many words the largest table takes: a count and 1,024 filters of 8 pairs.
const LARGEST: usize = 16385;

// Whether the count of pairs is from 1 to 8, and the filters, at most 1,024, are all there.
fn known_whole(known: &[u64]) -> bool
    ensures { result ≡ known_whole known.now }
{
    if known.len() < 2 || known[0] < 1 || known[0] > 8 || known[1] > 1024 {
        return false;
    }
    2 + 2 * known[0] * known[1] <= known.len() as u64
}

// Whether the filters last announced, at most 1,024, are all there.
fn said_whole(known: &[u64], said: &[u64]) -> bool
    requires { (1 ≤ length known.now) × (slice_index known.now 0 ≤ 8) }
    ensures { result ≡ said_whole known.now said.now }
{
    if said.len() < 1 || said[0] > 1024 {
        return false;
    }
    1 + 2 * known[0] * said[0] <= said.len() as u64
}

// Whether the rows are whole, and there is room: the first that is unfit, if one is.
fn check(known: &[u64], said: &[u64], mail: &[u64]) -> Result<(), Unfit>
    ensures { MatchResult result
        (λ _. unfit known.now said.now mail.now ≡ None)
        (λ why. unfit known.now said.now mail.now ≡ Some why) }
{
    if !known_whole(known) {
        return Err(Unfit::Known);
    }
    if !said_whole(known, said) || said.len() < LARGEST {
        return Err(Unfit::Said);
    }
    if mail.len() < 2 * LARGEST {
        return Err(Unfit::Mail);
    }
    Ok(())
}

// Writes the filters that the others lack, from a place on, and says how many they are.
fn write_missing(filters: Rows<'_>, others: Rows<'_>, mail: &mut [u64], at: usize) -> usize
    requires { at + filters.width * filters.left ≤ length mail.old }
    ensures counted { result ≡ length (minus (listed filters.entry) (listed others.entry)) }
    ensures within { result ≤ filters.entry.left }
    ensures words { mail.new ≡ take at mail.old ++ (written (minus (listed filters.entry) (listed others.entry)) ++ drop (at + filters.entry.width * result) mail.old) }
{
    filters.minus(others, &mut mail[at..])
}

// Writes what is new and what is no more from one table to another: the count of each, and the filters. Says how many they are.
fn write_changes(old: Rows<'_>, new: Rows<'_>, mail: &mut [u64]) -> usize
    requires wide { old.width ≡ new.width }
    requires room { 2 + (new.width * new.left + new.width * old.left) ≤ length mail.old }
    requires few { new.left + old.left < 65536 }
    ensures counted { result ≡ length (minus (listed new.entry) (listed old.entry)) + length (minus (listed old.entry) (listed new.entry)) }
    ensures words { mail.new ≡ length (minus (listed new.entry) (listed old.entry)) ∷ (length (minus (listed old.entry) (listed new.entry)) ∷ (written (minus (listed new.entry) (listed old.entry)) ++ (written (minus (listed old.entry) (listed new.entry)) ++ drop (2 + new.entry.width * result) mail.old))) }
{
    let more = write_missing(new, old, mail, 2);
    let less = write_missing(old, new, mail, 2 + new.width * more);
    mail[0] = more as u64;
    mail[1] = less as u64;
    more + less
}

// Writes the filters of a table over those of another; what lies past them is as it was.
fn write_over(said: &mut [u64], new: &[u64], width: usize)
    requires news { Whole width new.now }
    requires room { 1 + width * slice_index new.now 0 ≤ length said.old }
    ensures { said.new ≡ length (held width new.now) ∷ (written (held width new.now) ++ drop (1 + width * slice_index new.now 0) said.old) }
{
    let end = 1 + width * new[0] as usize;
    said[0..end].copy_from_slice(&new[0..end]);
}

// What has to be announced now stands in `said` afterwards, and in `mail` how many filters are to be added and how many cut, and these, in order.
// `known` begins with the count of pairs and the count of filters, `said` with the count of filters last announced. Says how many filters are added
// or cut. Where a count is out of bounds or a row too short, the first such is named, and nothing has changed.
pub fn tell(known: &[u64], said: &mut [u64], mail: &mut [u64]) -> Result<usize, Unfit>
    ensures { TellSays known.now said.old mail.old (unfit known.now said.old mail.old) result said.new mail.new }
{
    check(known, said, mail)?;
    let width = 2 * known[0] as usize;
    let mut new = [0; LARGEST];
    let list = Rows::new(&known[2..], width, known[1] as usize);
    table::maximal(&mut new, list);
    let told = Rows::counted(said, width);
    let changes = write_changes(told, Rows::counted(&new, width), mail);
    write_over(said, &new, width);
    Ok(changes)
}
