// What changed in a table, told in one batch: a message for each filter of a list, behind the last message of a channel.
ghost use Rattle.std.specs.Prelude.{◌≡◌, ℕ, ◌+◌, ◌*◌, ◌≤◌, List, ◌++◌, length, if◌then◌else◌, Ok, Err, nat_le, slice_index};
ghost use Rattle.cover.specs.Rows.{listed};
ghost use Rattle.channel.specs.Message.{words};
ghost use Rattle.channel.specs.Ring.{Row, Holds, Shape, appended_all};
ghost use Rattle.channel.specs.Batch.{told, all_told};

use crate::ring::Full;
use crate::{Message, ring};
use cover::Rows;
use filter::Filter;

// Whether filters are new or no more.
#[derive(Clone, Copy, Debug, PartialEq, Eq)]
pub enum Change {
    Add,
    Cut,
}

// The message that a filter is added, or cut.
fn message(change: Change, m: usize, filter: &[u64]) -> Message
    requires { (m ≤ 8) × (length filter.now ≡ 2 * m) }
    ensures { words m result ≡ told change filter.now }
{
    let filter = Filter::new(filter);
    match change {
        Change::Add => Message::Add(filter),
        Change::Cut => Message::Cut(filter),
    }
}

// Writes a message for each of the filters behind the last one; a channel that has no room for all refuses, and is as it was.
pub fn append_all(
    channel: &mut [u64],
    m: usize,
    room: usize,
    change: Change,
    filters: Rows<'_>,
) -> Result<(), Full>
    requires shape { (m ≤ 8) × Shape room (2 + 2 * m) channel.old }
    requires wide { filters.width ≡ 2 * m }
    ensures answer { result ≡ (if nat_le (slice_index channel.old 1 + filters.entry.left) room then Ok tt else Err (record {})) }
    ensures words { channel.new ≡ (if nat_le (slice_index channel.old 1 + filters.entry.left) room then appended_all room (2 + 2 * m) (all_told change (listed filters.entry)) channel.old else channel.old) }
    ensures shape { Shape room (2 + 2 * m) channel.new }
    ensures holds { (begin : ℕ) (xs : List Row) → Holds room (2 + 2 * m) begin xs channel.old → length xs + filters.entry.left ≤ room → Holds room (2 + 2 * m) begin (xs ++ all_told change (listed filters.entry)) channel.new }
{
    if filters.left > room - ring::count(channel) {
        return Err(Full);
    }
    for filter in filters {
        ring::append(channel, m, room, message(change, m, filter))?;
    }
    Ok(())
}
