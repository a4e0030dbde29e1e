// A channel in lent words: where its ring begins, a count, then `room` slots, each for the words of one message. The oldest message stands where the
// ring begins, the others follow and go on at the first slot past the last. Unused words are zero.
//
// Each call takes m and the room beside the words, and no struct of the two: it would hold that m is at most 8, and every call would still have to
// ask for the shape of the words.
ghost use Rattle.std.specs.Prelude.{◌≡◌, ℕ, ◌+◌, ◌-◌, ◌*◌, ◌<◌, ◌≤◌, List, [], ◌∷◌, ◌++◌, length, if◌then◌else◌, Some, None, Ok, Err, nat_eq, nat_lt, slice_index, slice_index_or};
ghost use Rattle.channel.specs.Message.{words, message as meant};
ghost use Rattle.channel.specs.Ring.{Row, Holds, Shape, turn, start, row, next, appended, taken};

use crate::Message;
use crate::message::clear;

// A channel has no room for one message more.
#[derive(Clone, Copy, Debug, PartialEq, Eq)]
pub struct Full;

// How many messages are under way.
pub fn count(channel: &[u64]) -> usize
    requires { 2 ≤ length channel.now }
    ensures answer { result ≡ slice_index channel.now 1 }
    ensures holds { (room width begin : ℕ) (xs : List Row) → Holds room width begin xs channel.now → result ≡ length xs }
{
    channel[1] as usize
}

// The slot that is i on from `begin`.
fn around(room: usize, begin: usize, i: usize) -> usize
    requires { (begin < room) × (i < room) }
    ensures slot { result ≡ turn room begin i }
    ensures within { result < room }
{
    let rest = room - begin;
    if i < rest { begin + i } else { i - rest }
}

// The word where the slot starts that is i on from where the ring begins.
fn start(channel: &[u64], width: usize, room: usize, i: usize) -> usize
    requires { Shape room width channel.now × (i < room) }
    ensures word { result ≡ start room width channel.now i }
    ensures within { result + width ≤ length channel.now }
{
    2 + width * around(room, channel[0] as usize, i)
}

// The i-th message, counted from the oldest.
pub fn get(channel: &[u64], m: usize, room: usize, i: usize) -> Option<Message>
    requires { (m ≤ 8) × Shape room (2 + 2 * m) channel.now }
    ensures answer { result ≡ (if nat_lt i (slice_index channel.now 1) then Some (meant m (row room (2 + 2 * m) channel.now i)) else None) }
    ensures holds { (begin : ℕ) (xs : List Row) → Holds room (2 + 2 * m) begin xs channel.now → result ≡ (if nat_lt i (length xs) then Some (meant m (slice_index_or xs i [])) else None) }
{
    if i >= count(channel) {
        return None;
    }
    let width = 2 + 2 * m;
    let at = start(channel, width, room, i);
    Some(Message::read(&channel[at..at + width], m))
}

// Writes a message behind the last one; a full channel refuses, and is as it was.
pub fn append(channel: &mut [u64], m: usize, room: usize, message: Message) -> Result<(), Full>
    requires { (m ≤ 8) × Shape room (2 + 2 * m) channel.old }
    ensures answer { result ≡ (if nat_lt (slice_index channel.old 1) room then Ok tt else Err (record {})) }
    ensures words { channel.new ≡ appended room (2 + 2 * m) (words m message) channel.old }
    ensures shape { Shape room (2 + 2 * m) channel.new }
    ensures counted { slice_index channel.new 1 ≡ (if nat_lt (slice_index channel.old 1) room then slice_index channel.old 1 + 1 else slice_index channel.old 1) }
    ensures holds { (begin : ℕ) (xs : List Row) → Holds room (2 + 2 * m) begin xs channel.old → length xs < room → Holds room (2 + 2 * m) begin (xs ++ words m message ∷ []) channel.new }
{
    let count = count(channel);
    if count >= room {
        return Err(Full);
    }
    let width = 2 + 2 * m;
    let at = start(channel, width, room, count);
    message.write(m, &mut channel[at..at + width]);
    channel[1] = count as u64 + 1;
    Ok(())
}

// Takes the oldest message out. The ring then begins at the next slot, and at the first if nothing is left.
pub fn take(channel: &mut [u64], m: usize, room: usize) -> Option<Message>
    requires { (m ≤ 8) × Shape room (2 + 2 * m) channel.old }
    ensures answer { result ≡ (if nat_eq (slice_index channel.old 1) 0 then None else Some (meant m (row room (2 + 2 * m) channel.old 0))) }
    ensures words { channel.new ≡ taken room (2 + 2 * m) channel.old }
    ensures shape { Shape room (2 + 2 * m) channel.new }
    ensures holds { (begin : ℕ) (x : Row) (xs : List Row) → Holds room (2 + 2 * m) begin (x ∷ xs) channel.old → (result ≡ Some (meant m x)) × Holds room (2 + 2 * m) (next room begin (length xs + 1)) xs channel.new }
{
    let count = count(channel);
    if count == 0 {
        return None;
    }
    let width = 2 + 2 * m;
    let begin = channel[0] as usize;
    let next = if count == 1 {
        0
    } else {
        around(room, begin, 1)
    };
    let at = start(channel, width, room, 0);
    let oldest = Message::read(&channel[at..at + width], m);
    clear(&mut channel[at..at + width]);
    channel[0] = next as u64;
    channel[1] = count as u64 - 1;
    Some(oldest)
}
