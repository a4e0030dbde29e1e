// Messages between brokers, and the words that stand for them in a channel: the kind, the number, then the filter's numbers or the notice's with
// zeros behind them, 2 + 2m in all.
ghost use Rattle.std.specs.Prelude.{◌≡◌, ◌+◌, ◌-◌, ◌*◌, ◌≤◌, ◌∷◌, ◌++◌, length, replicate};
ghost use Rattle.channel.specs.Message.{words, message};

use filter::{Filter, Notice};

// The kinds of message, as the first word of a slot says them; a slot of any other kind is read as a notice. Constants and no enum of kinds: here
// alone a word becomes a message and a message words, and `Message` is the enum.
const ADD: u64 = 1;

const CUT: u64 = 2;

const NOTICE: u64 = 3;

// A filter more, a filter less, or a notice with its number.
#[derive(Clone, Copy, Debug, PartialEq, Eq)]
pub enum Message {
    Add(Filter),
    Cut(Filter),
    Notice { number: u64, notice: Notice },
}

impl Message {
    // Writes the message's words over a slot.
    pub fn write(self, m: usize, slot: &mut [u64])
        requires { (m ≤ 8) × (length slot.old ≡ 2 + 2 * m) }
        ensures { slot.new ≡ words m self }
    {
        match self {
            Message::Add(f) => put(slot, ADD, 0, &f.bounds[0..2 * m]),
            Message::Cut(f) => put(slot, CUT, 0, &f.bounds[0..2 * m]),
            Message::Notice { number, notice } => put(slot, NOTICE, number, &notice.numbers[0..m]),
        }
    }

    // The message that a slot's words stand for.
    pub fn read(slot: &[u64], m: usize) -> Message
        requires { (m ≤ 8) × (length slot.now ≡ 2 + 2 * m) }
        ensures { result ≡ message m slot.now }
    {
        match slot[0] {
            ADD => Message::Add(Filter::new(&slot[2..2 + 2 * m])),
            CUT => Message::Cut(Filter::new(&slot[2..2 + 2 * m])),
            _ => Message::Notice {
                number: slot[1],
                notice: Notice::new(&slot[2..2 + m]),
            },
        }
    }
}

// Writes a kind, a number and a row of numbers over a slot, and zeros behind them.
fn put(slot: &mut [u64], kind: u64, number: u64, numbers: &[u64])
    requires { 2 + length numbers.now ≤ length slot.old }
    ensures { slot.new ≡ kind ∷ (number ∷ (numbers.now ++ replicate (length slot.old - (2 + length numbers.now)) 0)) }
{
    clear(slot);
    slot[0] = kind;
    slot[1] = number;
    slot[2..2 + numbers.len()].copy_from_slice(numbers);
}

// Sets all words to zero.
pub fn clear(words: &mut [u64])
    ensures { words.new ≡ replicate (length words.old) 0 }
{
    words.fill(0);
}
