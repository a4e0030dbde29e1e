// How many words of memory a network takes.
ghost use Rattle.std.specs.Prelude.{◌≡◌, ◌≤◌, length, if◌then◌else◌, Ok, Err, nat_le};
ghost use Rattle.layout.specs.Memory.{subscribers_words, table_words, channel_words, words_needed};
ghost use Rattle.layout.specs.Plan.{words_of, PartsLieApart};
ghost use Rattle.layout.specs.Parts.{plan_of};

use crate::{Opening, Refusal};

// How many notices' numbers are kept, and how many deliveries.
pub const MOST_NOTICES: usize = 4096;

pub const MOST_DELIVERIES: usize = 65536;

// The words of the numbers of notices, and their count.
pub const NOTICES: usize = 1 + MOST_NOTICES;

// The words of the deliveries, a notice and a subscriber each, and their count.
pub const DELIVERIES: usize = 1 + 2 * MOST_DELIVERIES;

// The words of the largest table that there can be: a count and 975 filters of eight ranges.
pub const LARGEST_TABLE: usize = 1 + 975 * 16;

pub fn subscribers_words(opening: &Opening) -> usize
    ensures value { result ≡ subscribers_words opening.now.ranges opening.now.subscribers }
    ensures bound { result ≤ 1089 }
{
    1 + opening.subscribers * (1 + 2 * opening.ranges)
}

pub fn table_words(opening: &Opening) -> usize
    ensures value { result ≡ table_words opening.now.ranges opening.now.brokers opening.now.subscribers }
    ensures bound { result ≤ 15601 }
{
    let room = (opening.brokers - 1) * (opening.subscribers + 1);
    1 + room * (2 * opening.ranges)
}

pub fn channel_words(opening: &Opening) -> usize
    ensures value { result ≡ channel_words opening.now.ranges opening.now.messages }
    ensures bound { result ≤ 589826 }
{
    2 + opening.messages * (2 + 2 * opening.ranges)
}

impl Opening {
    // The words of memory that a network with this opening takes.
    pub fn words(&self) -> usize
        ensures { result ≡ words_needed self.now.ranges self.now.brokers self.now.subscribers self.now.messages }
    {
        let broker = subscribers_words(self) + NOTICES;
        let direction = 2 * table_words(self) + channel_words(self);
        let directions = 2 * (self.brokers - 1);
        self.brokers * broker + directions * direction + NOTICES + DELIVERIES
    }

    // The refusal if a memory is too short for a network with this opening.
    pub fn fits(&self, memory: &[u64]) -> Result<(), Refusal>
        ensures { result ≡ (if nat_le (words_of (plan_of self.now)) (length memory.now) then Ok tt else Err (Refusal.BadOpening (length memory.now))) }
    {
        if memory.len() < self.words() {
            return Err(Refusal::BadOpening(memory.len() as u64));
        }
        Ok(())
    }
}

pub fn parts_lie_apart_stands()
    ensures { PartsLieApart }
{}
