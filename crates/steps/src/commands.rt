// The commands over a network's memory: each is done as the rules say, or refused by the first rule that applies, and then no word has changed.
ghost use Rattle.steps.specs.Sound.{Sound, Performed};

mod carrying;
mod posting;
mod shared;
mod subscribing;

pub use carrying::{apply, carry};
use layout::{Command, Opening, Refusal};
pub use posting::post;
pub use shared::{find, hang_together, present, save};
pub use subscribing::{join, leave};

// Does a command, or refuses it.
pub fn perform(memory: &mut [u64], opening: &Opening, command: Command) -> Result<usize, Refusal>
    requires { Sound opening.now memory.old }
    ensures { Performed opening.now memory.old command result memory.new }
{
    match command {
        Command::Join {
            broker,
            number,
            filter,
        } => join(memory, opening, broker, number, filter),
        Command::Leave { broker, number } => leave(memory, opening, broker, number),
        Command::Post {
            broker,
            number,
            notice,
        } => post(memory, opening, broker, number, notice),
        Command::Carry { from, to } => carry(memory, opening, from, to),
    }
}
