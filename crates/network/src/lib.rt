// The network in lent memory: its calls, what can be asked of it, and what is promised of every list of commands. What a network is opened with, the
// commands and refusals, and the functions that demand the promises stand in the crates below, and are to be had from here too.
#![tactic(auto)]

pub mod network;
pub mod playing;

pub use layout::{Command, Opening, Refusal, Rooms, command, links, memory, opening, refusal};
pub use model::{examples, promises};
pub use network::Network;
pub use playing::play;
