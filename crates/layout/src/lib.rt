// A network's memory: its opening, the commands and refusals, where its parts lie and what they hold.
#![tactic(auto)]

pub mod command;
pub mod links;
pub mod log;
pub mod memory;
pub mod opening;
pub mod parts;
pub mod refusal;

pub use command::Command;
pub use opening::{Opening, Rooms};
pub use refusal::Refusal;
