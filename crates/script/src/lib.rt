// Scripts: the opening of a network and the commands that it takes, read from bytes and written to them.
#![tactic(auto)]

pub mod fault;
pub mod kind;
mod numbers;
pub mod reader;
pub mod writer;

pub use fault::{Expected, Fault, Unopened};
pub use kind::{Kind, UnknownKind};
pub use reader::Reader;
