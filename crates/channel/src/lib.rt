// Channels: messages between brokers, and the queues in lent memory that carry them, first in, first out.
#![tactic(auto)]

pub mod batch;
pub mod message;
pub mod ring;
pub mod theorems;

pub use message::Message;
