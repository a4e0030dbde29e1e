// One broker: its subscribers, what it has learned from its neighbours, and what it has to announce to them.
#![tactic(auto)]

pub mod announcing;
pub mod forwarding;
pub mod neighbour;
pub mod subscribers;
pub mod theorems;
