// What a broker sends to those beside it, over a network's memory: what it has to announce to each, and notices that it passes on.
#![tactic(auto)]

pub mod arriving;
pub mod reach;
mod surroundings;
pub mod telling;
