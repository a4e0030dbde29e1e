// The commands over a network's memory: each is the model's step, or is refused by the first rule that applies.
#![tactic(auto)]

pub mod commands;
pub mod theorems;
