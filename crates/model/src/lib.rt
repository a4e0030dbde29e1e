// The network as definitions: brokers in a tree, what each command does, and what is promised of every list of commands. There is no code here but
// the functions that demand the theorems.
#![tactic(auto)]

pub mod examples;
pub mod promises;
