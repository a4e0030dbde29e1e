// The maximal filters of a table, and what to announce.
#![tactic(auto)]

mod lookup;
pub mod moving;
pub mod rows;
pub mod table;
pub mod telling;
pub mod theorems;

pub use rows::Rows;
pub use telling::{Unfit, tell};
