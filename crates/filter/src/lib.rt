// Filters and notices: a filter is a range for each number of a notice, and matches the notices whose numbers all lie in their ranges.
#![tactic(auto)]

pub mod in_place;
pub mod theorems;
pub mod value;

pub use value::{Filter, Notice};
