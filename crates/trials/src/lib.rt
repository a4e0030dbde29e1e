// The tests of the crates on examples, in a crate of their own: a crate with tests is proved twice.
#![tactic(auto)]

#[cfg(test)]
mod announcements;
#[cfg(test)]
mod brokers;
#[cfg(test)]
mod channels;
#[cfg(test)]
mod filters;
#[cfg(test)]
mod networks;
#[cfg(test)]
mod openings;
#[cfg(test)]
mod scripts;
