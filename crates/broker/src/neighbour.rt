// A neighbour of a broker, and the table of filters that was learned from there.
#[derive(Clone, Copy, PartialEq, Eq, Debug, Default)]
pub struct Neighbour<'a> {
    pub broker: u64,
    pub learned: &'a [u64],
}
