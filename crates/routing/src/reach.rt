// Where a notice goes from a broker: to which of those beside it, and to which of its subscribers.
#[derive(Clone, Copy, PartialEq, Eq, Debug)]
pub struct Reach {
    pub to: [u64; 16],
    pub on: usize,
    pub whom: [u64; 64],
    pub many: usize,
}
