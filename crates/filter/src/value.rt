// Filters and notices by value, for what enters and leaves the network. Each has room for eight ranges or numbers, and those that are not used
// are zero; a range 0 to 0 takes the number 0, so no test needs to know how many are in use. They are equal if all their numbers are.
ghost use Rattle.std.specs.Prelude.{◌≡◌};
ghost use Rattle.filter.specs.Filter.{matches, covers, same, before, padded};

use crate::in_place;

// The numbers of a notice.
#[derive(Clone, Copy, PartialEq, Eq, Debug)]
pub struct Notice {
    pub numbers: [u64; 8],
}

// A range for each number of a notice: the least and the greatest that it wants, one after the other. Filters are in order number by number.
#[derive(Clone, Copy, PartialEq, Eq, PartialOrd, Ord, Debug)]
pub struct Filter {
    pub bounds: [u64; 16],
}

// The first N of the numbers, with zeros for those that are lacking.
fn padded<const N: usize>(numbers: &[u64]) -> [u64; N]
    ensures { result ≡ padded N numbers.now }
{
    let mut all = [0; N];
    let n = numbers.len().min(N);
    let front = &mut all[..];
    front[0..n].copy_from_slice(&numbers[0..n]);
    all
}

impl Notice {
    // The first eight of the numbers, with zeros for those that are lacking.
    pub fn new(numbers: &[u64]) -> Notice
        ensures { result.numbers ≡ padded 8 numbers.now }
    {
        Notice {
            numbers: padded(numbers),
        }
    }
}

impl Filter {
    // The first sixteen of the numbers, with zeros for those that are lacking.
    pub fn new(bounds: &[u64]) -> Filter
        ensures { result.bounds ≡ padded 16 bounds.now }
    {
        Filter {
            bounds: padded(bounds),
        }
    }

    // Whether each of its ranges holds the other's at its place.
    pub fn covers(self, other: Filter) -> bool
        ensures { result ≡ covers self.bounds other.bounds }
    {
        in_place::covers(&self.bounds, &other.bounds)
    }

    // Whether each number of the notice lies in the range at its place.
    pub fn matches(self, notice: Notice) -> bool
        ensures { result ≡ matches self.bounds notice.numbers }
    {
        in_place::matches(&self.bounds, &notice.numbers)
    }

    pub fn same(self, other: Filter) -> bool
        ensures { result ≡ same self.bounds other.bounds }
    {
        self == other
    }

    // Whether it comes before the other, number by number.
    pub fn before(self, other: Filter) -> bool
        ensures { result ≡ before self.bounds other.bounds }
    {
        self < other
    }
}
