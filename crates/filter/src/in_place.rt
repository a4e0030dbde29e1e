// The tests on filters that lie in lent words: a filter is a slice of its ranges, the least and the greatest number of each in turn. Nothing is
// copied, so passes over tables use these.
ghost use Rattle.std.specs.Prelude.{◌≡◌};
ghost use Rattle.filter.specs.Filter.{matches, covers, same, before};

// Whether each range of `outer` holds the one of `inner` at its place. Rows of different lengths, or of an odd one, do not cover each other.
pub fn covers(outer: &[u64], inner: &[u64]) -> bool
    ensures { result ≡ covers outer.now inner.now }
{
    if outer.len() != inner.len() || outer.len() % 2 != 0 {
        return false;
    }
    let (mut wide, mut narrow) = (outer, inner);
    while let ([low, high, wider @ ..], [least, greatest, others @ ..]) = (wide, narrow) {
        if low > least || high < greatest {
            return false;
        }
        wide = wider;
        narrow = others;
    }
    true
}

// Whether each number of the notice lies in the filter's range at its place. Numbers past the last range do not matter; a range without a number
// for it is not met.
pub fn matches(filter: &[u64], notice: &[u64]) -> bool
    ensures { result ≡ matches filter.now notice.now }
{
    if filter.len() % 2 != 0 || notice.len() < filter.len() / 2 {
        return false;
    }
    let (mut ranges, mut numbers) = (filter, notice);
    while let ([low, high, more @ ..], [number, others @ ..]) = (ranges, numbers) {
        if number < low || number > high {
            return false;
        }
        ranges = more;
        numbers = others;
    }
    true
}

// Whether the two rows have the same numbers.
pub fn same(a: &[u64], b: &[u64]) -> bool
    ensures { result ≡ same a.now b.now }
{
    a == b
}

// Whether `a` comes before `b`: the first number in which they differ decides, and a row comes before the longer ones that it begins.
pub fn before(a: &[u64], b: &[u64]) -> bool
    ensures { result ≡ before a.now b.now }
{
    // cut to one length first: the pass is then over both by one count
    let both = a.len().min(b.len());
    let (mut left, mut right) = (&a[..both], &b[..both]);
    while let ([x, more @ ..], [y, others @ ..]) = (left, right) {
        if x != y {
            return x < y;
        }
        left = more;
        right = others;
    }
    a.len() < b.len()
}
