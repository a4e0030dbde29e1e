// What is asked of the filters that lie in rows. It is compared in place, and nothing is copied.
ghost use Rattle.std.specs.Prelude.{◌≡◌, ◌*◌, ◌<◌, ◌≤◌, not, [], ◌++◌, if◌then◌else◌, length, drop, Some, None, MatchOption, slice_index_or};
ghost use Rattle.filter.specs.Filter.{same, before};
ghost use Rattle.cover.specs.Maximal.{among, any_covers, any_matches, minus};
ghost use Rattle.cover.specs.Table.{first, found, written};
ghost use Rattle.cover.specs.Rows.{listed};

use crate::Rows;
use filter::in_place;

impl<'a> Rows<'a> {
    // Whether one of them is the same as f.
    pub fn has(mut self, f: &[u64]) -> bool
        ensures { result ≡ among f.now (listed self.entry) }
    {
        self.any(|row| in_place::same(f, row))
    }

    // Whether one of them covers f.
    pub fn covers(mut self, f: &[u64]) -> bool
        ensures { result ≡ any_covers (listed self.entry) f.now }
    {
        self.any(|row| in_place::covers(row, f))
    }

    // Whether one of them matches the notice.
    pub fn matches(mut self, notice: &[u64]) -> bool
        ensures { result ≡ any_matches (listed self.entry) notice.now }
    {
        self.any(|row| in_place::matches(row, notice))
    }

    // The place of the first that is the same as f.
    pub fn index_of(mut self, f: &[u64]) -> Option<usize>
        ensures { result ≡ (if among f.now (listed self.entry) then Some (first (λ g. same f.now g) (listed self.entry)) else None) }
    {
        self.position(|row| in_place::same(f, row))
    }

    // The i-th of them.
    pub fn get(self, i: usize) -> Option<&'a [u64]>
        ensures { MatchOption result
            (self.entry.left ≤ i)
            (λ row. (i < self.entry.left) × (row.now ≡ slice_index_or (listed self.entry) i [])) }
    {
        if i >= self.left {
            return None;
        }
        let at = self.width * i;
        Some(&self.words[at..at + self.width])
    }

    // The place of the first that does not come before f.
    fn not_before(mut self, f: &[u64]) -> Option<usize>
        ensures { MatchOption result
            (first (λ g. not (before g f.now)) (listed self.entry) ≡ self.entry.left)
            (λ at. (first (λ g. not (before g f.now)) (listed self.entry) ≡ at) × (at < self.entry.left)) }
    {
        self.position(|row| !in_place::before(row, f))
    }

    // The place of f among rows in order, or else the place where it belongs: that of the first row that does not come before it.
    pub(crate) fn search(self, f: &[u64]) -> Result<usize, usize>
        ensures { result ≡ found f.now (listed self.entry) }
    {
        let Some(at) = self.not_before(f) else {
            return Err(self.left);
        };
        match self.get(at) {
            Some(row) if in_place::same(f, row) => Ok(at),
            _ => Err(at),
        }
    }

    // Writes the rows that the others lack into other words, from their start, and says how many they are: what is new from the others to these, and
    // what is no more from these to the others.
    pub fn minus(self, others: Rows<'_>, out: &mut [u64]) -> usize
        requires { self.width * self.left ≤ length out.old }
        ensures counted { result ≡ length (minus (listed self.entry) (listed others.entry)) }
        ensures within { result ≤ self.entry.left }
        ensures words { out.new ≡ written (minus (listed self.entry) (listed others.entry)) ++ drop (self.entry.width * result) out.old }
    {
        let mut many = 0;
        for row in self {
            if !others.has(row) {
                let at = self.width * many;
                out[at..at + self.width].copy_from_slice(row);
                many += 1;
            }
        }
        many
    }
}
