// Rows of words that lie one after the other in lent words, each as wide as the others: an iterator over those that are left.
ghost use Rattle.std.specs.Prelude.{◌≡◌, ◌*◌, ◌≤◌, length, slice_index};
ghost use Rattle.std.specs.Iterator.{YieldsFirstRef, item_count};
ghost use Rattle.cover.specs.Table.{Whole, rows, held};

#[derive(Clone, Copy)]
pub struct Rows<'a> {
    pub words: &'a [u64],
    pub width: usize,
    pub left: usize,
    ghost there: { width * left ≤ length words.now },
}

impl<'a> Rows<'a> {
    // The first rows of a list.
    pub fn new(words: &'a [u64], width: usize, count: usize) -> Rows<'a>
        requires { width * count ≤ length words.now }
        ensures rows { rows result.width result.left result.words.now ≡ rows width count words.now }
        ensures width { result.width ≡ width }
        ensures count { result.left ≡ count }
    {
        Rows {
            words,
            width,
            left: count,
        }
    }

    // The rows of a part that begins with their count.
    pub fn counted(part: &'a [u64], width: usize) -> Rows<'a>
        requires { Whole width part.now }
        ensures rows { rows result.width result.left result.words.now ≡ held width part.now }
        ensures width { result.width ≡ width }
        ensures count { result.left ≡ slice_index part.now 0 }
    {
        Rows {
            words: &part[1..],
            width,
            left: part[0] as usize,
        }
    }
}

impl<'a> Iterator for Rows<'a> {
    type Item = &'a [u64];

    ghost next_gives = { YieldsFirstRef (λ r. rows r.width r.left r.words.now) };

    ghost remaining = { item_count (λ r. rows r.width r.left r.words.now) };

    fn next(&mut self) -> Option<&'a [u64]> {
        if self.left == 0 {
            return None;
        }
        let (row, rest) = self.words.split_at(self.width);
        self.words = rest;
        self.left -= 1;
        Some(row)
    }
}
