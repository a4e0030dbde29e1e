// Numbers, filters and notices as they lie in a script: four bytes a number, low byte first.
ghost use Rattle.std.specs.Prelude.{◌≡◌, ◌+◌, ◌*◌, ◌≤◌, length};
ghost use Rattle.filter.specs.Filter.{padded};
ghost use Rattle.script.specs.Script.{number_at, numbers_at};

use filter::{Filter, Notice};

// The number in the four bytes from `at` on.
pub(crate) fn number_at(input: &[u8], at: usize) -> u64
    requires { at + 4 ≤ length input.now }
    ensures { result ≡ number_at input.now at }
{
    let four = [input[at], input[at + 1], input[at + 2], input[at + 3]];
    u64::from(u32::from_le_bytes(four))
}

// Fills `numbers` with as many numbers from `at` on.
fn read_numbers(input: &[u8], at: usize, numbers: &mut [u64])
    requires { (at + 4 * length numbers.old ≤ length input.now) × (length numbers.old ≤ 16) }
    ensures { numbers.new ≡ numbers_at (length numbers.old) input.now at }
{
    let (fours, _) = input[at..at + 4 * numbers.len()].as_chunks();
    for (k, four) in fours.iter().enumerate() {
        numbers[k] = u64::from(u32::from_le_bytes(*four));
    }
}

// The filter of so many ranges whose numbers begin at `at`.
pub(crate) fn filter_at(input: &[u8], at: usize, ranges: usize) -> Filter
    requires { (ranges ≤ 8) × (at + 8 * ranges ≤ length input.now) }
    ensures { result.bounds ≡ padded 16 (numbers_at (2 * ranges) input.now at) }
{
    let mut bounds = [0; 16];
    read_numbers(input, at, &mut bounds[..2 * ranges]);
    Filter { bounds }
}

// The notice of so many numbers that begin at `at`.
pub(crate) fn notice_at(input: &[u8], at: usize, ranges: usize) -> Notice
    requires { (ranges ≤ 8) × (at + 4 * ranges ≤ length input.now) }
    ensures { result.numbers ≡ padded 8 (numbers_at ranges input.now at) }
{
    let mut numbers = [0; 8];
    read_numbers(input, at, &mut numbers[..ranges]);
    Notice { numbers }
}
