// Commands written as the bytes of a script.
ghost use Rattle.std.specs.Prelude.{◌≡◌, ◌+◌, ◌*◌, ◌<◌, ◌≤◌, true, false, [], ◌∷◌, ◌++◌, length, nat_lt, is_ok, if◌then◌else◌, Err, ◌≢◌};
ghost use Rattle.std.specs.List.{flat_map};
ghost use Rattle.script.specs.declared.writer.Unwritten.TheVariants.{TooLarge, NoMemory};
ghost use Rattle.arrayvec.specs.ArrayVec.{array_vec_len};
ghost use Rattle.script.specs.Script.{first_byte};
ghost use Rattle.script.specs.Writing.{four_bytes, small, all_small, fits, written, ReadsWhatWasWritten, WritesWhatWasRead};

use crate::Kind;
use arrayvec::ArrayVec;
use layout::{Command, Opening};
use std::alloc::AllocError;

// Why a command was not written.
#[derive(Clone, Copy, PartialEq, Eq, Debug)]
pub enum Unwritten {
    // A broker does not fit a byte, or another number four.
    TooLarge,
    NoMemory,
}

impl From<AllocError> for Unwritten {
    ghost from_gives = { λ _ r. r ≡ NoMemory };

    fn from(_e: AllocError) -> Unwritten {
        Unwritten::NoMemory
    }
}

// The bytes of one command; a join of eight ranges has as many as there is room for.
type Bytes = ArrayVec<u8, 70>;

// Writes a command's first six bytes.
fn put_front(bytes: &mut Bytes, kind: Kind, broker: u64, number: u64)
    requires { (bytes.old.items ≡ []) × (broker < 256) × (small number ≡ true) }
    ensures { bytes.new.items ≡ first_byte kind ∷ broker ∷ four_bytes number }
{
    bytes.push(u8::from(kind));
    bytes.push(broker as u8);
    put_number(bytes, number);
}

// Appends the four bytes of a number.
fn put_number(bytes: &mut Bytes, n: u64)
    requires { (array_vec_len bytes.old + 4 ≤ 70) × (small n ≡ true) }
    ensures { bytes.new.items ≡ bytes.old.items ++ four_bytes n }
{
    let four = (n as u32).to_le_bytes();
    bytes.try_extend_from_slice(&four).unwrap();
}

// Appends the numbers, four bytes each.
fn put_numbers(bytes: &mut Bytes, numbers: &[u64])
    requires { (array_vec_len bytes.old + 4 * length numbers.now ≤ 70) × (all_small numbers.now ≡ true) }
    ensures { bytes.new.items ≡ bytes.old.items ++ flat_map four_bytes numbers.now }
{
    for n in numbers {
        put_number(bytes, *n);
    }
}

// Whether a number fits four bytes.
fn is_small(n: u64) -> bool
    ensures { result ≡ small n }
{
    u32::try_from(n).is_ok()
}

fn all_small(numbers: &[u64]) -> bool
    ensures { result ≡ all_small numbers.now }
{
    numbers.iter().all(|n| is_small(*n))
}

// Whether a broker fits a byte.
fn is_byte(n: u64) -> bool
    ensures { result ≡ nat_lt n 256 }
{
    u8::try_from(n).is_ok()
}

// Whether the command's brokers fit a byte, and its other numbers four.
pub fn fits(command: Command, opening: &Opening) -> bool
    ensures { result ≡ fits opening.now.ranges command }
{
    let ranges = opening.ranges;
    match command {
        Command::Join {
            broker,
            number,
            filter,
        } => is_byte(broker) && is_small(number) && all_small(&filter.bounds[..2 * ranges]),
        Command::Leave { broker, number } => is_byte(broker) && is_small(number),
        Command::Post {
            broker,
            number,
            notice,
        } => is_byte(broker) && is_small(number) && all_small(&notice.numbers[..ranges]),
        Command::Carry { from, to } => is_byte(from) && is_byte(to),
    }
}

// Writes the bytes of a command that fits.
fn encode(bytes: &mut Bytes, command: Command, ranges: usize)
    requires { (bytes.old.items ≡ []) × (ranges ≤ 8) × (fits ranges command ≡ true) }
    ensures { bytes.new.items ≡ written ranges command }
{
    match command {
        Command::Join {
            broker,
            number,
            filter,
        } => {
            put_front(bytes, Kind::Join, broker, number);
            put_numbers(bytes, &filter.bounds[..2 * ranges]);
        }
        Command::Leave { broker, number } => put_front(bytes, Kind::Leave, broker, number),
        Command::Post {
            broker,
            number,
            notice,
        } => {
            put_front(bytes, Kind::Post, broker, number);
            put_numbers(bytes, &notice.numbers[..ranges]);
        }
        Command::Carry { from, to } => {
            bytes.push(u8::from(Kind::Carry));
            bytes.push(from as u8);
            bytes.push(to as u8);
        }
    }
}

// Appends the command's bytes to a script; where it is not written, the script is as it was.
pub fn write_command(
    script: &mut Vec<u8>,
    command: Command,
    opening: &Opening,
) -> Result<(), Unwritten>
    ensures script { script.new.items
        ≡ (if is_ok result then script.old.items ++ written opening.now.ranges command else script.old.items) }
    ensures large { fits opening.now.ranges command ≡ false → result ≡ Err TooLarge }
    ensures fitting { fits opening.now.ranges command ≡ true → result ≢ Err TooLarge }
{
    if !fits(command, opening) {
        return Err(Unwritten::TooLarge);
    }
    let mut bytes = Bytes::new();
    encode(&mut bytes, command, opening.ranges);
    script.extend_from_slice(bytes.as_slice())?;
    Ok(())
}

pub fn reads_what_was_written_stands()
    ensures { ReadsWhatWasWritten }
{}

pub fn writes_what_was_read_stands()
    ensures { WritesWhatWasRead }
{}
