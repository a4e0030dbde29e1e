// The command by which a message is carried to the broker where it arrives.
ghost use Rattle.std.specs.Prelude.{◌≡◌, ◌+◌, ◌*◌, ◌≤◌, true, List, ◌∷◌, length, take, ◌≢◌, slice_index};
ghost use Rattle.cover.specs.Sorted.{sorted};
ghost use Rattle.cover.specs.Table.{held, changed};
ghost use Rattle.channel.specs.Message.{words};
ghost use Rattle.model.specs.Tree.{edge};
ghost use Rattle.model.specs.Model.{Message as Piece, notice as passed, after};
ghost use Rattle.layout.specs.Parts.{tree};
ghost use Rattle.layout.specs.State.{network_of, Encodes, Formed};
ghost use Rattle.layout.specs.Mail.{message_in};
ghost use Rattle.layout.specs.Changed.{with_channel};
ghost use Rattle.steps.specs.Sound.{Sound, Performed};

use super::shared::{hang_together, present, save, settle};
use broker::announcing;
use channel::{Message, ring};
use cover::Rows;
use filter::Notice;
use layout::links::link;
use layout::parts::{Kind, Span, place};
use layout::{Command, Opening, Refusal};
use routing::arriving;

// What a message makes of the table of the broker where it arrives.
pub fn apply(learned: &mut [u64], ranges: usize, message: Message)
    requires count { (1 ≤ ranges) × (ranges ≤ 8) }
    requires whole { 1 + 2 * ranges * slice_index learned.old 0 ≤ length learned.old }
    requires order { sorted (held (2 * ranges) learned.old) ≡ true }
    requires room { 1 + 2 * ranges * length (after (message_in ranges (words ranges message)) (held (2 * ranges) learned.old)) ≤ length learned.old }
    ensures { learned.new ≡ changed (2 * ranges) (after (message_in ranges (words ranges message))) learned.old }
{
    match message {
        Message::Add(filter) => {
            if !Rows::counted(learned, 2 * ranges).has(&filter.bounds[..2 * ranges]) {
                announcing::learn(learned, ranges, filter);
            }
        }
        Message::Cut(filter) => announcing::forget(learned, ranges, filter),
        Message::Notice { .. } => {}
    }
}

// Takes the oldest message from one broker to another beside it off its channel.
fn take_oldest(memory: &mut [u64], opening: &Opening, from: usize, to: usize)
    requires formed { Formed opening.now memory.old }
    requires beside { edge (tree opening.now) from to ≡ true }
    ensures { (p : Piece) (ps : List Piece) → (network_of opening.now memory.old).channel from to ≡ p ∷ ps → Encodes opening.now memory.new (with_channel (network_of opening.now memory.old) from to ps) }
{
    let Span { at, end } = place(opening, Kind::Channel, link(from, to));
    let _ = ring::take(&mut memory[at..end], opening.ranges, opening.messages);
}

// An add or a cut arrives: the broker learns or forgets the filter, and tells.
fn carry_change(
    memory: &mut [u64],
    opening: &Opening,
    from: usize,
    to: usize,
    message: Message,
) -> Result<usize, Refusal>
    requires sound { Sound opening.now memory.old }
    requires beside { edge (tree opening.now) from to ≡ true }
    requires oldest { (ps : List Piece) × ((network_of opening.now memory.old).channel from to ≡ message_in opening.now.ranges (words opening.now.ranges message) ∷ ps) }
    requires change { (number : _) (notice : _) → message ≢ Message.Notice number notice }
    ensures { Performed opening.now memory.old (Command.Carry from to) result memory.new }
{
    let Span { at, end } = place(opening, Kind::Learned, link(from, to));
    let saved = save(&memory[at..end]);
    apply(&mut memory[at..end], opening.ranges, message);
    settle(memory, opening, to, Span { at, end }, &saved)?;
    take_oldest(memory, opening, from, to);
    Ok(0)
}

// A notice arrives from a broker beside.
fn carry_notice(
    memory: &mut [u64],
    opening: &Opening,
    from: usize,
    to: usize,
    number: u64,
    notice: Notice,
) -> Result<usize, Refusal>
    requires sound { Sound opening.now memory.old }
    requires beside { edge (tree opening.now) from to ≡ true }
    requires oldest { (ps : List Piece) × ((network_of opening.now memory.old).channel from to ≡ passed number (take opening.now.ranges notice.numbers) ∷ ps) }
    ensures { Performed opening.now memory.old (Command.Carry from to) result memory.new }
{
    let ranges = opening.ranges;
    let numbers = &notice.numbers[..ranges];
    let source = from as u64;
    let reach = arriving::find(memory, opening, to, source, numbers);
    arriving::refused(memory, opening, to, source, number, numbers, &reach)?;
    take_oldest(memory, opening, from, to);
    arriving::arrive(memory, opening, to, source, number, notice, &reach);
    Ok(reach.many)
}

// The oldest message from one broker to another beside it arrives; where there is none, nothing happens.
pub fn carry(memory: &mut [u64], opening: &Opening, from: u64, to: u64) -> Result<usize, Refusal>
    requires { Sound opening.now memory.old }
    ensures { Performed opening.now memory.old (Command.Carry from to) result memory.new }
{
    let a = present(opening, from)?;
    let b = present(opening, to)?;
    if !hang_together(opening, a, b) {
        return Err(Refusal::NotBeside(to));
    }
    let Span { at, end } = place(opening, Kind::Channel, link(a, b));
    let Some(message) = ring::get(&memory[at..end], opening.ranges, opening.messages, 0) else {
        return Ok(0);
    };
    match message {
        Message::Notice { number, notice } => carry_notice(memory, opening, a, b, number, notice),
        Message::Add(_) | Message::Cut(_) => carry_change(memory, opening, a, b, message),
    }
}
