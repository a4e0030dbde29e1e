// The command by which a notice is posted.
ghost use Rattle.steps.specs.Sound.{Sound, Performed};

use super::shared::{present, small_enough};
use filter::Notice;
use layout::memory::MOST_NOTICES;
use layout::parts::{Kind, Span, place};
use layout::{Command, Opening, Refusal, log};
use routing::arriving;

// A notice is posted at a broker, and arrives there.
pub fn post(
    memory: &mut [u64],
    opening: &Opening,
    broker: u64,
    number: u64,
    notice: Notice,
) -> Result<usize, Refusal>
    requires { Sound opening.now memory.old }
    ensures { Performed opening.now memory.old (Command.Post broker number notice) result memory.new }
{
    let ranges = opening.ranges;
    let numbers = &notice.numbers[..ranges];
    small_enough(number, numbers)?;
    let b = present(opening, broker)?;
    let Span { at, end } = place(opening, Kind::Posted, 0);
    if log::lists(&memory[at..end], number) {
        return Err(Refusal::NoticeUsed(number));
    }
    if memory[at] as usize >= MOST_NOTICES {
        return Err(Refusal::TooManyNotices(MOST_NOTICES as u64));
    }
    let reach = arriving::find(memory, opening, b, broker, numbers);
    arriving::refused(memory, opening, b, broker, number, numbers, &reach)?;
    log::note(&mut memory[at..end], number);
    arriving::arrive(memory, opening, b, broker, number, notice, &reach);
    Ok(reach.many)
}
