// A list of commands, played from the opening of a network.
ghost use Rattle.std.specs.Prelude.{◌≡◌, ◌<◌, ◌≤◌, length, MatchResult};
ghost use Rattle.layout.specs.Plan.{words_of};
ghost use Rattle.layout.specs.Parts.{plan_of};
ghost use Rattle.layout.specs.State.{network_of};
ghost use Rattle.steps.specs.Sound.{Sound};
ghost use Rattle.network.specs.Promised.{KeptPromises};

use layout::{Command, Opening, Refusal};
use steps::commands;

// Opens a network in the memory and does each command in turn, or refuses it. Says how many were done.
pub fn play(memory: &mut [u64], opening: &Opening, list: &[Command]) -> Result<usize, Refusal>
    ensures { MatchResult result
        (λ many.
        (words_of (plan_of opening.now) ≤ length memory.old)
        × Sound opening.now memory.new
        × KeptPromises opening.now list.now many (network_of opening.now memory.new))
        (λ e.
        (length memory.old < words_of (plan_of opening.now))
        × (e ≡ Refusal.BadOpening (length memory.old))
        × (memory.new ≡ memory.old)) }
{
    opening.fits(memory)?;
    memory.fill(0);
    let mut many = 0;
    for command in list {
        if commands::perform(memory, opening, *command).is_ok() {
            many += 1;
        }
    }
    Ok(many)
}
