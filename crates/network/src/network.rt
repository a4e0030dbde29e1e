// A network in lent memory: it is made by opening, and every command leaves it sound.
ghost use Rattle.steps.specs.Sound.{Sound};

use layout::Opening;

mod asking;
pub mod calls;
mod parts;
mod reading;

#[derive(Drop)]
pub struct Network<'a> {
    memory: &'a mut [u64],
    opening: Opening,
    ghost sound: { ∥ Sound opening memory.now ∥₁ },
}
