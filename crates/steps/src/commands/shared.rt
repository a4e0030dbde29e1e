// What the commands share: the numbers and brokers that they name, and how a part is put back if there is no room to tell of its change.
ghost use Rattle.std.specs.Prelude.{◌≡◌, ◌-◌, ◌<◌, ◌≤◌, ◌∷◌, length, if◌then◌else◌, Some, None, MatchResult, nat_lt};
ghost use borrow.Rule.Slice.PartMut.{put_mid};
ghost use Rattle.model.specs.Tree.{edge, neighbours, has, hangs_on};
ghost use Rattle.model.specs.Model.{tell};
ghost use Rattle.layout.specs.Parts.{tree};
ghost use Rattle.layout.specs.State.{network_of, Encodes};
ghost use Rattle.routing.specs.Around.{Ready};
ghost use Rattle.routing.specs.Rooms.{no_room_to_tell};
ghost use Rattle.steps.specs.Rules.{too_large};

use arrayvec::ArrayVec;
use layout::memory::LARGEST_TABLE;
use layout::parts::Span;
use layout::{Opening, Refusal};
use routing::telling;

// The numbers of subscribers, notices, filters are below this.
const LIMIT: u64 = 0x1_0000_0000;

// Refuses a number that is not below 2^32: that of the subscriber or notice, at place 1, or one of those behind it.
pub(crate) fn small_enough(number: u64, numbers: &[u64]) -> Result<(), Refusal>
    ensures { MatchResult result (λ _. too_large 1 (number ∷ numbers.now) ≡ None) (λ e. too_large 1 (number ∷ numbers.now) ≡ Some e) }
{
    if number >= LIMIT {
        return Err(Refusal::NumberTooLarge(1));
    }
    match numbers.iter().position(|x| *x >= LIMIT) {
        Some(i) => Err(Refusal::NumberTooLarge(i as u64 + 2)),
        None => Ok(()),
    }
}

// The broker with this number, if there is one.
pub fn find(opening: &Opening, broker: u64) -> Option<usize>
    ensures { result ≡ (if nat_lt broker opening.now.brokers then Some broker else None) }
{
    let index = broker as usize;
    (index < opening.brokers).then_some(index)
}

// The broker with this number, or the refusal that there is none.
pub fn present(opening: &Opening, broker: u64) -> Result<usize, Refusal>
    ensures { MatchResult result (λ b. (b ≡ broker) × (b < opening.now.brokers)) (λ e. (e ≡ Refusal.NoSuchBroker broker) × (opening.now.brokers ≤ broker)) }
{
    find(opening, broker).ok_or(Refusal::NoSuchBroker(broker))
}

// Whether a broker hangs on another.
fn hangs_on(opening: &Opening, a: usize, b: usize) -> bool
    requires { a < opening.now.brokers }
    ensures { result ≡ hangs_on (tree opening.now) a b }
{
    a > 0 && usize::from(opening.hung[a]) == b
}

// Whether one of two brokers hangs on the other.
pub fn hang_together(opening: &Opening, a: usize, b: usize) -> bool
    requires { (a < opening.now.brokers) × (b < opening.now.brokers) }
    ensures answer { result ≡ edge (tree opening.now) a b }
    ensures beside { result ≡ has (neighbours (tree opening.now) a) b }
{
    hangs_on(opening, a, b) || hangs_on(opening, b, a)
}

// A copy of a part's words; there is room for those of the largest part that a command changes before it knows whether it is refused. It is filled
// where it lies, for a copy that came out of a `Result` would be moved once more, with all the words that there is room for.
pub fn save(part: &[u64]) -> ArrayVec<u64, LARGEST_TABLE>
    requires { length part.now ≤ 15601 }
    ensures { result.items ≡ part.now }
{
    let mut saved = ArrayVec::new();
    saved.try_extend_from_slice(part).unwrap();
    saved
}

// What a broker knows has changed, in one part: it tells those beside it, or, where a channel has no room for that, the part is put back as it was
// saved.
pub(crate) fn settle(
    memory: &mut [u64],
    opening: &Opening,
    broker: usize,
    part: Span,
    saved: &[u64],
) -> Result<(), Refusal>
    requires ready { Ready opening.now memory.old broker }
    requires part { (part.at ≤ part.end) × (part.end ≤ length memory.old) × (length saved.now ≡ part.end - part.at) }
    ensures { MatchResult result
        (λ _. (no_room_to_tell opening.now (network_of opening.now memory.old) broker ≡ None) × Encodes opening.now memory.new (tell (tree opening.now) broker (network_of opening.now memory.old)))
        (λ e. (no_room_to_tell opening.now (network_of opening.now memory.old) broker ≡ Some e) × (memory.new ≡ put_mid part.at (part.end - part.at) memory.old saved.now)) }
{
    if let Err(refusal) = telling::lacks_room(memory, opening, broker) {
        memory[part.at..part.end].copy_from_slice(saved);
        return Err(refusal);
    }
    telling::tell(memory, opening, broker);
    Ok(())
}
