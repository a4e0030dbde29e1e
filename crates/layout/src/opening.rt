// The opening of a network: how many ranges a filter has, how the brokers hang together, and how much there is room for.
ghost use Rattle.std.specs.Prelude.{◌≡◌, ◌-◌, ◌≤◌, length, Some, None, MatchResult};
ghost use Rattle.layout.specs.Opening.{Valid, first_loose, opening_refusal, hung_of, FindsTheFirstLoose};

use crate::Refusal;

// How many subscribers a broker and how many messages a channel has room for.
#[derive(Clone, Copy, PartialEq, Eq, Debug)]
pub struct Rooms {
    pub subscribers: usize,
    pub messages: usize,
}

impl Rooms {
    // The largest rooms that there are.
    pub const LARGEST: Rooms = Rooms {
        subscribers: 64,
        messages: 32768,
    };
}

#[derive(Clone, Copy, PartialEq, Eq, Debug)]
pub struct Opening {
    // How many ranges a filter has, and numbers a notice.
    pub ranges: usize,
    pub brokers: usize,
    // At each broker's place the one that it hangs on; 0 for the first, which hangs on none, and past the last.
    pub hung: [u8; 16],
    // The rooms of each broker and each channel.
    pub subscribers: usize,
    pub messages: usize,
    ghost valid: { Valid ranges brokers hung subscribers messages },
}

// The first broker that hangs on none before it; `given` has the broker hung on for the second, the third and so on.
fn first_loose(given: &[u8], brokers: usize) -> Option<usize>
    ensures { result ≡ first_loose given.now 1 (brokers - 1) }
{
    (1..brokers).find(|&b| b > given.len() || given[b - 1] as usize >= b)
}

// The brokers hung on, each at its broker's place.
fn hung_of(given: &[u8], brokers: usize) -> [u8; 16]
    requires { (1 ≤ brokers) × ((brokers ≤ 16) × (brokers - 1 ≤ length given.now)) }
    ensures { result ≡ hung_of brokers given.now }
{
    let mut hung = [0; 16];
    hung[1..brokers].copy_from_slice(&given[0..brokers - 1]);
    hung
}

impl Opening {
    // An opening with filters of so many ranges and so many brokers, of which the second, the third and so on hang on the brokers `given`. Numbers
    // past the last broker's are not read.
    pub fn new(
        ranges: usize,
        brokers: usize,
        given: &[u8],
        rooms: Rooms,
    ) -> Result<Opening, Refusal>
        ensures { MatchResult result
            (λ o.
            (opening_refusal ranges brokers given.now rooms.subscribers rooms.messages ≡ None)
            × (o.ranges ≡ ranges) × (o.brokers ≡ brokers) × (o.hung ≡ hung_of brokers given.now)
            × (o.subscribers ≡ rooms.subscribers) × (o.messages ≡ rooms.messages))
            (λ e. opening_refusal ranges brokers given.now rooms.subscribers rooms.messages ≡ Some e) }
    {
        let Rooms {
            subscribers,
            messages,
        } = rooms;
        if !(1..=8).contains(&ranges) || !(1..=16).contains(&brokers) {
            return Err(Refusal::BadOpening(0));
        }
        if !(1..=64).contains(&subscribers) || !(1..=32768).contains(&messages) {
            return Err(Refusal::BadOpening(0));
        }
        if let Some(b) = first_loose(given, brokers) {
            return Err(Refusal::BadOpening(b as u64));
        }
        let hung = hung_of(given, brokers);
        Ok(Opening {
            ranges,
            brokers,
            hung,
            subscribers,
            messages,
        })
    }
}

pub fn finds_the_first_loose_stands()
    ensures { FindsTheFirstLoose }
{}
