// Who is beside whom in an opening's tree, and the numbers of the channels between them.
ghost use Rattle.std.specs.Prelude.{◌≡◌, ◌-◌, ◌<◌};
ghost use Rattle.model.specs.Tree.{neighbours};
ghost use Rattle.layout.specs.Links.{tree_of, link, Links};

use crate::Opening;
use arrayvec::ArrayVec;

// The number of the channel from one broker to another beside it.
pub fn link(from: usize, to: usize) -> usize
    requires { (from < 16) × (to < 16) }
    ensures { result ≡ link from to }
{
    if to < from {
        2 * (from - 1)
    } else if to == 0 {
        1
    } else {
        2 * (to - 1) + 1
    }
}

impl Opening {
    // The brokers beside one, in the order of telling: the one that it hangs on, then those that hang on it by number.
    pub fn beside(&self, broker: usize) -> ArrayVec<u64, 16>
        requires { broker < self.now.brokers }
        ensures { result.items ≡ neighbours (tree_of self.now.hung (self.now.brokers - 1)) broker }
    {
        let mut beside = ArrayVec::new();
        if broker > 0 {
            beside.push(u64::from(self.hung[broker]));
        }
        for k in 1..self.brokers {
            if usize::from(self.hung[k]) == broker {
                beside.push(k as u64);
            }
        }
        beside
    }
}

pub fn links_stands()
    ensures { Links }
{}
