// How a network is made, and its commands. None asks anything of its memory: what every network has stands in its type.
ghost use Rattle.std.specs.Prelude.{◌≡◌, ◌≤◌, length, take, None};
ghost use Rattle.model.specs.Model.{empty};
ghost use Rattle.layout.specs.Plan.{words_of};
ghost use Rattle.layout.specs.Parts.{plan_of};
ghost use Rattle.layout.specs.State.{network_of};
ghost use Rattle.steps.specs.Rules.{refusal_of};
ghost use Rattle.steps.specs.Sound.{Performed};
ghost use Rattle.network.specs.Promised.{Promised};

use crate::network::Network;
use filter::{Filter, Notice};
use layout::{Command, Opening, Refusal};
use steps::commands;

impl<'a> Network<'a> {
    // Clears a memory that `Opening::fits` has found long enough, and opens a network in it.
    pub fn open(memory: &'a mut [u64], opening: Opening) -> Network<'a>
        requires { words_of (plan_of opening) ≤ length memory.old }
        ensures nothing { network_of opening result.memory.now ≡ empty }
        ensures opening { result.opening ≡ opening }
    {
        memory.fill(0);
        Network { memory, opening }
    }
}

impl Network<'_> {
    // A subscriber comes to a broker, with a number and a filter.
    pub fn join(&mut self, broker: u64, number: u64, filter: Filter) -> Result<usize, Refusal>
        ensures done { Performed self.old.opening self.old.memory.now (Command.Join broker number filter) result self.new.memory.now }
        ensures same { self.new.memory.ghost_name ≡ self.old.memory.ghost_name }
        ensures opening { self.new.opening ≡ self.old.opening }
    {
        let Network { memory, opening } = self;
        commands::join(memory, opening, broker, number, filter)
    }

    // The subscriber with this number leaves the broker.
    pub fn leave(&mut self, broker: u64, number: u64) -> Result<usize, Refusal>
        ensures done { Performed self.old.opening self.old.memory.now (Command.Leave broker number) result self.new.memory.now }
        ensures same { self.new.memory.ghost_name ≡ self.old.memory.ghost_name }
        ensures opening { self.new.opening ≡ self.old.opening }
    {
        let Network { memory, opening } = self;
        commands::leave(memory, opening, broker, number)
    }

    // A notice with a number arrives at a broker. Says to how many subscribers it was delivered there.
    pub fn post(&mut self, broker: u64, number: u64, notice: Notice) -> Result<usize, Refusal>
        ensures done { Performed self.old.opening self.old.memory.now (Command.Post broker number notice) result self.new.memory.now }
        ensures promised { refusal_of self.old.opening (network_of self.old.opening self.old.memory.now) (Command.Post broker number notice) ≡ None → Promised self.old.opening (network_of self.old.opening self.old.memory.now) number (take self.old.opening.ranges notice.numbers) (network_of self.old.opening self.new.memory.now) }
        ensures same { self.new.memory.ghost_name ≡ self.old.memory.ghost_name }
        ensures opening { self.new.opening ≡ self.old.opening }
    {
        let Network { memory, opening } = self;
        commands::post(memory, opening, broker, number, notice)
    }

    // The oldest message from the first broker to the second arrives. Says to how many subscribers there a notice was delivered by it.
    pub fn carry(&mut self, from: u64, to: u64) -> Result<usize, Refusal>
        ensures done { Performed self.old.opening self.old.memory.now (Command.Carry from to) result self.new.memory.now }
        ensures same { self.new.memory.ghost_name ≡ self.old.memory.ghost_name }
        ensures opening { self.new.opening ≡ self.old.opening }
    {
        let Network { memory, opening } = self;
        commands::carry(memory, opening, from, to)
    }

    // Any of the commands.
    pub fn perform(&mut self, command: Command) -> Result<usize, Refusal>
        ensures done { Performed self.old.opening self.old.memory.now command result self.new.memory.now }
        ensures same { self.new.memory.ghost_name ≡ self.old.memory.ghost_name }
        ensures opening { self.new.opening ≡ self.old.opening }
    {
        let Network { memory, opening } = self;
        commands::perform(memory, opening, command)
    }
}
