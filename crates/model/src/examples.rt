// The worked example as theorems: each function demands one by its contract, and does nothing.
ghost use Rattle.model.specs.Example.{Worked, Met, NotEnough};

// Four brokers, worked out row by row.
pub fn worked_example_stands()
    ensures { Worked }
{}

// What the promises suppose is met by the worked example.
pub fn suppositions_met_stands()
    ensures { Met }
{}

// A covering filter among those learned everywhere is not enough for a notice to arrive.
pub fn learned_is_not_known_stands()
    ensures { NotEnough }
{}
