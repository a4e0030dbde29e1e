// The promises of the network: each function demands one theorem by its contract, and does nothing.
ghost use Rattle.model.specs.Tree.{Trees};
ghost use Rattle.model.specs.Promises.{Second, Third, QuietKnown, SameTables, Wished, Headline, Fit, Enough, Rest, CalledOnce, KnownWays, Order, Refusals, Tested};

// Nobody gets what it does not wish for, or anything twice in a stay; nothing needless is announced; quiet tables are right.
pub fn second_promise_stands()
    ensures { Second }
{}

// A notice posted while a subscriber's filter is known to all is delivered to it exactly once, if it matches.
pub fn third_promise_stands()
    ensures { Third }
{}

// When nothing is under way every subscriber's filter is known to all.
pub fn quiet_known_stands()
    ensures { QuietKnown }
{}

// The quiet tables are the same for the same subscribers, however they came about.
pub fn same_tables_stands()
    ensures { SameTables }
{}

// A notice goes only where it is wished for.
pub fn wished_stands()
    ensures { Wished }
{}

// The headline: in a network that was quiet a subscriber who stays is delivered each matching notice once.
pub fn headline_stands()
    ensures { Headline }
{}

// With at most R subscribers a broker, what was learned is at most R + 1 filters for each broker behind, in the middle of a batch too.
pub fn tables_fit_stands()
    ensures { Fit }
{}

// So 1,024 filters are enough for sixteen brokers of 64 subscribers.
pub fn enough_stands()
    ensures { Enough }
{}

// Messages can be carried so many times and no more, in whatever order, and then nothing is under way.
pub fn rest_stands()
    ensures { Rest }
{}

// A notice that is called for on the way to a subscriber who wants it at every moment is delivered exactly once.
pub fn called_once_stands()
    ensures { CalledOnce }
{}

// What is known at a broker and at all from there to the subscriber's stays so.
pub fn known_ways_stands()
    ensures { KnownWays }
{}

// To tell all those beside a broker is to tell one after the other.
pub fn order_stands()
    ensures { Order }
{}

// A network that refuses more commands is where the accepted ones lead to.
pub fn refusals_stands()
    ensures { Refusals }
{}

// Who is beside whom, and that the next hop towards a broker is what it should be.
pub fn trees_stands()
    ensures { Trees }
{}

// The tests for quiet and for known to all tell just that.
pub fn tested_stands()
    ensures { Tested }
{}
