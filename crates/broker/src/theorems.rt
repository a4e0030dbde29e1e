// The laws of a broker's part of the memory, each demanded by a function's contract.
ghost use Rattle.broker.specs.Laws.{OneReading, ClearedIsEmpty};

pub fn one_reading_stands()
    ensures { OneReading }
{}

pub fn cleared_is_empty_stands()
    ensures { ClearedIsEmpty }
{}
