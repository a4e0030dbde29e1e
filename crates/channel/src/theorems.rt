// The laws of messages and channels, each demanded by a function's contract.
ghost use Rattle.channel.specs.Laws.{RoundTrip, WordsDiffer, OneReading, ClearedIsEmpty};

pub fn round_trip_stands()
    ensures { RoundTrip }
{}

pub fn words_differ_stands()
    ensures { WordsDiffer }
{}

pub fn one_reading_stands()
    ensures { OneReading }
{}

pub fn cleared_is_empty_stands()
    ensures { ClearedIsEmpty }
{}
