// The laws of the rules, each demanded by a function's contract.
ghost use Rattle.steps.specs.Laws.{RulesAllow};

pub fn rules_stands()
    ensures { RulesAllow }
{}
