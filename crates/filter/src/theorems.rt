// The laws of filters, each demanded by a function's contract.
ghost use Rattle.filter.specs.Laws.{CoversTransitive, CoversAntisymmetric, CoversReflexive, CoversSound, SameDecides, OrderStrictTotal, PaddingChangesNothing};

pub fn covers_is_transitive_stands()
    ensures { CoversTransitive }
{}

pub fn covers_is_antisymmetric_stands()
    ensures { CoversAntisymmetric }
{}

pub fn covers_is_reflexive_stands()
    ensures { CoversReflexive }
{}

pub fn covers_is_sound_stands()
    ensures { CoversSound }
{}

pub fn same_decides_stands()
    ensures { SameDecides }
{}

pub fn order_is_strict_and_total_stands()
    ensures { OrderStrictTotal }
{}

pub fn padding_changes_nothing_stands()
    ensures { PaddingChangesNothing }
{}
