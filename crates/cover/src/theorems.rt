// The laws of maximal filters and of the differences between tables, each demanded by a function's contract.
ghost use Rattle.cover.specs.Laws.{MaximalMembers, SortedByMembers, MaximalAntichain, MaximalCover, MaximalMatch, MaximalByMembers, MaximalOfPart, MaximalByInsert, OneChange, ReplayLeads, BetweenKeeps, TablesLaid};

pub fn maximal_members_stands()
    ensures { MaximalMembers }
{}

pub fn sorted_by_members_stands()
    ensures { SortedByMembers }
{}

pub fn maximal_antichain_stands()
    ensures { MaximalAntichain }
{}

pub fn maximal_cover_stands()
    ensures { MaximalCover }
{}

pub fn maximal_match_stands()
    ensures { MaximalMatch }
{}

pub fn maximal_by_members_stands()
    ensures { MaximalByMembers }
{}

pub fn maximal_of_part_stands()
    ensures { MaximalOfPart }
{}

pub fn maximal_by_insert_stands()
    ensures { MaximalByInsert }
{}

pub fn one_change_stands()
    ensures { OneChange }
{}

pub fn replay_leads_stands()
    ensures { ReplayLeads }
{}

pub fn between_keeps_stands()
    ensures { BetweenKeeps }
{}

pub fn tables_laid_stands()
    ensures { TablesLaid }
{}
