// The laws of expansion and unexpansion by one list, over their definitions.
ghost use Rattle.expansion.specs.Laws.{UnexpansionUndoesExpansion, UnexpansionIsExact, OneTermAnExpansion, ExpansionsAreWellFormed, MarksOffIsPlain, FirstOffenceIsFound, ProperListsAreSound};

// Unexpansion gives t exactly when t expands to the given term, and no two terms have the same expansion.
pub fn unexpansion_is_the_way_back()
    ensures undoes { UnexpansionUndoesExpansion }
    ensures exact { UnexpansionIsExact }
    ensures one { OneTermAnExpansion }
{}

// An expansion is well formed, and with the marks off it is the plain one.
pub fn expansion_keeps_terms()
    ensures formed { ExpansionsAreWellFormed }
    ensures plain { MarksOffIsPlain }
{}

// The word at which a layer refuses a term is the first that offends, outside what is dropped or to be dropped.
pub fn the_first_offence_is_found()
    ensures { FirstOffenceIsFound }
{}

// What acceptance asks of a list is all that the laws of expansion ask of its rules.
pub fn accepted_lists_have_sound_rules()
    ensures { ProperListsAreSound }
{}
