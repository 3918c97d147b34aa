ghost use Rattle.rules.specs.Cases.{WorkedCases};
ghost use Rattle.rules.specs.Laws.{DescentMatchesBook, FindsCountMoves, RoomsDoNotShow};

// Each law holds where its function is proved; the functions have nothing to compute.

pub fn descent_matches_book<V>()
    ensures { DescentMatchesBook V }
{}

pub fn finds_count_moves<V>()
    ensures { FindsCountMoves V }
{}

pub fn rooms_do_not_show<V>()
    ensures { RoomsDoNotShow V }
{}

pub fn worked_cases()
    ensures { WorkedCases }
{}
