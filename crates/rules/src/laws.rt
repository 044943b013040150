// The laws of the rules, each the contract of a function.
ghost use Rattle.rules.specs.Laws.{WhatWasDecidedStays, WhatARowLetsBeJudged, KeptRowsRise, KeptRowsAreWellFormed, KeptRowsPair, SealedRowsRiseAndPair, UnderstoodOnly, SelectedInTurn, MoreKnowledgeMoreRows, MoreKnowledgeSealsMore, OneCause, MismatchesRise, FaultsAreNumbered, StatesFollow, RowsFollowStates};

pub fn what_was_decided_stays()
    ensures { WhatWasDecidedStays }
{}

pub fn what_a_row_lets_be_judged()
    ensures { WhatARowLetsBeJudged }
{}

pub fn kept_rows_rise()
    ensures { KeptRowsRise }
{}

pub fn kept_rows_are_well_formed()
    ensures { KeptRowsAreWellFormed }
{}

pub fn kept_rows_pair()
    ensures { KeptRowsPair }
{}

pub fn sealed_rows_rise_and_pair()
    ensures { SealedRowsRiseAndPair }
{}

pub fn understood_only()
    ensures { UnderstoodOnly }
{}

pub fn selected_in_turn()
    ensures { SelectedInTurn }
{}

pub fn more_knowledge_more_rows()
    ensures { MoreKnowledgeMoreRows }
{}

pub fn more_knowledge_seals_more()
    ensures { MoreKnowledgeSealsMore }
{}

pub fn one_cause()
    ensures { OneCause }
{}

pub fn mismatches_rise()
    ensures { MismatchesRise }
{}

pub fn faults_are_numbered()
    ensures { FaultsAreNumbered }
{}

pub fn states_follow()
    ensures { StatesFollow }
{}

pub fn rows_follow_states()
    ensures { RowsFollowStates }
{}
