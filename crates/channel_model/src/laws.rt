//! Laws that follow from the definitions of types, moves and histories.
ghost use Rattle.channel_model.specs.Laws.{DecidesTypes, HistoriesGrow, ImpossibleMovesChangeNothing, MovesGoOneAfterAnother, NullsKeepTypes, PlainFormsCommute};

/// The law of typed values: the test that steps make is true exactly where values have their types.
pub fn decides_types()
    ensures { DecidesTypes }
{}

/// The law of impossible moves: such a move changes nothing and prints no line.
pub fn impossible_moves_change_nothing()
    ensures { ImpossibleMovesChangeNothing }
{}

/// The law of moves: running some moves and then others gives what the others give after the first.
pub fn moves_go_one_after_another()
    ensures { MovesGoOneAfterAnother }
{}

/// The law of histories: the history of a prefix of the moves is a prefix of the history of all of them.
pub fn histories_grow()
    ensures { HistoriesGrow }
{}

/// The law of plain forms: the types and actors of values do not depend on where their boxes are.
pub fn plain_forms_commute()
    ensures { PlainFormsCommute }
{}

/// The law of nulls: values keep their types when null takes the place of actors that do not live.
pub fn nulls_keep_types()
    ensures { NullsKeepTypes }
{}
