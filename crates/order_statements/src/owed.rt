//! The laws of effects and answers on lines.
ghost use Rattle.order_statements.specs.Laws.{FallenActorsStayFallen, HistoriesGiveWhatIsOwed, OneEndHasEffects};

/// The law of what events owe: in every legal history each event has the effects that it owes, and each end
/// gives the answers that it owes to the other end.
pub fn histories_give_what_they_owe()
    ensures { HistoriesGiveWhatIsOwed }
{}

/// The law of effects: in every run of one end, whatever is delivered to it, each event has the effects that
/// it owes.
pub fn one_end_has_effects()
    ensures { OneEndHasEffects }
{}

/// The law of fallen actors: in every run an actor that lived and no longer lives never lives again.
pub fn fallen_actors_stay_fallen()
    ensures { FallenActorsStayFallen }
{}
