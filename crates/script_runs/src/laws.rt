//! The laws of what every run of a valid script keeps.

ghost use Rattle.script_runs.specs.Laws.{AnswersComeOnce, CaseHistoriesObeyAllLaws, CaseWorldsFit, CasesHaveRoom, HandledAreDispatched, HandlersStand, LineTextsTellChoices, ResolversAreApart, RestOfCasesIsStill, ScriptEventsArePossible, StepsChangeDispatches, TermsStandForValues};

/// The law of terms: terms that fit represent values of the types.
pub fn terms_stand_for_values()
    ensures { TermsStandForValues }
{}

/// The law of answers: no action answers a request that an earlier action of its handler has answered.
pub fn answers_come_once()
    ensures { AnswersComeOnce }
{}

/// The law of handlers: the running handlers that lines show are the dispatches of the stack.
pub fn handled_are_dispatched()
    ensures { HandledAreDispatched }
{}

/// The law of handled requests: each is kept as it was taken.
pub fn handlers_stand()
    ensures { HandlersStand }
{}

/// The law of dispatches: which dispatches an end has after a step.
pub fn steps_change_dispatches()
    ensures { StepsChangeDispatches }
{}

/// The law of resolvers: no two dispatches have the resolver of one request.
pub fn resolvers_are_apart()
    ensures { ResolversAreApart }
{}

/// The law of fitting: what ends keep and send fits, and is not refused.
pub fn case_worlds_fit()
    ensures { CaseWorldsFit }
{}

/// The law of events: what a side does next is possible, and so is each delivery.
pub fn script_events_are_possible()
    ensures { ScriptEventsArePossible }
{}

/// The law of rest: if nothing is left to do, nothing but acts can happen, and no end waits.
pub fn rest_of_cases_is_still()
    ensures { RestOfCasesIsStill }
{}

/// The law of laws: the histories of a script can be read and obey all five laws.
pub fn case_histories_obey_all_laws()
    ensures { CaseHistoriesObeyAllLaws }
{}

/// The law of room: how many lines and packets a side has for its events.
pub fn cases_have_room()
    ensures { CasesHaveRoom }
{}

/// The law of line texts: each shows which side made a step, and whether by a delivery.
pub fn line_texts_tell_choices()
    ensures { LineTextsTellChoices }
{}
