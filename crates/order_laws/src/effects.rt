//! Laws of the effects that events have.
ghost use Rattle.order_laws.specs.DueEffects.{ConstructorsBuild, DestructorsDelete, DueAnswersAreGiven, ManagersLive, RefusedActsChangeNothing, RepliesSettle};

/// The law of destructors: after a destructor is sent and not refused, and after its handler returns, its
/// actor and its subtree do not live at that end.
pub fn destructors_delete()
    ensures { DestructorsDelete }
{}

/// The law of managers: in every run each living actor is the top one, or its manager lives.
pub fn managers_live()
    ensures { ManagersLive }
{}

/// The law of constructors: the event that sends or takes a constructor builds its actor and no other, unless
/// it is refused or dropped.
pub fn constructors_build()
    ensures { ConstructorsBuild }
{}

/// The law of replies: a reply that is taken settles its promise if that is pending, and does nothing else.
pub fn replies_settle()
    ensures { RepliesSettle }
{}

/// The law of answers: an event answers each request to which it owes an answer, in that event, if its end is
/// open.
pub fn due_answers_are_given()
    ensures { DueAnswersAreGiven }
{}

/// The law of refusals: an act that is refused prints one line, and changes neither the end nor what it
/// sends.
pub fn refused_acts_change_nothing()
    ensures { RefusedActsChangeNothing }
{}
