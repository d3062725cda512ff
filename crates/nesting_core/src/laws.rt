//! Laws that hold for every stack.
ghost use Rattle.nesting_core.specs.Laws.{PlainFormsCommute, RefusesByFirstCause};

/// The law of plain forms: no definition on frames looks at where a box of an answer lies.
pub fn plain_forms_commute()
    ensures { PlainFormsCommute }
{}

/// The law of refusals: a sync send is refused exactly by the first of the four causes that holds, and
/// one that is not refused leaves room for its wait.
pub fn refuses_by_first_cause()
    ensures { RefusesByFirstCause }
{}
