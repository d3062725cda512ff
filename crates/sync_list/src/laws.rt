//! The law of the format of sync lists.

ghost use Rattle.sync_list.specs.Laws.{OneList, OneFault, NeverBoth};

/// The law of the format: a text spells at most one list, has at most one fault, and never both.
pub fn one_list()
    ensures list { OneList }
    ensures fault { OneFault }
    ensures never_both { NeverBoth }
{}
