//! The laws that the findings of each group of rules are listed.

ghost use Rattle.rule_existence.specs.Laws.{ListFindingsAreListed, ManagerFindingsAreListed, MessageFindingsAreListed, TypeFindingsAreListed};

/// The law of the findings on types: for every program some list has exactly the findings of the
/// rules on types, names of declarations and attributes.
pub fn type_findings_are_listed()
    ensures { TypeFindingsAreListed }
{}

/// The law of the findings on messages: for every program some list has exactly the findings of the
/// rules on messages and their parameters.
pub fn message_findings_are_listed()
    ensures { MessageFindingsAreListed }
{}

/// The law of the findings on a sync list: for every program and every sync list some list has
/// exactly the findings of the rules of the list.
pub fn list_findings_are_listed()
    ensures { ListFindingsAreListed }
{}

/// The law of the findings on managers: for every program some list has exactly the findings of the
/// rules on managers and managed protocols.
pub fn manager_findings_are_listed()
    ensures { ManagerFindingsAreListed }
{}
