//! The laws of what names find, of what a file sees, and of which types are defined.

ghost use Rattle.name_existence.specs.Laws.{DerivationsAreDecided, SightsAreListed, NamesHaveAnswers, ProtocolNamesHaveAnswers, TypesAreDecided};

/// The law of least sets: each node is derived, or it is not.
pub fn derivations_are_decided()
    ensures { DerivationsAreDecided }
{}

/// The law of sights: for each file of a program some list has exactly the declarations that it sees.
pub fn sights_are_listed()
    ensures { SightsAreListed }
{}

/// The law of names: in each file each text, with or without an argument, finds nothing, one
/// declaration, or two different declarations.
pub fn names_have_answers()
    ensures { NamesHaveAnswers }
{}

/// The law of the names of protocols: in each file each text finds no protocol, one protocol, or
/// two different ones.
pub fn protocol_names_have_answers()
    ensures { ProtocolNamesHaveAnswers }
{}

/// The law of types: each type is defined in a file, or it is not.
pub fn types_are_decided()
    ensures { TypesAreDecided }
{}
