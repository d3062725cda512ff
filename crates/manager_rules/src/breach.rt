//! The rules on the names that a protocol has for its managers and managed protocols.

ghost use Rattle.std.specs.Prelude.{◌≡◌, ◌↔◌, IsTrue};
ghost use Rattle.name_table.specs.Kinds.{strength_of_protocol, Converts};
ghost use Rattle.manager_rules.specs.Breaches.{Breaks};
ghost use Rattle.manager_rules.specs.Broken.{FindsWith, HasMessage};
ghost use Rattle.manager_rules.specs.Knowing.{IsKnown};
ghost use Rattle.manager_rules.specs.Managers.{Manages};
ghost use Rattle.manager_rules.specs.Sides.{NamesOn, other_side};
ghost use Rattle.manager_rules.specs.Subjects.{IsSubject};

use crate::known::ManagementGraph;
use crate::rows::finds_none;
use crate::side::Relation;
use crate::subject::Subject;
use ipdl_base::{Name, Rule};
use ipdl_syntax::NameAt;
use name_table::Strength;

/// A rule that a protocol's name of another protocol can break, by what the name does.
#[derive(Clone, Copy)]
pub enum ManagerBreach {
    /// The name finds no protocol.
    Unknown(Relation),
    /// The name finds a protocol that does not name this one in the other relation.
    Unanswered(Relation),
    /// The name finds a manager to which the protocol does not convert.
    Stronger,
    /// The name of a managed protocol finds a protocol, and no message has this name.
    Unconstructed,
}

impl ManagerBreach {
    ghost use Rattle.manager_rules.specs.Breaches.{rule_of, side_of};

    /// Returns the rule that is broken.
    pub fn rule(self) -> Rule
        ensures { result ≡ rule_of self }
    {
        match self {
            ManagerBreach::Unknown(_) => Rule::UNKNOWN_PROTOCOL,
            ManagerBreach::Unanswered(_) => Rule::MANAGER_DISAGREEMENT,
            ManagerBreach::Stronger => Rule::STRONGER_PROTOCOL,
            ManagerBreach::Unconstructed => Rule::MISSING_CONSTRUCTOR,
        }
    }

    /// Returns the relation whose names can break it.
    pub fn side(self) -> Relation
        ensures { result ≡ side_of self }
    {
        match self {
            ManagerBreach::Unknown(side) => side,
            ManagerBreach::Unanswered(side) => side,
            ManagerBreach::Stronger => Relation::Managers,
            ManagerBreach::Unconstructed => Relation::Managed,
        }
    }
}

/// Returns whether the protocol that a name finds does not name the subject on the other side.
fn is_unanswered(
    known: &ManagementGraph<'_, '_>,
    subject: &Subject<'_>,
    name: &Name,
    side: Relation,
) -> bool
    requires known { IsKnown known.now }
    ensures { IsTrue result ↔ FindsWith
        (λ other q. ¬ NamesOn (other_side side) known.now.program.now other q subject.now.file)
        known.now.program.now subject.now.file name.now }
{
    match known.find(subject.file, name) {
        Some((other, _)) => !known.has_bond(side.other(), other, subject.file),
        None => false,
    }
}

/// Returns whether a name finds a manager to which the subject does not convert.
fn is_stronger(known: &ManagementGraph<'_, '_>, subject: &Subject<'_>, name: &Name) -> bool
    requires known { IsKnown known.now }
    ensures { IsTrue result ↔ FindsWith
        (λ other m. ¬ Converts (strength_of_protocol subject.now.protocol.now) (strength_of_protocol m))
        known.now.program.now subject.now.file name.now }
{
    match known.find(subject.file, name) {
        Some((_, manager)) => {
            let strength = Strength::of_protocol(subject.protocol);
            !strength.converts_to(Strength::of_protocol(manager))
        }
        None => false,
    }
}

/// Returns whether a name finds a protocol, and the subject has no message of the name.
fn is_unconstructed(known: &ManagementGraph<'_, '_>, subject: &Subject<'_>, name: &Name) -> bool
    requires known { IsKnown known.now }
    requires subject { IsSubject known.now.program.now subject.now }
    ensures { IsTrue result ↔ FindsWith (λ other q. ¬ HasMessage subject.now.protocol.now name.now) known.now.program.now subject.now.file name.now }
{
    match known.find(subject.file, name) {
        Some(_) => !subject.has_message(name.as_slice()),
        None => false,
    }
}

/// Returns whether a name finds a protocol that the subject does not manage.
pub fn is_unmanaged(known: &ManagementGraph<'_, '_>, subject: &Subject<'_>, name: &Name) -> bool
    requires known { IsKnown known.now }
    requires subject { IsSubject known.now.program.now subject.now }
    ensures { IsTrue result ↔ FindsWith
        (λ other q. ¬ Manages known.now.program.now subject.now.file subject.now.protocol.now other)
        known.now.program.now subject.now.file name.now }
{
    match known.find(subject.file, name) {
        Some((other, _)) => !known.has_bond(Relation::Managed, subject.file, other),
        None => false,
    }
}

/// Returns whether a name breaks this rule.
pub fn breaks(
    known: &ManagementGraph<'_, '_>,
    subject: &Subject<'_>,
    name: &NameAt,
    breach: ManagerBreach,
) -> bool
    requires known { IsKnown known.now }
    requires subject { IsSubject known.now.program.now subject.now }
    ensures { IsTrue result ↔ Breaks breach known.now.program.now subject.now.file subject.now.protocol.now name.now }
{
    match breach {
        ManagerBreach::Unknown(_) => finds_none(known.names, subject.file, &name.name),
        ManagerBreach::Unanswered(side) => is_unanswered(known, subject, &name.name, side),
        ManagerBreach::Stronger => is_stronger(known, subject, &name.name),
        ManagerBreach::Unconstructed => is_unconstructed(known, subject, &name.name),
    }
}
