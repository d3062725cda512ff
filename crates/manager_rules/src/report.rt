//! Adds the findings of the rules on managers.

ghost use Rattle.std.specs.Prelude.{◌≡◌, ◌≤◌, length, map, slice_get, Some, IfOk, OnOk, IsSomeAnd};
ghost use Rattle.findings.specs.Adds.{Adds};
ghost use Rattle.findings.specs.Gains.{Gains};
ghost use Rattle.findings.specs.Repeats.{IsRepeatedAt};
ghost use Rattle.name_table.specs.Decls.{protocol_of};
ghost use Rattle.manager_rules.specs.Breaches.{rule_of};
ghost use Rattle.manager_rules.specs.Broken.{BrokenAt, names_at, messages_at};
ghost use Rattle.manager_rules.specs.InProtocol.{BreaksAt, CycleIn, UndestroyedIn, UnmanagedIn, RepeatedIn, NamesBroken, RestBroken, BrokenIn};
ghost use Rattle.manager_rules.specs.Knowing.{IsKnown};
ghost use Rattle.manager_rules.specs.Subjects.{HasNames, IsSubject};

use crate::breach::{ManagerBreach, breaks, is_unmanaged};
use crate::cycle::is_in_cycle;
use crate::known::ManagementGraph;
use crate::side::Relation;
use crate::subject::Subject;
use findings::{NamePlace, add_repeated};
use ipdl_base::{Finding, Rule};
use ipdl_syntax::{Entry, MessageDecl, NameAt, Program, ProtocolDecl};
use name_table::Names;
use std::alloc::{AllocError, Global};

/// Adds a finding at each name of the subject that breaks this rule.
fn add_breaches(
    known: &ManagementGraph<'_, '_>,
    subject: &Subject<'_>,
    breach: ManagerBreach,
    found: &mut Vec<Finding>,
) -> Result<(), AllocError>
    requires known { IsKnown known.now }
    requires subject { IsSubject known.now.program.now subject.now }
    ensures { OnOk result (Adds (rule_of breach)
        (BreaksAt breach known.now.program.now subject.now.file subject.now.protocol.now)
        found.old.items found.new.items) }
{
    let names = breach.side().names_of(subject.protocol);
    for name in names {
        if breaks(known, subject, name, breach) {
            found.push(Finding {
                place: name.place,
                rule: breach.rule(),
            })?;
        }
    }
    Ok(())
}

/// Adds a finding at each message of the subject with the name of a protocol that the subject does
/// not manage.
fn add_unmanaged(
    known: &ManagementGraph<'_, '_>,
    subject: &Subject<'_>,
    messages: &[MessageDecl],
    found: &mut Vec<Finding>,
) -> Result<(), AllocError>
    requires known { IsKnown known.now }
    requires subject { IsSubject known.now.program.now subject.now }
    ensures { OnOk result (Adds Rule.UNMANAGED_CONSTRUCTOR
        (UnmanagedIn known.now.program.now subject.now.file subject.now.protocol.now messages.now)
        found.old.items found.new.items) }
{
    for message in messages {
        if is_unmanaged(known, subject, &message.name) {
            found.push(Finding {
                place: message.place,
                rule: Rule::UNMANAGED_CONSTRUCTOR,
            })?;
        }
    }
    Ok(())
}

/// Adds a finding at the subject's name if it has managers and no destructor.
fn add_undestroyed(subject: &Subject<'_>, found: &mut Vec<Finding>) -> Result<(), AllocError>
    requires { HasNames subject.now.protocol.now.messages subject.now.messages }
    ensures { OnOk result (Adds Rule.MISSING_DESTRUCTOR (UndestroyedIn subject.now.protocol.now)
        found.old.items found.new.items) }
{
    if subject.lacks_destructor() {
        found.push(Finding {
            place: subject.protocol.place,
            rule: Rule::MISSING_DESTRUCTOR,
        })?;
    }
    Ok(())
}

/// Adds a finding at the subject's name if managers lead from it to another protocol and back.
fn add_cycle(
    alloc: Global,
    known: &ManagementGraph<'_, '_>,
    subject: &Subject<'_>,
    found: &mut Vec<Finding>,
) -> Result<(), AllocError>
    requires known { IsKnown known.now }
    requires subject { IsSubject known.now.program.now subject.now }
    ensures { OnOk result (Adds Rule.MANAGER_CYCLE (CycleIn known.now.program.now subject.now.file subject.now.protocol.now)
        found.old.items found.new.items) }
{
    if is_in_cycle(alloc, known, subject.file)? {
        found.push(Finding {
            place: subject.protocol.place,
            rule: Rule::MANAGER_CYCLE,
        })?;
    }
    Ok(())
}

/// Returns these names with their places.
fn places_of_names(alloc: Global, names: &[NameAt]) -> Result<Vec<NamePlace<'_>>, AllocError>
    ensures { IfOk result (λ places. map (λ n. (n.0.now, n.1)) places.items ≡ names_at names.now) }
{
    let mut places = Vec::new(alloc);
    for name in names {
        places.push((name.name.as_slice(), name.place))?;
    }
    Ok(places)
}

/// Returns the names of these messages with their places.
fn places_of_messages(
    alloc: Global,
    messages: &[MessageDecl],
) -> Result<Vec<NamePlace<'_>>, AllocError>
    ensures { IfOk result (λ places. map (λ n. (n.0.now, n.1)) places.items ≡ messages_at messages.now) }
{
    let mut places = Vec::with_capacity(alloc, messages.len())?;
    for message in messages {
        places.push((message.name.as_slice(), message.place))?;
    }
    Ok(places)
}

/// Adds a finding at each of these names that repeats an earlier one.
fn add_repeated_names(
    alloc: Global,
    names: &[NameAt],
    found: &mut Vec<Finding>,
) -> Result<(), AllocError>
    ensures { OnOk result (Adds Rule.REPEATED_NAME (IsRepeatedAt (names_at names.now)) found.old.items found.new.items) }
{
    let places = places_of_names(alloc, names)?;
    add_repeated(alloc, Rule::REPEATED_NAME, places.as_slice(), found)
}

/// Adds a finding at each of these messages that has the name of an earlier one.
fn add_repeated_messages(
    alloc: Global,
    messages: &[MessageDecl],
    found: &mut Vec<Finding>,
) -> Result<(), AllocError>
    ensures { OnOk result (Adds Rule.REPEATED_NAME (IsRepeatedAt (messages_at messages.now)) found.old.items found.new.items) }
{
    let places = places_of_messages(alloc, messages)?;
    add_repeated(alloc, Rule::REPEATED_NAME, places.as_slice(), found)
}

/// Adds a finding at each manager, managed protocol and message that has the name of an earlier one
/// of its protocol.
fn add_repeats(
    alloc: Global,
    protocol: &ProtocolDecl,
    found: &mut Vec<Finding>,
) -> Result<(), AllocError>
    ensures { OnOk result (Adds Rule.REPEATED_NAME (RepeatedIn protocol.now) found.old.items found.new.items) }
{
    add_repeated_names(alloc, protocol.managers.as_slice(), found)?;
    add_repeated_names(alloc, protocol.manages.as_slice(), found)?;
    add_repeated_messages(alloc, protocol.messages.as_slice(), found)
}

/// Adds the findings at the subject's names of other protocols.
fn add_of_names(
    known: &ManagementGraph<'_, '_>,
    subject: &Subject<'_>,
    found: &mut Vec<Finding>,
) -> Result<(), AllocError>
    requires known { IsKnown known.now }
    requires subject { IsSubject known.now.program.now subject.now }
    ensures { OnOk result (Gains (NamesBroken known.now.program.now subject.now.file subject.now.protocol.now)
        found.old.items found.new.items) }
{
    add_breaches(
        known,
        subject,
        ManagerBreach::Unknown(Relation::Managers),
        found,
    )?;
    add_breaches(
        known,
        subject,
        ManagerBreach::Unknown(Relation::Managed),
        found,
    )?;
    add_breaches(
        known,
        subject,
        ManagerBreach::Unanswered(Relation::Managed),
        found,
    )?;
    add_breaches(
        known,
        subject,
        ManagerBreach::Unanswered(Relation::Managers),
        found,
    )?;
    add_breaches(known, subject, ManagerBreach::Stronger, found)?;
    add_breaches(known, subject, ManagerBreach::Unconstructed, found)
}

/// Adds the subject's other findings.
fn add_of_rest(
    alloc: Global,
    known: &ManagementGraph<'_, '_>,
    subject: &Subject<'_>,
    found: &mut Vec<Finding>,
) -> Result<(), AllocError>
    requires known { IsKnown known.now }
    requires subject { IsSubject known.now.program.now subject.now }
    ensures { OnOk result (Gains (RestBroken known.now.program.now subject.now.file subject.now.protocol.now)
        found.old.items found.new.items) }
{
    add_cycle(alloc, known, subject, found)?;
    add_undestroyed(subject, found)?;
    add_unmanaged(known, subject, subject.protocol.messages.as_slice(), found)?;
    add_repeats(alloc, subject.protocol, found)
}

/// Adds the findings of a protocol. It is the protocol of the file of this number.
fn add_of_protocol(
    alloc: Global,
    known: &ManagementGraph<'_, '_>,
    file: u32,
    protocol: &ProtocolDecl,
    found: &mut Vec<Finding>,
) -> Result<(), AllocError>
    requires known { IsKnown known.now }
    requires there { protocol_of known.now.program.now file ≡ Some protocol.now }
    ensures { OnOk result (Gains (BrokenIn known.now.program.now file protocol.now) found.old.items found.new.items) }
{
    let subject = Subject::of(alloc, file, protocol)?;
    add_of_names(known, &subject, found)?;
    add_of_rest(alloc, known, &subject, found)
}

/// Adds the findings of the protocol of a file, if it has one.
fn add_of_file(
    alloc: Global,
    known: &ManagementGraph<'_, '_>,
    file: u32,
    entry: &Entry,
    found: &mut Vec<Finding>,
) -> Result<(), AllocError>
    requires known { IsKnown known.now }
    requires there { slice_get known.now.program.now file ≡ Some entry.now }
    ensures { OnOk result (Gains (λ f. IsSomeAnd entry.now.unit.protocol (λ p. BrokenIn known.now.program.now file p f)) found.old.items found.new.items) }
{
    match &entry.unit.protocol {
        Some(protocol) => add_of_protocol(alloc, known, file, protocol, found),
        None => Ok(()),
    }
}

/// Adds the findings of the protocols of all files.
fn add_of_files(
    alloc: Global,
    known: &ManagementGraph<'_, '_>,
    found: &mut Vec<Finding>,
) -> Result<(), AllocError>
    requires few { length known.now.program.now ≤ 4096 }
    requires known { IsKnown known.now }
    ensures { OnOk result (Gains (BrokenAt known.now.program.now) found.old.items found.new.items) }
{
    for (file, entry) in known.program.iter().enumerate() {
        add_of_file(alloc, known, file as u32, entry, found)?;
    }
    Ok(())
}

/// Adds the findings of the rules B8, B9, B15 and B17 to B21 that a program breaks
/// (docs/protocols.md), in some order. `names` is the table of the program's names. Fails only if
/// memory runs out.
pub fn add_of_managers(
    alloc: Global,
    program: &Program,
    names: &Names<'_>,
    found: &mut Vec<Finding>,
) -> Result<(), AllocError>
    requires few { length program.now ≤ 4096 }
    requires of_program { names.now ≡ program.now }
    ensures { OnOk result (Gains (BrokenAt program.now) found.old.items found.new.items) }
{
    let known = ManagementGraph::of(alloc, program.as_slice(), names)?;
    add_of_files(alloc, &known, found)
}
