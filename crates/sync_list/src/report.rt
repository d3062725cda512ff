//! Adds the findings of the rules that a program and a sync list break.

ghost use Rattle.std.specs.Prelude.{◌≡◌, ◌≤◌, ◌↔◌, List, length, OnOk, IsTrue};
ghost use Rattle.std.specs.List.{Any};
ghost use Rattle.ipdl_base.specs.declared.kinds.Semantics.TheVariants.{Sync};
ghost use Rattle.findings.specs.Adds.{Adds};
ghost use Rattle.findings.specs.Gains.{Gains};
ghost use Rattle.ipdl_syntax.specs.declared.program.Entry.{Entry};
ghost use Rattle.sync_list.specs.declared.list.Section.{Section};
ghost use Rattle.sync_list.specs.Broken.{Lists, IsUnlistedAt, IsUnlistedSync, AtSection, BrokenAt};
ghost use Rattle.sync_list.specs.Breaches.{rule_of, Breaks};
ghost use Rattle.sync_list.specs.Knowing.{Knows};
ghost use Rattle.sync_list.specs.Sets.{same_pair, KeysAre};

use crate::list::{Section, SyncList};
use crate::names::{MessagePair, ProgramNames, listed};
use ipdl_base::{Finding, Place, Rule, Semantics, short_name};
use ipdl_syntax::{Entry, MessageDecl, Program};
use std::alloc::{AllocError, Global};
use std::collections::HashSet;

/// The column at which a section begins.
const FIRST: u32 = 1;

/// A rule that a section can break, by what the section does.
#[derive(Clone, Copy)]
pub enum SectionBreach {
    /// It names an async message.
    Async,
    /// It names a message that its protocol lacks.
    Absent,
    /// It has no description.
    Undescribed,
}

impl SectionBreach {
    /// Returns the rule that is broken.
    fn rule(self) -> Rule
        ensures { result ≡ rule_of self }
    {
        match self {
            SectionBreach::Async => Rule::LISTED_ASYNC,
            SectionBreach::Absent => Rule::LISTED_ABSENT,
            SectionBreach::Undescribed => Rule::NO_DESCRIPTION,
        }
    }
}

/// Returns a finding at a section of the list. The list is the file of this number.
fn at_section(file: u32, section: &Section, breach: SectionBreach) -> Finding
    ensures { result ≡ record { place = record { file = file; line = section.now.line; column = 1 }; rule = rule_of breach } }
{
    Finding {
        place: Place {
            file,
            line: section.line,
            column: FIRST,
        },
        rule: breach.rule(),
    }
}

/// Returns whether the message of the protocol of this short name is sync and not among the names
/// of the list.
fn is_unlisted(protocol: &[u8], message: &MessageDecl, names: &HashSet<MessagePair<'_>>) -> bool
    ensures { (list : List Section) → KeysAre same_pair names.now (λ pair. Lists list pair.0.now pair.1.now)
        → IsTrue result ↔ ((message.now.semantics ≡ Sync) × ¬ Lists list protocol.now message.now.name) }
{
    message.semantics == Semantics::Sync
        && !(&*names).contains(&(&*protocol, message.name.as_slice()))
}

/// Adds a finding at each sync message of the protocol of this short name that is not among the
/// names of the list.
fn add_unlisted_of(
    protocol: &[u8],
    messages: &[MessageDecl],
    names: &HashSet<MessagePair<'_>>,
    found: &mut Vec<Finding>,
) -> Result<(), AllocError>
    ensures { OnOk result ((list : List Section) → KeysAre same_pair names.now (λ pair. Lists list pair.0.now pair.1.now)
        → Adds Rule.UNLISTED_SYNC (λ place. Any (IsUnlistedAt list protocol.now place) messages.now) found.old.items found.new.items) }
{
    for message in messages {
        if is_unlisted(protocol, message, names) {
            found.push(Finding {
                place: message.place,
                rule: Rule::UNLISTED_SYNC,
            })?;
        }
    }
    Ok(())
}

/// Adds a finding at each sync message of the program that has no section.
fn add_unlisted(
    alloc: Global,
    program: &[Entry],
    list: &[Section],
    found: &mut Vec<Finding>,
) -> Result<(), AllocError>
    ensures { OnOk result (Adds Rule.UNLISTED_SYNC (IsUnlistedSync program.now list.now) found.old.items found.new.items) }
{
    let names = listed(alloc, list)?;
    for entry in program {
        if let Some(protocol) = &entry.unit.protocol {
            let name = short_name(protocol.full.as_slice());
            add_unlisted_of(name, protocol.messages.as_slice(), &names, found)?;
        }
    }
    Ok(())
}

/// Returns whether the section breaks this rule of sections.
fn breaks(known: &ProgramNames, section: &Section, breach: SectionBreach) -> bool
    ensures { (program : List Entry) → Knows program known.now → IsTrue result ↔ Breaks breach program section.now }
{
    match breach {
        SectionBreach::Async => known.names_async(section),
        SectionBreach::Absent => known.names_absent(section),
        SectionBreach::Undescribed => !section.described,
    }
}

/// Adds a finding at each section that breaks this rule.
fn add_breaches(
    file: u32,
    known: &ProgramNames,
    list: &[Section],
    breach: SectionBreach,
    found: &mut Vec<Finding>,
) -> Result<(), AllocError>
    ensures { OnOk result ((program : List Entry) → Knows program known.now → file ≡ length program
        → Adds (rule_of breach) (AtSection (Breaks breach program) program list.now) found.old.items found.new.items) }
{
    for section in list {
        if breaks(known, section, breach) {
            found.push(at_section(file, section, breach))?;
        }
    }
    Ok(())
}

/// Adds the findings of the rules S1 to S4 that a program and a sync list break
/// (docs/sync_list.md), in some order. The list counts as the file after those of the program.
/// Takes time in proportion to both. Fails only if memory runs out.
pub fn add_of_list(
    alloc: Global,
    program: &Program,
    list: &SyncList,
    found: &mut Vec<Finding>,
) -> Result<(), AllocError>
    requires { length program.now ≤ 4096 }
    ensures { OnOk result (Gains (BrokenAt program.now list.now) found.old.items found.new.items) }
{
    let program = program.as_slice();
    let list = list.as_slice();
    add_unlisted(alloc, program, list, found)?;
    let file = program.len() as u32;
    let known = ProgramNames::of(alloc, program)?;
    add_breaches(file, &known, list, SectionBreach::Async, found)?;
    add_breaches(file, &known, list, SectionBreach::Absent, found)?;
    add_breaches(file, &known, list, SectionBreach::Undescribed, found)
}
