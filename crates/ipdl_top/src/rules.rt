//! The rules of the language, for a program and its sync list.
ghost use Rattle.std.specs.Prelude.{◌≤◌, ◌↔◌, ◌≡◌, IfOk, length};
ghost use Rattle.std.specs.List.{Contains};
ghost use Rattle.std.specs.Option.{option_copied};
ghost use Rattle.ipdl_base.specs.declared.finding.Finding.{Finding};
ghost use Rattle.ipdl_syntax.specs.Programs.{IsProgram, BearTheirNames};
ghost use Rattle.ipdl_top.specs.CommandAnswer.{BreaksRules};
ghost use Rattle.ipdl_top.specs.Steps.{IsRuleChecked, Reports, names_of as the_names_of};

use crate::checked::CheckResult;
use actor_tables::schema;
use findings::sort_findings;
use ipdl_base::{Finding, Items, Name, Report};
use ipdl_syntax::{Entry, Program};
use name_table::Names;
use program_schema::add_of_protocols;
use std::alloc::{AllocError, Global};
use sync_list::{SyncList, add_of_list};
use type_rules::add_of_types;

/// Returns all findings of a program, and of its sync list if it has one, in some order. Fails only if memory runs out.
fn gathered(
    alloc: Global,
    program: &Program,
    names: &Names<'_>,
    list: Option<&SyncList>,
) -> Result<Vec<Finding>, AllocError>
    requires few { length program.now ≤ 4096 }
    requires of_program { names.now ≡ program.now }
    ensures { IfOk result (λ found. (f : Finding) → Contains found.items f ↔ BreaksRules program.now (option_copied list.entry) f) }
{
    let mut found = Vec::new(alloc);
    add_of_types(alloc, program, names, &mut found)?;
    add_of_protocols(alloc, program, names, &mut found)?;
    if let Some(list) = list {
        add_of_list(alloc, program, list, &mut found)?;
    }
    Ok(found)
}

/// Returns the names by which a report calls the files of a program. Fails only if memory runs out.
pub fn names_of(alloc: Global, program: &[Entry]) -> Result<Vec<Name>, AllocError>
    ensures { IfOk result (λ names. names.items ≡ the_names_of program.now) }
{
    let mut names = Vec::new(alloc);
    for entry in program {
        names.push(entry.name.copy(alloc)?)?;
    }
    Ok(names)
}

/// Returns the report of these findings, on files of these names and on the list after them. Fails only if memory runs out.
pub fn report_of(
    alloc: Global,
    found: Vec<Finding>,
    names: Vec<Name>,
    list: Option<&str>,
) -> Result<Report, AllocError>
    ensures { IfOk result (Reports (Contains found.items) names.items (option_copied list.entry)) }
{
    let mut names = names;
    if let Some(name) = list {
        names.push(Name::from_slice(alloc, name.as_bytes())?)?;
    }
    Ok(Report {
        findings: sort_findings(found),
        names: Items::from_vec(names),
    })
}

/// Checks a program by the rules of the language, and by those of its sync list if it has one. Fails only if memory runs out.
pub fn rule_checked(
    alloc: Global,
    program: &Program,
    sections: Option<&SyncList>,
    list: Option<&str>,
) -> Result<CheckResult, AllocError>
    requires program { IsProgram program.now }
    requires named { BearTheirNames program.now }
    ensures { IfOk result (IsRuleChecked program.now (option_copied sections.entry) (option_copied list.entry)) }
{
    let names = Names::build(alloc, program)?;
    let checked = checked_with(alloc, program, &names, sections, list);
    drop(names);
    checked
}

/// Checks a program by the rules, with its table of names. Fails only if memory runs out.
fn checked_with(
    alloc: Global,
    program: &Program,
    names: &Names<'_>,
    sections: Option<&SyncList>,
    list: Option<&str>,
) -> Result<CheckResult, AllocError>
    requires program { IsProgram program.now }
    requires named { BearTheirNames program.now }
    requires of_program { names.now ≡ program.now }
    ensures { IfOk result (IsRuleChecked program.now (option_copied sections.entry) (option_copied list.entry)) }
{
    let found = gathered(alloc, program, names, sections)?;
    if found.is_empty() {
        Ok(CheckResult::Clean(schema(alloc, program, names)?))
    } else {
        let called = names_of(alloc, program.as_slice())?;
        Ok(CheckResult::Broken(report_of(alloc, found, called, list)?))
    }
}
