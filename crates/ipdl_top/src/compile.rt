//! What is found of a program and its sync list, and the command that compiles.
ghost use Rattle.std.specs.Prelude.{◌≡◌, ◌↔◌, ◌⊎◌, IfOk, IfSome};
ghost use Rattle.std.specs.List.{Contains};
ghost use Rattle.std.specs.Option.{option_copied};
ghost use Rattle.ipdl_base.specs.declared.finding.Finding.{Finding as TheFinding};
ghost use Rattle.ipdl_syntax.specs.Programs.{IsProgram, BearTheirNames};
ghost use Rattle.include_graph.specs.Load.{IsAnswer, IsGood};
ghost use Rattle.include_graph.specs.Sources.{LoadInput};
ghost use Rattle.ipdl_base.specs.Outside.{FileMap};
ghost use Rattle.ipdl_top.specs.CommandAnswer.{SaysTables};
ghost use Rattle.ipdl_top.specs.Steps.{IsChecked, IsHeld, IsListedChecked, IsLoadedChecked, IsSmall, IsSoundChecked, IsToldOf, ReportsWithList, file_count};

use crate::answer::CommandAnswer;
use crate::checked::CheckResult;
use crate::exit::keep_until_exit;
use crate::list::{SyncListFile, listed_of};
use crate::pipeline::{BySchema, answer_by_schema};
use crate::rules::{names_of, report_of, rule_checked};
use actor_tables::table_text;
use include_graph::{BrokenFiles, LoadResult};
use ipdl_base::{FileBytes, Finding, Findings, Report, Schema};
use ipdl_syntax::Program;
use std::alloc::{AllocError, Global};

/// Returns the number of the file after those that were read.
fn number_after(loaded: &LoadResult) -> u32
    requires { IsGood loaded.now }
    ensures { result ≡ file_count loaded.now }
{
    match loaded {
        LoadResult::Whole(program) => program.len() as u32,
        LoadResult::Broken(broken) => broken.names.len() as u32,
    }
}

/// Returns these findings, and the one that the list breaks, if it breaks a rule.
fn with_listed(findings: Findings, listed: &SyncListFile) -> Result<Vec<Finding>, AllocError>
    ensures { IfOk result (λ found. (f : TheFinding) → Contains found.items f ↔ (Contains findings f ⊎ (listed.now ≡ SyncListFile.Broken f))) }
{
    let mut found = findings.into_vec();
    if let SyncListFile::Broken(finding) = listed {
        found.push(*finding)?;
    }
    Ok(found)
}

/// Returns the report on files that break rules by how they are read and named, and on the list after them.
fn files_report(
    alloc: Global,
    files: BrokenFiles,
    listed: &SyncListFile,
    list: Option<&str>,
) -> Result<Report, AllocError>
    ensures { IfOk result (ReportsWithList files listed.now (option_copied list.entry)) }
{
    let BrokenFiles { findings, names } = files;
    let found = with_listed(findings, listed)?;
    report_of(alloc, found, names.into_vec(), list)
}

/// Checks a program, by what was found of its list.
fn program_checked(
    alloc: Global,
    program: &Program,
    listed: &SyncListFile,
    list: Option<&str>,
) -> Result<CheckResult, AllocError>
    requires program { IsProgram program.now }
    requires named { BearTheirNames program.now }
    ensures { IfOk result (IsListedChecked program.now listed.now (option_copied list.entry)) }
{
    match listed {
        SyncListFile::Sections(sections) => {
            rule_checked(alloc, program, sections.as_ref(), list)
        }
        SyncListFile::Broken(finding) => {
            let found = Vec::from_slice(alloc, &[*finding])?;
            let names = names_of(alloc, program.as_slice())?;
            Ok(CheckResult::Broken(report_of(alloc, found, names, list)?))
        }
    }
}

/// Checks what was loaded, by what was found of the list after its files.
fn loaded_checked(
    alloc: Global,
    loaded: LoadResult,
    listed: &SyncListFile,
    list: Option<&str>,
) -> Result<CheckResult, AllocError>
    requires { IsGood loaded }
    ensures { IfOk result (IsLoadedChecked loaded listed.now (option_copied list.entry)) }
{
    match loaded {
        LoadResult::Whole(program) => {
            let found = program_checked(alloc, &program, listed, list);
            keep_until_exit(program);
            found
        }
        LoadResult::Broken(files) => {
            Ok(CheckResult::Broken(files_report(alloc, files, listed, list)?))
        }
    }
}

/// Checks what was loaded, and the sync list, if one is named, by what was found of it.
pub fn checked_of(
    alloc: Global,
    loaded: LoadResult,
    list: Option<&str>,
    found: &FileBytes,
) -> Result<CheckResult, AllocError>
    requires good { IsGood loaded }
    requires small { IsSmall found.now }
    ensures { IfOk result (λ checked. (given : LoadInput) (lists : FileMap) → IsAnswer given loaded
        → IfSome (option_copied list.entry) (λ name. IsHeld (lists name) found.now) → IsChecked given lists (option_copied list.entry) checked) }
{
    let listed = listed_of(alloc, list, found, number_after(&loaded))?;
    loaded_checked(alloc, loaded, &listed, list)
}

/// The tables of a schema.
#[derive(Drop)]
struct CompileCommand;

impl BySchema for CompileCommand {
    ghost Ready = { λ c. Unit {0} };

    ghost Fits = { λ c schema. Unit {0} };

    ghost Says = { λ c schema. SaysTables schema };

    fn by_schema(self, alloc: Global, schema: &Schema) -> Result<CommandAnswer, AllocError> {
        let text = table_text(alloc, schema)?;
        Ok(CommandAnswer::of_table(alloc, text))
    }
}

/// Answers the command that compiles: the report on the files, or the tables of the schema. Fails only if memory runs out.
pub fn answer_compile(alloc: Global, checked: CheckResult) -> Result<CommandAnswer, AllocError>
    requires { IsSoundChecked checked }
    ensures { IfOk result (IsToldOf SaysTables checked) }
{
    answer_by_schema(alloc, checked, CompileCommand)
}
