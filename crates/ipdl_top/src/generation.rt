//! Generated cases: their files, which are made in memory, and how they are run.
ghost use Rattle.std.specs.Prelude.{◌≡◌, ◌≤◌, ◌∷◌, [], IfOk, IsOkUnless, None, Some, map, option_map, string_bytes};
ghost use Rattle.ipdl_top.specs.FileViews.{steady};
ghost use Rattle.ipdl_top.specs.Gen.{case_course, case_files, case_path, files_of, holder_name, script_name};
ghost use Rattle.ipdl_top.specs.RunSteps.{course_of};
ghost use Rattle.ipdl_top.specs.CommandFiles.{case_named, program_named};
ghost use Rattle.ipdl_top.specs.FilesFound.{AreCaseNumbers, AreNamedFound, named_view};

use crate::command_files::NamedFiles;
use crate::reading::{FoundFiles, read_named};
use crate::rendering::Rendering;
use crate::run::RunRequest;
use file_log::RecordedFiles;
use generated_case::{GeneratedCase, generate};
use ipdl_base::{Failure, FileBytes, Files, MOST_BYTES};
use std::alloc::{AllocError, Global};

/// The name of the file of the top protocol.
const HOLDER: &str = "PGen.ipdl";

/// The name of the file of the protocol of the actors.
const LEAF: &str = "PLeaf.ipdl";

/// The name of the script.
const SCRIPT: &str = "PGen.ids";

/// The most events of a side.
const LIMIT: u32 = 20_000;

/// The files of a generated case, in memory. No read of them fails.
#[derive(Drop)]
struct CaseFiles {
    case: GeneratedCase,
}

/// Returns the text of the file of this name, or `None`.
fn text_of_file<'c>(case: &'c GeneratedCase, name: &str) -> Option<&'c str>
    ensures { option_map (λ text. text.now) result ≡ files_of case.entry.now name.now }
{
    if name == HOLDER {
        Some(case.holder.as_str())
    } else if name == LEAF {
        Some(case.leaf.as_str())
    } else if name == SCRIPT {
        Some(case.script.as_str())
    } else {
        None
    }
}

impl Files for CaseFiles {
    ghost use Rattle.ipdl_base.specs.Outside.{FileMap, HasAtMost, IsHeldWithin, Rose};
    ghost use Rattle.ipdl_top.specs.Gen.{files_of};

    ghost known = { λ files. Some (files_of files.case) };

    ghost faults = { λ files. 0 };

    fn read(&mut self, alloc: Global, name: &str, limit: usize) -> Result<FileBytes, Failure> {
        match text_of_file(&self.case, name) {
            None => Ok(FileBytes::Absent),
            Some(text) => Ok(FileBytes::of_bytes(alloc, text.as_bytes(), limit)?),
        }
    }
}

/// Makes the files of a generated case. Fails only if memory runs out.
fn case_of(alloc: Global, rounds: u32, actors: u32) -> Result<CaseFiles, AllocError>
    requires some_rounds { 1 ≤ rounds }
    requires rounds { rounds ≤ 1000 }
    requires some_actors { 1 ≤ actors }
    requires actors { actors ≤ 100 }
    ensures { IfOk result (λ files. files_of files.case ≡ case_files rounds actors) }
{
    let case = generate(alloc, rounds, actors)?;
    Ok(CaseFiles { case })
}

/// The names under which the program of a generated case is read, and its folder.
#[derive(Drop)]
struct CaseNames {
    program: Vec<String>,
    path: Vec<String>,
}

/// Returns a list of this name alone. Fails only if memory runs out.
fn list_of_one(alloc: Global, name: &str) -> Result<Vec<String>, AllocError>
    ensures { IfOk result (λ names. map string_bytes names.items ≡ name.now ∷ []) }
{
    let name = String::from_str(alloc, name)?;
    let mut names = Vec::new(alloc);
    names.push(name)?;
    Ok(names)
}

/// Returns the names of a generated case. Fails only if memory runs out.
fn case_names(alloc: Global) -> Result<CaseNames, AllocError>
    ensures program { IfOk result (λ names. map string_bytes names.program.items ≡ holder_name ∷ []) }
    ensures path { IfOk result (λ names. map string_bytes names.path.items ≡ case_path) }
{
    let program = list_of_one(alloc, HOLDER)?;
    let path = list_of_one(alloc, ".")?;
    Ok(CaseNames { program, path })
}

/// Returns what is read of a generated case.
fn named_of(names: &CaseNames) -> NamedFiles<'_>
    ensures { named_view result ≡ record (program_named None (map string_bytes names.entry.now.path.items) (map string_bytes names.entry.now.program.items)) { script = Some script_name } }
{
    NamedFiles {
        program: names.program.as_slice(),
        path: names.path.as_slice(),
        list: None,
        script: Some(SCRIPT),
        input: None,
        input_limit: MOST_BYTES,
    }
}

/// Reads the files of a generated case, by its numbers of rounds and actors (docs/gen.md).
///
/// # Errors
///
/// `Failure::NoMemory` if memory runs out.
pub fn read_case(alloc: Global, rounds: u32, actors: u32) -> Result<FoundFiles, Failure>
    requires { AreCaseNumbers rounds actors }
    ensures found { IfOk result (AreNamedFound case_named (steady (case_files rounds actors))) }
    ensures memory { IsOkUnless result Failure.NoMemory }
{
    let case = case_of(alloc, rounds, actors)?;
    let names = case_names(alloc)?;
    let mut files = RecordedFiles::new(case);
    read_named(alloc, &mut files, &named_of(&names))
}

/// Returns how a generated case is run: by an empty word of turns, and a summary of its history is printed.
pub fn case_request(rounds: u32, actors: u32) -> RunRequest<'static>
    ensures course { course_of result ≡ case_course }
    ensures script { result.script.now ≡ script_name }
    ensures file { result.file.now ≡ holder_name }
    ensures limit { result.limit ≡ 20000 }
    ensures rendering { result.rendering ≡ Rendering.Summary rounds actors }
{
    RunRequest {
        file: HOLDER,
        script: SCRIPT,
        schedule: Some(&[]),
        limit: LIMIT,
        death: None,
        rendering: Rendering::Summary(rounds, actors),
    }
}
