//! Loads the files that the words of a command reach: gives their program, or the rules that they
//! break.
ghost use Rattle.std.specs.Prelude.{◌≡◌, ◌≤◌, Err, IfOk, List, length, map, string_bytes};
ghost use Rattle.std.specs.List.{AllByRecursion};
ghost use Rattle.ipdl_base.specs.Outside.{Rose};
ghost use Rattle.file_log.specs.Log.{EndsWithReads, ForReads};
ghost use Rattle.file_log.specs.Recorded.{files_of, reads_of};
ghost use Rattle.ipdl_syntax.specs.declared.program.Entry.{Entry};
ghost use Rattle.include_graph.specs.Keys.{AreFileWords};
ghost use Rattle.include_graph.specs.Load.{IsAnswer, IsGood};
ghost use Rattle.include_graph.specs.Reading.{IsGathered, IsOfTree, AreEntriesFrom};
ghost use Rattle.include_graph.specs.declared.loader.LoadResult.TheVariants.{Broken, Whole};
ghost use Rattle.include_graph.specs.Sources.{LoadInput};

use crate::program::{names_of, program_of};
use crate::rules::found_in;
use crate::walk::{FileSet, ReachedFile, gather};
use file_log::RecordedFiles;
use grammar_laws::{files_hold, names_hold, one_tree, places_hold};
use ipdl_base::{Failure, Files, Finding, Findings, Items, Texts};
use ipdl_lex::{one_answer, words_hold};
use ipdl_syntax::Program;
use std::alloc::{AllocError, Global};

/// The result of loading the files that a command reaches.
#[derive(Drop)]
pub enum LoadResult {
    /// The program of the files, if they break no rule on how files are read and named.
    Whole(Program),
    /// The rules that they break.
    Broken(BrokenFiles),
}

/// Files that break rules on how files are read and named.
#[derive(Drop)]
pub struct BrokenFiles {
    /// The findings, in no order.
    pub findings: Findings,
    /// The name of each file in a report, by its number.
    pub names: Texts,
}

/// Returns the program of the files that are reached. Each of them has a tree.
fn whole(alloc: Global, gathered: FileSet) -> Result<LoadResult, AllocError>
    requires size { length gathered.files.items ≡ length gathered.keys.keys }
    requires trees { AllByRecursion (λ f. IsOfTree f.source.content) gathered.files.items }
    ensures { IfOk result (λ made. (program : List Entry) × (made ≡ Whole program) × AreEntriesFrom gathered.keys.keys gathered.files.items program) }
{
    let program = program_of(alloc, gathered.keys, gathered.files)?;
    Ok(LoadResult::Whole(program))
}

/// Returns the files that are reached as broken files with these findings.
fn broken(
    alloc: Global,
    files: Vec<ReachedFile>,
    found: Vec<Finding>,
) -> Result<LoadResult, AllocError>
    ensures { IfOk result (λ made. made ≡ Broken (record { findings = found.items; names = map (λ f. f.source.text) files.items })) }
{
    let names = names_of(alloc, files)?;
    Ok(LoadResult::Broken(BrokenFiles {
        findings: Items::from_vec(found),
        names,
    }))
}

/// Returns the result of loading the files that are reached.
fn result_of(alloc: Global, gathered: FileSet) -> Result<LoadResult, AllocError>
    requires { (given : LoadInput) × IsGathered given gathered.words gathered.keys.keys gathered.files.items }
    ensures answer { IfOk result (λ made. (given : LoadInput) → IsGathered given gathered.words gathered.keys.keys gathered.files.items
        → IsAnswer given made) }
    ensures good { IfOk result IsGood }
{
    words_hold();
    files_hold();
    names_hold();
    places_hold();
    one_tree();
    one_answer();
    let found = found_in(
        alloc,
        gathered.words,
        gathered.keys.as_slice(),
        gathered.files.as_slice(),
    )?;
    if found.is_empty() {
        whole(alloc, gathered)
    } else {
        broken(alloc, gathered.files, found)
    }
}

/// Loads the files that the names reach, and searches for them in the directories of the path
/// (docs/reach.md).
///
/// The result is `LoadResult::Broken` exactly if the files break a rule. It has the findings, in no
/// order, and for each file of the reach the name under which it was read, or its key if there is
/// no such file. No name is read twice, and a directory that is in the path twice is searched once.
///
/// # Errors
///
/// `Failure::ReadFault` if a read failed (nothing is read after it), and `Failure::NoMemory` if
/// memory ran out.
pub fn load<F: Files>(
    alloc: Global,
    files: &mut RecordedFiles<F>,
    names: &[String],
    path: &[String],
) -> Result<LoadResult, Failure>
    requires { AreFileWords (map string_bytes names.now) }

    // For every map of files that agrees with the reads of this call (some map does): the program
    // of the reach if no rule is broken, or else the broken rules.
    ensures reads { IfOk result (λ made. ForReads (F.known (files_of files.old)) (reads_of files.old) (reads_of files.new)
        (λ files'. IsAnswer (record { files = files'; words = map string_bytes names.now; path = map string_bytes path.now }) made)) }

    // A loaded program is as the definition of programs requires, and broken files are at most 4,096.
    ensures good { IfOk result IsGood }

    // The call ends with a read fault exactly if a read failed, and then nothing is read after it.
    ensures ended { EndsWithReads result (reads_of files.old) (reads_of files.new) }

    // The map of the files stays the same, and only a failed read gives a fault.
    ensures told { F.known (files_of files.new) ≡ F.known (files_of files.old) }
    ensures count { F.faults (files_of files.old) ≤ F.faults (files_of files.new) }
    ensures read_fault { result ≡ Err Failure.ReadFault → Rose (F.faults (files_of files.old)) (F.faults (files_of files.new)) }
{
    let gathered = gather(alloc, files, names, path)?;
    Ok(result_of(alloc, gathered)?)
}
