//! For tests: the schema of a program that is given by the texts of its files. The crates of tests above it use its sound
//! schemas; no crate of the product uses it.
#![tactic(auto)]

ghost use Rattle.std.specs.Prelude.{IfOk};
ghost use Rattle.ipdl_base.specs.Sound.{IsSound};
ghost use Rattle.ipdl_syntax.specs.Programs.{IsProgram, BearTheirNames};

use actor_tables::schema;
use file_log::RecordedFiles;
use include_graph::{LoadResult, are_file_words, load};
use ipdl_base::Schema;
use ipdl_syntax::Program;
use memory_files::MemoryFiles;
use name_table::Names;
use program_schema::add_of_protocols;
use std::alloc::Global;
use std::test::Fail;
use type_rules::add_of_types;

/// Loads the program that the file `word` reaches. Fails if it breaks a rule on files, or if memory runs out.
fn program(alloc: Global, files: MemoryFiles, word: &str) -> Result<Program, Fail>
    ensures program { IfOk result IsProgram }
    ensures names { IfOk result BearTheirNames }
{
    let words = vec![in alloc; String::from_str(alloc, word)?]?;
    let path = vec![in alloc; String::from_str(alloc, ".")?]?;
    if !are_file_words(words.as_slice()) {
        return Err("no words of files".into());
    }
    let mut files = RecordedFiles::new(files);
    match load(alloc, &mut files, words.as_slice(), path.as_slice())? {
        LoadResult::Whole(program) => Ok(program),
        LoadResult::Broken(_) => Err("a program that breaks rules on files".into()),
    }
}

/// Returns the schema of a program. Fails if the program breaks a rule, or if memory runs out.
fn clean_schema(alloc: Global, program: &Program) -> Result<Schema, Fail>
    requires program { IsProgram program.now }
    requires names { BearTheirNames program.now }
    ensures { IfOk result IsSound }
{
    let names = Names::build(alloc, program)?;
    let mut found = Vec::new(alloc);
    add_of_types(alloc, program, &names, &mut found)?;
    add_of_protocols(alloc, program, &names, &mut found)?;
    if !found.is_empty() {
        return Err("a program that breaks rules".into());
    }
    Ok(schema(alloc, program, &names)?)
}

/// Returns the schema of the program that the file `word` reaches. Fails if the program breaks a rule, if `word` does not
/// name a file of the language, or if memory runs out.
pub fn schema_of(alloc: Global, files: MemoryFiles, word: &str) -> Result<Schema, Fail>
    ensures { IfOk result IsSound }
{
    let program = program(alloc, files, word)?;
    clean_schema(alloc, &program)
}
