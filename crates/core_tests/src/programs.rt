//! The programs of the rows, and their schemas.
ghost use Rattle.std.specs.Prelude.{IfOk};
ghost use Rattle.ipdl_base.specs.Sound.{IsSound};

use history_of_text::schema_of as worked_schema_of;
use ipdl_base::Schema;
use memory_files::MemoryFiles;
use schema_of_text::schema_of as schema_of_files;
use std::alloc::{AllocError, Global};
use std::test::Fail;

/// The worked programs in which nothing may interrupt a wait, each with two messages more: one that
/// makes its sender wait, and one that is taken meanwhile. They come after the others of their
/// protocol, so that those keep their numbers. A file has its name after `@ `, and then its text.
const PROGRAMS: &str = "@ PC.ipdl
[NestedUpTo=inside_cpow] sync protocol PC {
parent:
  [Compress] async Up(int32_t n);
  [Compress=all] async Alls(int32_t n);
  async Mark();
  [Compress] async Ask(int32_t n) returns (bool b);
  [Nested=inside_cpow, Compress] async Urge(int32_t n) returns (bool b);
child:
  [Nested=inside_sync] sync Hold();
};
@ PLz.ipdl
[NestedUpTo=inside_sync] sync protocol PLz {
parent:
  [LazySend] async Lz(int32_t n);
  async Now();
  [Nested=inside_sync] sync Back();
child:
  [Nested=inside_sync] sync Hold();
};
@ PQ.ipdl
[NestedUpTo=inside_sync] sync protocol PQ {
both:
  async Get() returns (int32_t r);
parent:
  async Tell(int32_t n);
  [Nested=inside_sync] sync Back() returns (int32_t r);
child:
  [Nested=inside_sync] sync Hold() returns (int32_t r);
};
@ PR.ipdl
include protocol PK;
[NestedUpTo=inside_sync] sync protocol PR {
  manages PK;
parent:
  async PK();
  sync Count() returns (int32_t n);
child:
  [Nested=inside_sync] sync Visit(PK k) returns (nullable PK r);
};
@ PK.ipdl
include protocol PR;
protocol PK {
  manager PR or PK;
  manages PK;
parent:
  async PK();
  async Get() returns (int32_t r);
  async __delete__();
};
";

/// Appends the files of the programs.
fn push_files(alloc: Global, files: &mut Vec<(String, Vec<u8>)>) -> Result<(), AllocError> {
    for piece in PROGRAMS.split("@ ") {
        if let Some((name, text)) = piece.split_once("\n") {
            let name = String::from_str(alloc, name)?;
            files.push((name, Vec::from_slice(alloc, text.as_bytes())?))?;
        }
    }
    Ok(())
}

/// The files of the programs, in memory.
fn program_files(alloc: Global) -> Result<MemoryFiles, AllocError> {
    let mut files = Vec::new(alloc);
    push_files(alloc, &mut files)?;
    Ok(MemoryFiles::new(files, Vec::new(alloc)))
}

/// The schema of the program of a file: of one of these, or of a worked one.
pub fn schema_of(alloc: Global, word: &str) -> Result<Schema, Fail>
    ensures { IfOk result IsSound }
{
    if ["PC.ipdl", "PLz.ipdl", "PQ.ipdl", "PR.ipdl"].contains(&word) {
        schema_of_files(alloc, program_files(alloc)?, word)
    } else {
        worked_schema_of(alloc, word)
    }
}
