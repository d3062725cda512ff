//! The program of the tests, and its schema.
ghost use Rattle.std.specs.Prelude.{IfOk};
ghost use Rattle.ipdl_base.specs.Sound.{IsSound};

use ipdl_base::Schema;
use memory_files::MemoryFiles;
use schema_of_text::schema_of;
use std::alloc::Global;
use std::test::Fail;

/// The files of the one program. Its protocols are numbered by their names, and the messages of the
/// second from 65536 on.
const FILES: &[(&str, &str)] = &[
    (
        "PTop.ipdl",
        "include protocol PKid;
[NestedUpTo=inside_cpow] sync protocol PTop {
  manages PKid;
both:
  async PKid();
  [Compress] async Ask(int32_t n) returns (bool b);
  async Tell(nullable PKid k);
parent:
  [Nested=inside_sync] sync Call() returns (bool b);
child:
  async Down();
};
",
    ),
    (
        "PKid.ipdl",
        "include protocol PTop;
protocol PKid {
  manager PTop;
both:
  async __delete__();
};
",
    ),
];

/// The schema of the one program.
pub fn the_schema(alloc: Global) -> Result<Schema, Fail>
    ensures { IfOk result IsSound }
{
    let mut files = Vec::new(alloc);
    for (name, text) in FILES {
        let name = String::from_str(alloc, name)?;
        files.push((name, Vec::from_slice(alloc, text.as_bytes())?))?;
    }
    schema_of(alloc, MemoryFiles::new(files, Vec::new(alloc)), "PTop.ipdl")
}
