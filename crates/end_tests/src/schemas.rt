//! The program of the tests, and its schema.
ghost use Rattle.std.specs.Prelude.{◌≡◌, ◌∷◌, ◌++◌, [], pos, IfOk, OnOk};
ghost use Rattle.ipdl_base.specs.Sound.{IsSound};

use actor_tree::Tree;
use ipdl_base::{Schema, TOP_ID};
use memory_files::MemoryFiles;
use schema_of_text::schema_of;
use std::alloc::{AllocError, Global};
use std::test::Fail;

/// The id of the top actor.
pub const TOP: i32 = TOP_ID;

/// The numbers of the messages of the top protocol, which has the number 1: one with a promise and one
/// that is sync.
pub const ASK: u32 = 65538;

/// The number of the sync message.
pub const CALL: u32 = 65540;

/// The files of the one program. Its protocols are numbered by their names.
const FILES: &[(&str, &str)] = &[
    (
        "PTop.ipdl",
        "include protocol PKid;
[NestedUpTo=inside_cpow] sync protocol PTop {
  manages PKid;
both:
  async PKid();
  async Ask(nullable PKid k) returns (bool b);
parent:
  [Nested=inside_sync] sync Call(PKid k) returns (nullable PKid r);
};
",
    ),
    (
        "PKid.ipdl",
        "include protocol PTop;
protocol PKid {
  manager PTop;
both:
  async __delete__();
};
",
    ),
];

/// The files of the one program, in memory.
fn files(alloc: Global) -> Result<MemoryFiles, AllocError> {
    let mut files = Vec::new(alloc);
    for (name, text) in FILES {
        let name = String::from_str(alloc, name)?;
        files.push((name, Vec::from_slice(alloc, text.as_bytes())?))?;
    }
    Ok(MemoryFiles::new(files, Vec::new(alloc)))
}

/// The schema of the one program.
pub fn the_schema(alloc: Global) -> Result<Schema, Fail>
    ensures { IfOk result IsSound }
{
    schema_of(alloc, files(alloc)?, "PTop.ipdl")
}

/// Adds an actor of the protocol 0 below the top one.
pub fn insert_kid(tree: &mut Tree) -> Result<(), AllocError>
    ensures { OnOk result (tree.new ≡ tree.old ++ record { id = pos 6; protocol = 0; manager = pos 2147483647 } ∷ []) }
{
    match tree.insert(6, 0, TOP) {
        Ok(()) => Ok(()),
        Err(_) => Err(AllocError),
    }
}
