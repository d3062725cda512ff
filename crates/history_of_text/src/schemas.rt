//! The schemas of worked protocols.
ghost use Rattle.std.specs.Prelude.{IfOk};
ghost use Rattle.ipdl_base.specs.Sound.{IsSound};

use ipdl_base::Schema;
use std::alloc::Global;
use std::test::Fail;
use worked_runs::protocol_files;

/// Returns the schema of the worked protocol of a file, and of the protocols that it includes.
pub fn schema_of(alloc: Global, word: &str) -> Result<Schema, Fail>
    ensures { IfOk result IsSound }
{
    schema_of_text::schema_of(alloc, protocol_files(alloc)?, word)
}
