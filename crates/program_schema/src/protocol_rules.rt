//! The findings of the rules on protocols, B8 to B24.
ghost use Rattle.std.specs.Prelude.{◌≡◌, ◌≤◌, length, OnOk};
ghost use Rattle.findings.specs.Gains.{Gains};
ghost use Rattle.program_schema.specs.ProtocolRules.{BrokenAt};

use ipdl_base::Finding;
use ipdl_syntax::Program;
use manager_rules::add_of_managers;
use message_rules::add_of_messages;
use name_table::Names;
use std::alloc::{AllocError, Global};

/// Adds the findings of the rules B8 to B24 that a program breaks (docs/protocols.md), in some order.
/// `names` are those of the program. Fails only if memory runs out.
pub fn add_of_protocols(
    alloc: Global,
    program: &Program,
    names: &Names<'_>,
    found: &mut Vec<Finding>,
) -> Result<(), AllocError>
    requires few { length program.now ≤ 4096 }
    requires of_program { names.now ≡ program.now }
    ensures { OnOk result (Gains (BrokenAt program.now) found.old.items found.new.items) }
{
    add_of_managers(alloc, program, names, found)?;
    add_of_messages(alloc, program, found)
}
