//! Adds the findings of the rules on types.

ghost use Rattle.std.specs.Prelude.{◌≡◌, ◌≤◌, length, OnOk};
ghost use Rattle.findings.specs.Gains.{Gains};
ghost use Rattle.type_rules.specs.Broken.{BrokenAt};

use crate::attributes::add_bad_attributes;
use crate::declarations::add_repeated_declarations;
use crate::fields::add_repeated_fields;
use crate::undefined::add_undefined_types;
use crate::written::add_broken_types;
use ipdl_base::Finding;
use ipdl_syntax::Program;
use name_table::Names;
use std::alloc::{AllocError, Global};

/// Adds the findings of the rules B1 to B7 that a program breaks (docs/types.md), in some order.
/// `names` is the table of the program's names. Fails only if memory runs out.
pub fn add_of_types(
    alloc: Global,
    program: &Program,
    names: &Names<'_>,
    found: &mut Vec<Finding>,
) -> Result<(), AllocError>
    requires few { length program.now ≤ 4096 }
    requires of_program { names.now ≡ program.now }
    ensures { OnOk result (Gains (BrokenAt program.now) found.old.items found.new.items) }
{
    let program = program.as_slice();
    add_broken_types(alloc, program, names, found)?;
    add_undefined_types(alloc, program, names, found)?;
    add_repeated_declarations(alloc, program, found)?;
    add_repeated_fields(alloc, program, found)?;
    add_bad_attributes(alloc, program, found)
}
