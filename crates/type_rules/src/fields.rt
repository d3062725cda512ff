//! The rule on repeated fields.

ghost use Rattle.std.specs.Prelude.{◌≡◌, map, IfOk, OnOk};
ghost use Rattle.std.specs.List.{Any};
ghost use Rattle.findings.specs.Adds.{Adds};
ghost use Rattle.findings.specs.Repeats.{IsRepeatedAt};
ghost use Rattle.type_rules.specs.Declarations.{IsRepeatedField};
ghost use Rattle.type_rules.specs.Steps.{name_place, HasRepeatedField};

use findings::{NamePlace, add_repeated};
use ipdl_base::{Finding, Rule};
use ipdl_syntax::{Entry, Param, StructDecl};
use std::alloc::{AllocError, Global};

/// Returns the names of fields, with their places.
fn names_of(alloc: Global, fields: &[Param]) -> Result<Vec<NamePlace<'_>>, AllocError>
    ensures { IfOk result (λ names. map name_place names.items ≡ map (λ f. (f.name, f.place)) fields.now) }
{
    let mut names = Vec::with_capacity(alloc, fields.len())?;
    for field in fields {
        names.push((field.name.as_slice(), field.place))?;
    }
    Ok(names)
}

/// Adds a finding at each field that has the name of an earlier one of its struct.
fn add_repeated_of(
    alloc: Global,
    fields: &[Param],
    found: &mut Vec<Finding>,
) -> Result<(), AllocError>
    ensures { OnOk result (Adds Rule.REPEATED_FIELD (IsRepeatedAt (map (λ f. (f.name, f.place)) fields.now)) found.old.items found.new.items) }
{
    let names = names_of(alloc, fields)?;
    add_repeated(alloc, Rule::REPEATED_FIELD, names.as_slice(), found)
}

/// Does the same for these structs.
fn add_repeated_in(
    alloc: Global,
    structs: &[StructDecl],
    found: &mut Vec<Finding>,
) -> Result<(), AllocError>
    ensures { OnOk result (Adds Rule.REPEATED_FIELD (λ place. Any (HasRepeatedField place) structs.now) found.old.items found.new.items) }
{
    for item in structs {
        add_repeated_of(alloc, item.fields.as_slice(), found)?;
    }
    Ok(())
}

/// Adds a finding at each field of a program that has the name of an earlier one of its struct.
pub fn add_repeated_fields(
    alloc: Global,
    program: &[Entry],
    found: &mut Vec<Finding>,
) -> Result<(), AllocError>
    ensures { OnOk result (Adds Rule.REPEATED_FIELD (IsRepeatedField program.now) found.old.items found.new.items) }
{
    for entry in program {
        add_repeated_in(alloc, entry.unit.structs.as_slice(), found)?;
    }
    Ok(())
}
