//! The rule on types that are not defined.

ghost use Rattle.std.specs.Prelude.{◌≡◌, ◌≤◌, ◌↔◌, List, length, true, Some, slice_get, map, OnOk, IsTrue};
ghost use Rattle.findings.specs.Gains.{Gains, AtSome};
ghost use Rattle.type_rules.specs.Compounds.{told, place_of};
ghost use Rattle.type_rules.specs.Defined.{IsUndefinedType};

use crate::compounds::{Compound, compounds_of};
use crate::parts::nodes_of;
use ipdl_base::{Finding, Rule};
use ipdl_syntax::Entry;
use least_fixed_points::least_fixed_point;
use name_table::Names;
use std::alloc::{AllocError, Global};

/// Returns whether the mark at an index is set.
fn is_marked(marks: &[bool], index: usize) -> bool
    ensures { IsTrue result ↔ (slice_get marks.now index ≡ Some true) }
{
    match marks.get(index) {
        Some(mark) => *mark,
        None => false,
    }
}

/// Adds a finding at each struct or union whose mark is not set.
fn add_unmarked(
    all: &[Compound<'_>],
    marks: &[bool],
    found: &mut Vec<Finding>,
) -> Result<(), AllocError>
    ensures { OnOk result (Gains
        (λ f. AtSome (λ k c. (f.rule ≡ Rule.UNDEFINED_TYPE) × (¬ (slice_get marks.now k ≡ Some true)) × (place_of (told c) ≡ f.place)) all.now)
        found.old.items found.new.items) }
{
    for (number, compound) in all.iter().enumerate() {
        if !is_marked(marks, number) {
            found.push(Finding {
                place: compound.place(),
                rule: Rule::UNDEFINED_TYPE,
            })?;
        }
    }
    Ok(())
}

/// Adds a finding at each struct or union of a program that is not defined. Takes time in proportion
/// to the program.
pub fn add_undefined_types(
    alloc: Global,
    program: &[Entry],
    names: &Names<'_>,
    found: &mut Vec<Finding>,
) -> Result<(), AllocError>
    requires few { length program.now ≤ 4096 }
    requires of_program { names.now ≡ program.now }
    ensures { OnOk result (Gains (λ f. (f.rule ≡ Rule.UNDEFINED_TYPE) × IsUndefinedType program.now f.place) found.old.items found.new.items) }
{
    let compounds = compounds_of(alloc, program)?;
    let nodes = nodes_of(alloc, names, &compounds)?;
    let marks = least_fixed_point(alloc, nodes.as_slice())?;
    add_unmarked(compounds.all.as_slice(), marks.as_slice(), found)
}
