//! The rules on the types that a program writes.

ghost use Rattle.std.specs.Prelude.{◌≡◌, ◌≤◌, ◌↔◌, ℕ, List, Option, Some, length, OnOk};
ghost use Rattle.ipdl_base.specs.declared.finding.Rule.{Rule as TheRule};
ghost use Rattle.ipdl_syntax.specs.declared.tree.Base.{Named};
ghost use Rattle.findings.specs.Gains.{Gains};
ghost use Rattle.name_table.specs.Finds.{Finds, Counts};
ghost use Rattle.type_rules.specs.Breaks.{Breaks, BreaksAt};
ghost use Rattle.type_rules.specs.Written.{SomeType};

use ipdl_base::{Finding, Rule};
use ipdl_syntax::{Base, Entry, TypeSpec};
use name_table::{DeclId, Found, Names};
use std::alloc::{AllocError, Global};
use written_parts::written_types;

/// Returns the rule that a name breaks by what it finds, or `None`.
fn rule_of(nullable: bool, finds: Found) -> Option<Rule>
    ensures { (program : List Entry) (file : ℕ) (name : List ℕ) (argument : Option (List ℕ)) → Counts (Finds program file name argument) finds
        → (rule : TheRule) → (result ≡ Some rule) ↔ Breaks program file nullable (Named name argument) rule }
{
    match finds {
        Found::None => Some(Rule::UNKNOWN_TYPE),
        Found::Many(_, _) => Some(Rule::AMBIGUOUS_TYPE),
        Found::One(DeclId::Protocol(_)) => None,
        Found::One(_) => {
            if nullable {
                Some(Rule::NULLABLE_NON_ACTOR)
            } else {
                None
            }
        }
    }
}

/// Returns the rule that a type breaks in a file, or `None`.
fn broken_rule(names: &Names<'_>, file: u32, spec: &TypeSpec) -> Option<Rule>
    ensures { (rule : TheRule) → (result ≡ Some rule) ↔ Breaks names.now file spec.now.nullable spec.now.base rule }
{
    match &spec.base {
        Base::Named(name, argument) => {
            rule_of(spec.nullable, names.find(file, name, argument.as_ref()))
        }
        Base::Unique(_) => {
            if spec.nullable {
                Some(Rule::NULLABLE_NON_ACTOR)
            } else {
                None
            }
        }
    }
}

/// Adds the finding of the rule that a type breaks in a file.
fn add_broken(
    names: &Names<'_>,
    file: u32,
    spec: &TypeSpec,
    found: &mut Vec<Finding>,
) -> Result<(), AllocError>
    ensures { OnOk result (Gains (λ f. BreaksAt names.now f file spec.now.nullable spec.now.base spec.now.place) found.old.items found.new.items) }
{
    if let Some(rule) = broken_rule(names, file, spec) {
        found.push(Finding {
            place: spec.place,
            rule,
        })?;
    }
    Ok(())
}

/// Adds a finding at each type of a program whose name finds nothing or two declarations, or which
/// is nullable and not an actor. Looks up each name once.
pub fn add_broken_types(
    alloc: Global,
    program: &[Entry],
    names: &Names<'_>,
    found: &mut Vec<Finding>,
) -> Result<(), AllocError>
    requires { length program.now ≤ 4096 }
    ensures { OnOk result (Gains (λ f. SomeType (BreaksAt names.now f) program.now) found.old.items found.new.items) }
{
    let types = written_types(alloc, program)?;
    for written in &types {
        add_broken(names, written.file, written.spec, found)?;
    }
    Ok(())
}
