//! The rule on attributes.

ghost use Rattle.std.specs.Prelude.{◌≡◌, ◌⊎◌, ◌↔◌, map, IfOk, OnOk, IsTrue};
ghost use Rattle.std.specs.Option.{option_copied};
ghost use Rattle.findings.specs.Adds.{Adds};
ghost use Rattle.type_rules.specs.Attributes.{IsListedLevel, IsListedCompress, IsUnlistedOf, HasRepeat, HasUnlisted, IsBadAttribute};
ghost use Rattle.type_rules.specs.Steps.{name_place};

use findings::{NamePlace, add_repeated};
use ipdl_base::{Finding, Name, Rule};
use ipdl_syntax::{Attribute, Entry};
use std::alloc::{AllocError, Global};
use written_parts::{AttributeList, Bearer, attribute_lists};

/// Returns the names of attributes, with their places.
fn names_of(alloc: Global, attributes: &[Attribute]) -> Result<Vec<NamePlace<'_>>, AllocError>
    ensures { IfOk result (λ names. map name_place names.items ≡ map (λ a. (a.name, a.place)) attributes.now) }
{
    let mut names = Vec::new(alloc);
    for attribute in attributes {
        names.push((attribute.name.as_slice(), attribute.place))?;
    }
    Ok(names)
}

/// Adds a finding at each attribute that has the name of an earlier one of its list.
fn add_repeated_of(
    alloc: Global,
    attributes: &[Attribute],
    found: &mut Vec<Finding>,
) -> Result<(), AllocError>
    ensures { OnOk result (Adds Rule.BAD_ATTRIBUTE (λ place. HasRepeat place attributes.now) found.old.items found.new.items) }
{
    let names = names_of(alloc, attributes)?;
    add_repeated(alloc, Rule::BAD_ATTRIBUTE, names.as_slice(), found)
}

/// Returns whether a value is one of those of `Nested` and `NestedUpTo`.
fn is_listed_level(value: Option<&Name>) -> bool
    ensures { IsTrue result ↔ IsListedLevel (option_copied value.entry) }
{
    let Some(value) = value else {
        return false;
    };
    let value = value.as_slice();
    value == b"not".as_slice()
        || value == b"inside_sync".as_slice()
        || value == b"inside_cpow".as_slice()
}

/// Returns whether a value is one of those of `Compress`.
fn is_listed_compress(value: Option<&Name>) -> bool
    ensures { IsTrue result ↔ IsListedCompress (option_copied value.entry) }
{
    match value {
        None => true,
        Some(value) => value.as_slice() == b"all".as_slice(),
    }
}

/// Returns whether an attribute has an effect on its bearer, and no listed value.
fn is_unlisted(bearer: Bearer, attribute: &Attribute) -> bool
    ensures { IsTrue result ↔ IsUnlistedOf bearer attribute.now }
{
    let name = attribute.name.as_slice();
    let value = attribute.value.as_ref();
    match bearer {
        Bearer::Message => {
            if name == b"Nested".as_slice() {
                !is_listed_level(value)
            } else {
                name == b"Compress".as_slice() && !is_listed_compress(value)
            }
        }
        Bearer::Protocol => name == b"NestedUpTo".as_slice() && !is_listed_level(value),
        Bearer::Using | Bearer::Struct | Bearer::Union | Bearer::Parameter => false,
    }
}

/// Adds a finding at each attribute that has an effect on its bearer, and no listed value.
fn add_unlisted_of(
    bearer: Bearer,
    attributes: &[Attribute],
    found: &mut Vec<Finding>,
) -> Result<(), AllocError>
    ensures { OnOk result (Adds Rule.BAD_ATTRIBUTE (λ place. HasUnlisted place bearer attributes.now) found.old.items found.new.items) }
{
    for attribute in attributes {
        if is_unlisted(bearer, attribute) {
            found.push(Finding {
                place: attribute.place,
                rule: Rule::BAD_ATTRIBUTE,
            })?;
        }
    }
    Ok(())
}

/// Adds the findings of a list of attributes.
fn add_bad_of(
    alloc: Global,
    list: &AttributeList<'_>,
    found: &mut Vec<Finding>,
) -> Result<(), AllocError>
    ensures { OnOk result (Adds Rule.BAD_ATTRIBUTE
        (λ place. HasRepeat place list.now.attributes.now ⊎ HasUnlisted place list.now.bearer list.now.attributes.now) found.old.items found.new.items) }
{
    add_repeated_of(alloc, list.attributes, found)?;
    add_unlisted_of(list.bearer, list.attributes, found)
}

/// Adds a finding at each attribute of a program that repeats an earlier one of its list, or has an
/// effect on its bearer and no listed value.
pub fn add_bad_attributes(
    alloc: Global,
    program: &[Entry],
    found: &mut Vec<Finding>,
) -> Result<(), AllocError>
    ensures { OnOk result (Adds Rule.BAD_ATTRIBUTE (IsBadAttribute program.now) found.old.items found.new.items) }
{
    let lists = attribute_lists(alloc, program)?;
    for list in &lists {
        add_bad_of(alloc, list, found)?;
    }
    Ok(())
}
