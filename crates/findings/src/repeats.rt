//! Adds findings at repeated names.

ghost use Rattle.std.specs.Prelude.{◌≡◌, map, OnOk};
ghost use Rattle.std.specs.List.{list_any};
ghost use Rattle.std.specs.Str.{bytes_eq};
ghost use Rattle.findings.specs.Adds.{Adds};
ghost use Rattle.findings.specs.Repeats.{IsRepeatedAt};

use ipdl_base::{Finding, Place, Rule};
use std::alloc::{AllocError, Global};
use std::collections::HashSet;

/// A name and its place.
pub type NamePlace<'n> = (&'n [u8], Place);

/// The most names that are compared each with all before it. If there are more, they go into a set.
const FEW: usize = 8;

/// Returns whether one of these names is the same as the other.
fn is_among(names: &[NamePlace<'_>], other: &[u8]) -> bool
    ensures { result ≡ list_any (λ n. bytes_eq other.now n.0.now) names.now }
{
    names.iter().any(|(name, _)| other == *name)
}

/// Adds a finding at each name that is earlier in the list too. Takes memory for the findings alone.
fn add_repeated_few(
    rule: Rule,
    names: &[NamePlace<'_>],
    found: &mut Vec<Finding>,
) -> Result<(), AllocError>
    ensures { OnOk result (Adds rule (IsRepeatedAt (map (λ n. (n.0.now, n.1)) names.now)) found.old.items found.new.items) }
{
    for (i, (name, place)) in names.iter().enumerate() {
        if is_among(&names[..i], name) {
            found.push(Finding {
                place: *place,
                rule,
            })?;
        }
    }
    Ok(())
}

/// Does the same with a set of the names so far.
fn add_repeated_many(
    alloc: Global,
    rule: Rule,
    names: &[NamePlace<'_>],
    found: &mut Vec<Finding>,
) -> Result<(), AllocError>
    ensures { OnOk result (Adds rule (IsRepeatedAt (map (λ n. (n.0.now, n.1)) names.now)) found.old.items found.new.items) }
{
    let mut seen = HashSet::with_capacity(alloc, names.len())?;
    for (name, place) in names {
        if !seen.insert(*name)? {
            found.push(Finding {
                place: *place,
                rule,
            })?;
        }
    }
    Ok(())
}

/// Adds a finding of this rule at each name that is earlier in the list too. Takes time in
/// proportion to the list. Fails only if memory runs out.
pub fn add_repeated(
    alloc: Global,
    rule: Rule,
    names: &[NamePlace<'_>],
    found: &mut Vec<Finding>,
) -> Result<(), AllocError>
    ensures { OnOk result (Adds rule (IsRepeatedAt (map (λ n. (n.0.now, n.1)) names.now)) found.old.items found.new.items) }
{
    if names.len() <= FEW {
        add_repeated_few(rule, names, found)
    } else {
        add_repeated_many(alloc, rule, names, found)
    }
}
