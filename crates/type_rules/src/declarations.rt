//! The rule on repeated declarations.

ghost use Rattle.std.specs.Prelude.{◌≡◌, ◌↔◌, ◌⊎◌, ℕ, Bool, List, ◌++◌, map, true, false, IfOk, OnOk, IsTrue, IsSomeAnd};
ghost use Rattle.std.specs.List.{Any};
ghost use Rattle.std.specs.Option.{option_copied};
ghost use Rattle.ipdl_base.specs.declared.finding.Place.{Place as ThePlace};
ghost use Rattle.findings.specs.Adds.{Adds};
ghost use Rattle.type_rules.specs.Declarations.{Declaration as TheDeclaration, declarations, of_protocol};
ghost use Rattle.type_rules.specs.Declarations.{Repeats, IsTypeWord, TakesTypeWord, IsRepeatedDeclaration};
ghost use Rattle.type_rules.specs.Firsts.{told, IsBefore, StandsBefore, IsEarlier, FirstsAre, IsRepeatedAmong};

use ipdl_base::{Builtin, Finding, Place, Rule, short_name};
use ipdl_syntax::{Entry, ProtocolDecl, StructDecl, UnionDecl, Unit, Using};
use std::alloc::{AllocError, Global};
use std::collections::HashMap;

/// A declaration of a file.
#[derive(Clone, Copy)]
pub struct Declaration<'p> {
    /// The full name.
    pub full: &'p [u8],
    /// The place of the name.
    pub place: Place,
    /// Whether it is a `using`.
    pub is_using: bool,
}

/// The first place of each full name, among some declarations of a file.
type Firsts<'p> = HashMap<&'p [u8], Place>;

/// Appends the usings of a file.
fn list_usings<'p>(usings: &'p [Using], all: &mut Vec<Declaration<'p>>) -> Result<(), AllocError>
    ensures { OnOk result (map told all.new.items
        ≡ map told all.old.items ++ map (λ u. record { full = u.full; place = u.place; is_using = true }) usings.now) }
{
    for item in usings {
        all.push(Declaration {
            full: item.full.as_slice(),
            place: item.place,
            is_using: true,
        })?;
    }
    Ok(())
}

/// Appends the structs of a file.
fn list_structs<'p>(
    structs: &'p [StructDecl],
    all: &mut Vec<Declaration<'p>>,
) -> Result<(), AllocError>
    ensures { OnOk result (map told all.new.items
        ≡ map told all.old.items ++ map (λ s. record { full = s.full; place = s.place; is_using = false }) structs.now) }
{
    for item in structs {
        all.push(Declaration {
            full: item.full.as_slice(),
            place: item.place,
            is_using: false,
        })?;
    }
    Ok(())
}

/// Appends the unions of a file.
fn list_unions<'p>(
    unions: &'p [UnionDecl],
    all: &mut Vec<Declaration<'p>>,
) -> Result<(), AllocError>
    ensures { OnOk result (map told all.new.items
        ≡ map told all.old.items ++ map (λ u. record { full = u.full; place = u.place; is_using = false }) unions.now) }
{
    for item in unions {
        all.push(Declaration {
            full: item.full.as_slice(),
            place: item.place,
            is_using: false,
        })?;
    }
    Ok(())
}

/// Appends the protocol of a file, if it has one.
fn list_protocol<'p>(
    protocol: Option<&'p ProtocolDecl>,
    all: &mut Vec<Declaration<'p>>,
) -> Result<(), AllocError>
    ensures { OnOk result (map told all.new.items ≡ map told all.old.items ++ of_protocol (option_copied protocol.entry)) }
{
    if let Some(protocol) = protocol {
        all.push(Declaration {
            full: protocol.full.as_slice(),
            place: protocol.place,
            is_using: false,
        })?;
    }
    Ok(())
}

/// Appends the declarations of a file.
fn list_declarations<'p>(unit: &'p Unit, all: &mut Vec<Declaration<'p>>) -> Result<(), AllocError>
    ensures { OnOk result (map told all.new.items ≡ map told all.old.items ++ declarations unit.entry.now) }
{
    list_usings(unit.usings.as_slice(), all)?;
    list_structs(unit.structs.as_slice(), all)?;
    list_unions(unit.unions.as_slice(), all)?;
    list_protocol(unit.protocol.as_ref(), all)
}

/// Returns whether one place is before another.
fn is_before(one: Place, other: Place) -> bool
    ensures { IsTrue result ↔ IsBefore one other }
{
    one < other
}

/// Returns the first of two places, or the only one.
fn first_of(place: Place, other: Option<&Place>) -> Place
    ensures { (later : ThePlace) → IsBefore result later
        ↔ (IsBefore place later ⊎ IsSomeAnd (option_copied other.entry) (λ there. IsBefore there later)) }
{
    match other {
        None => place,
        Some(there) => {
            if is_before(*there, place) {
                *there
            } else {
                place
            }
        }
    }
}

/// Records the place of a declaration if it is the first of its name.
fn note<'p>(declaration: Declaration<'p>, firsts: &mut Firsts<'p>) -> Result<(), AllocError>
    ensures { OnOk result ((name : List ℕ) (place : ThePlace) → StandsBefore firsts.new name place
        ↔ (StandsBefore firsts.old name place ⊎ ((declaration.entry.full.now ≡ name) × IsBefore declaration.entry.place place))) }
{
    let first = first_of(declaration.place, firsts.get(&declaration.full));
    firsts.insert(declaration.full, first)?;
    Ok(())
}

/// Returns whether a declaration counts. If `own` is set, usings do not count.
fn counts(own: bool, declaration: &Declaration<'_>) -> bool
    ensures { IsTrue result ↔ (IsTrue own → ¬ IsTrue declaration.now.is_using) }
{
    !own || !declaration.is_using
}

/// Returns the first place of each full name among all declarations, or among those that are not
/// usings if `own` is set.
fn firsts_of<'p>(
    alloc: Global,
    own: bool,
    all: &[Declaration<'p>],
) -> Result<Firsts<'p>, AllocError>
    ensures { IfOk result (FirstsAre own (map told all.now)) }
{
    let mut firsts = HashMap::with_capacity(alloc, all.len())?;
    for declaration in all {
        if counts(own, declaration) {
            note(*declaration, &mut firsts)?;
        }
    }
    Ok(firsts)
}

/// Returns whether the first place of a name is before this one.
fn stands_before(firsts: &Firsts<'_>, name: &[u8], place: Place) -> bool
    ensures { IsTrue result ↔ StandsBefore firsts.now name.now place }
{
    match firsts.get(&name) {
        Some(first) => is_before(*first, place),
        None => false,
    }
}

/// Returns whether a word is that of a type of the language.
fn is_type_word(word: &[u8]) -> bool
    ensures { IsTrue result ↔ IsTypeWord word.now }
{
    Builtin::from_name(word).is_some()
        || word == b"Endpoint".as_slice()
        || word == b"ManagedEndpoint".as_slice()
}

/// Returns whether a struct, a union or a protocol takes the word of a type of the language as its
/// own name.
fn takes_type_word(declaration: &Declaration<'_>) -> bool
    ensures { IsTrue result ↔ TakesTypeWord (told declaration.now) }
{
    !declaration.is_using && is_type_word(short_name(declaration.full))
}

/// Returns whether a declaration repeats an earlier one. `any` has the first places of the names of
/// all declarations, `own` those of the names of declarations that are not usings.
fn repeats(any: &Firsts<'_>, own: &Firsts<'_>, declaration: &Declaration<'_>) -> bool
    ensures { (all : List TheDeclaration) → FirstsAre false all any.now → FirstsAre true all own.now
        → IsTrue result ↔ Any (λ earlier. Repeats earlier (told declaration.now)) all }
{
    if declaration.is_using {
        stands_before(own, declaration.full, declaration.place)
    } else {
        stands_before(any, declaration.full, declaration.place)
    }
}

/// Returns whether a declaration repeats an earlier one or takes the word of a type, by the same
/// first places.
fn is_repeated(any: &Firsts<'_>, own: &Firsts<'_>, declaration: &Declaration<'_>) -> bool
    ensures { (all : List TheDeclaration) → FirstsAre false all any.now → FirstsAre true all own.now
        → IsTrue result ↔ IsRepeatedAmong all (told declaration.now) }
{
    repeats(any, own, declaration) || takes_type_word(declaration)
}

/// Adds a finding at each declaration that repeats an earlier one or takes the word of a type.
fn add_repeated_among(
    any: &Firsts<'_>,
    own: &Firsts<'_>,
    these: &[Declaration<'_>],
    found: &mut Vec<Finding>,
) -> Result<(), AllocError>
    ensures { OnOk result ((all : List TheDeclaration) → FirstsAre false all any.now → FirstsAre true all own.now
        → Adds Rule.REPEATED_DECLARATION (λ place. Any (λ d. IsRepeatedAmong all (told d) × (d.place ≡ place)) these.now)
        found.old.items found.new.items) }
{
    for declaration in these {
        if is_repeated(any, own, declaration) {
            found.push(Finding {
                place: declaration.place,
                rule: Rule::REPEATED_DECLARATION,
            })?;
        }
    }
    Ok(())
}

/// Does the same for these declarations, which are those of a file.
fn add_repeated_of(
    alloc: Global,
    all: &[Declaration<'_>],
    found: &mut Vec<Finding>,
) -> Result<(), AllocError>
    ensures { OnOk result (Adds Rule.REPEATED_DECLARATION
        (λ place. Any (λ d. IsRepeatedAmong (map told all.now) (told d) × (d.place ≡ place)) all.now) found.old.items found.new.items) }
{
    let any = firsts_of(alloc, false, all)?;
    let own = firsts_of(alloc, true, all)?;
    add_repeated_among(&any, &own, all, found)
}

/// Does the same for a file.
fn add_repeated_in(alloc: Global, unit: &Unit, found: &mut Vec<Finding>) -> Result<(), AllocError>
    ensures { OnOk result (Adds Rule.REPEATED_DECLARATION
        (λ place. Any (λ d. IsRepeatedAmong (declarations unit.now) d × (d.place ≡ place)) (declarations unit.now)) found.old.items found.new.items) }
{
    let mut all = Vec::new(alloc);
    list_declarations(unit, &mut all)?;
    add_repeated_of(alloc, all.as_slice(), found)
}

/// Adds a finding at each declaration of a program that repeats an earlier one of its file or takes
/// the word of a type.
pub fn add_repeated_declarations(
    alloc: Global,
    program: &[Entry],
    found: &mut Vec<Finding>,
) -> Result<(), AllocError>
    ensures { OnOk result (Adds Rule.REPEATED_DECLARATION (IsRepeatedDeclaration program.now) found.old.items found.new.items) }
{
    for entry in program {
        add_repeated_in(alloc, &entry.unit, found)?;
    }
    Ok(())
}
