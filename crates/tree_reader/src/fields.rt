//! Reads the fields of structs and the components of unions.

ghost use Rattle.std.specs.Prelude.{◌≡◌, ◌≢◌, ◌<◌, IfOk, OnOk, IfErr, [], ◌∷◌, length, codes};
ghost use Rattle.ipdl_syntax.specs.Grammar.{type_spec, field, fields, components};
ghost use Rattle.ipdl_syntax.specs.Parts.{◌⨾◌, mark};
ghost use Rattle.tree_reader.specs.declared.symbol.Symbol.TheVariants as symbols;
ghost use Rattle.tree_reader.specs.Ending as ending;
ghost use Rattle.tree_reader.specs.Machine.{take, typed, fielded, componented};
ghost use Rattle.tree_reader.specs.Reading.{Turns, Stops, closed};

use crate::reader::TokenReader;
use crate::refusal::TreeRefusal;
use crate::symbol::Symbol;
use crate::types::type_spec;
use ipdl_base::Items;
use ipdl_syntax::{NameAt, Param, Params, TypeSpec, TypeSpecs};
use std::alloc::Global;

/// Takes a field.
fn field(alloc: Global, reader: &mut TokenReader) -> Result<Param, TreeRefusal>
    ensures read { IfOk result (λ p. field p reader.old reader.new) }
    ensures turns { OnOk result (Turns (typed 4 ending.Name ∷ take symbols.Semicolon ∷ []) reader.old [] reader.new) }
    ensures stops { IfErr result (Stops (typed 4 ending.Name ∷ take symbols.Semicolon ∷ []) reader.old) }
    ensures less { OnOk result (length reader.new < length reader.old) }
{
    let spec = type_spec(alloc, reader)?;
    let NameAt { name, place } = reader.word(alloc)?;
    reader.take(Symbol::Semicolon)?;
    Ok(Param {
        spec,
        name,
        place,
        attributes: Items::from_vec(Vec::new(alloc)),
    })
}

/// Takes the fields of a struct after its `{`, and its end.
pub(crate) fn fields(alloc: Global, reader: &mut TokenReader) -> Result<Params, TreeRefusal>
    ensures read { IfOk result (λ fs. (fields fs ⨾ closed) reader.old reader.new) }
    ensures turns { OnOk result (Turns (fielded ∷ []) reader.old [] reader.new) }
    ensures stops { IfErr result (Stops (fielded ∷ []) reader.old) }
    ensures less { OnOk result (length reader.new < length reader.old) }
{
    let mut all = Vec::with_capacity(alloc, reader.listed(0, b';', b'}'))?;
    'fields: while !reader.skips(Symbol::CloseBrace) {
        all.push(field(alloc, reader)?)?;
    }
    reader.take(Symbol::Semicolon)?;
    Ok(Items::from_vec(all))
}

/// Takes a component.
fn component(alloc: Global, reader: &mut TokenReader) -> Result<TypeSpec, TreeRefusal>
    ensures read { IfOk result (λ c. (type_spec c ⨾ mark (codes ";")) reader.old reader.new) }
    ensures turns { OnOk result (Turns (typed 4 ending.Semicolon ∷ []) reader.old [] reader.new) }
    ensures stops { IfErr result (Stops (typed 4 ending.Semicolon ∷ []) reader.old) }
    ensures less { OnOk result (length reader.new < length reader.old) }
{
    let spec = type_spec(alloc, reader)?;
    reader.take(Symbol::Semicolon)?;
    Ok(spec)
}

/// Takes the components of a union after its `{`, at least one, and its end.
pub(crate) fn components(alloc: Global, reader: &mut TokenReader) -> Result<TypeSpecs, TreeRefusal>
    ensures read { IfOk result (λ cs. (components cs ⨾ closed) reader.old reader.new) }
    ensures some { IfOk result (λ cs. cs ≢ []) }
    ensures turns { OnOk result (Turns (typed 4 ending.Semicolon ∷ componented ∷ []) reader.old [] reader.new) }
    ensures stops { IfErr result (Stops (typed 4 ending.Semicolon ∷ componented ∷ []) reader.old) }
    ensures less { OnOk result (length reader.new < length reader.old) }
{
    let mut all = Vec::with_capacity(alloc, reader.listed(0, b';', b'}'))?;
    all.push(component(alloc, reader)?)?;
    'components: while !reader.skips(Symbol::CloseBrace) {
        all.push(component(alloc, reader)?)?;
    }
    reader.take(Symbol::Semicolon)?;
    Ok(Items::from_vec(all))
}
