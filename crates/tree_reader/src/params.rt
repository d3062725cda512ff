//! Reads parameters and returns.

ghost use Rattle.std.specs.Prelude.{◌≡◌, ◌<◌, IfOk, OnOk, IfErr, [], ◌∷◌, length, codes};
ghost use Rattle.ipdl_syntax.specs.Grammar.{param, params};
ghost use Rattle.ipdl_syntax.specs.Parts.{◌⨾◌, mark};
ghost use Rattle.tree_reader.specs.Machine.{one_param, parameters, more_parameters};
ghost use Rattle.tree_reader.specs.Reading.{Turns, Stops};

use crate::attributes::attributes;
use crate::lists::fitted;
use crate::reader::TokenReader;
use crate::refusal::TreeRefusal;
use crate::symbol::Symbol;
use crate::types::type_spec;
use ipdl_base::Items;
use ipdl_syntax::{NameAt, Param, Params};
use std::alloc::Global;

/// Takes a parameter.
#[inline(always)]
fn param(alloc: Global, reader: &mut TokenReader) -> Result<Param, TreeRefusal>
    ensures read { IfOk result (λ p. param p reader.old reader.new) }
    ensures turns { OnOk result (Turns (one_param ∷ []) reader.old [] reader.new) }
    ensures stops { IfErr result (Stops (one_param ∷ []) reader.old) }
    ensures less { OnOk result (length reader.new < length reader.old) }
{
    let attributes = attributes(alloc, reader)?;
    let spec = type_spec(alloc, reader)?;
    let NameAt { name, place } = reader.word(alloc)?;
    Ok(Param {
        spec,
        name,
        place,
        attributes,
    })
}

/// Takes at least one parameter, to the `)`.
fn some_params(alloc: Global, reader: &mut TokenReader) -> Result<Params, TreeRefusal>
    ensures read { IfOk result (λ ps. (params ps ⨾ mark (codes ")")) reader.old reader.new) }
    ensures turns { OnOk result (Turns (one_param ∷ more_parameters ∷ []) reader.old [] reader.new) }
    ensures stops { IfErr result (Stops (one_param ∷ more_parameters ∷ []) reader.old) }
    ensures less { OnOk result (length reader.new < length reader.old) }
{
    let mut all = Vec::with_capacity(alloc, reader.listed(1, b',', b')'))?;
    all.push(param(alloc, reader)?)?;
    'params: while reader.skips(Symbol::Comma) {
        all.push(param(alloc, reader)?)?;
    }
    reader.take(Symbol::CloseParen)?;
    Ok(fitted(all))
}

/// Takes any number of parameters after their `(`, to their `)`.
pub(crate) fn params(alloc: Global, reader: &mut TokenReader) -> Result<Params, TreeRefusal>
    ensures read { IfOk result (λ ps. (params ps ⨾ mark (codes ")")) reader.old reader.new) }
    ensures turns { OnOk result (Turns (parameters ∷ []) reader.old [] reader.new) }
    ensures stops { IfErr result (Stops (parameters ∷ []) reader.old) }
    ensures less { OnOk result (length reader.new < length reader.old) }
{
    if reader.skips(Symbol::CloseParen) {
        Ok(Items::from_vec(Vec::new(alloc)))
    } else {
        some_params(alloc, reader)
    }
}
