//! Finds the least values of types and the protocols that can be built.
ghost use Rattle.std.specs.Prelude.{◌≡◌, ◌<◌, ◌↔◌, IfOk, length, true};
ghost use Rattle.ipdl_base.specs.Sound.{IsSound};
ghost use Rattle.wait_report.specs.Least as least;

use crate::least::TOO_MANY;
use crate::spread::{Users, spread};
use ipdl_base::Schema;
use std::alloc::{AllocError, Global};

/// What is known of a schema's types and protocols.
#[derive(Drop)]
pub struct LeastValues {
    /// The bytes of the least value of each struct and union, or `TOO_MANY`.
    pub types: Vec<usize>,
    /// Whether each protocol can be built.
    pub built: Vec<bool>,
}

/// Returns all that can be known of a schema with this top protocol. A type or a message is looked at again
/// when more is known of what it refers to. This takes time in proportion to the schema and to the number of
/// times that a type gets a lesser value, at most 1,024. The last look at the whole schema finds nothing
/// more, which shows that nothing is left out. Fails only if memory runs out.
pub fn known_of(alloc: Global, schema: &Schema, top: u32) -> Result<LeastValues, AllocError>
    requires sound { IsSound schema.now }
    requires there { top < length schema.now.protocols }
    ensures { IfOk result (λ known. least.IsKnown schema.now top known.types.items known.built.items) }
{
    let mut types = Vec::from_elem(alloc, TOO_MANY, schema.types.len())?;
    let mut built = Vec::from_elem(alloc, false, schema.protocols.len())?;
    built[top as usize] = true;
    let users = Users::of(alloc, schema)?;
    while spread(alloc, schema, &users, &mut types, &mut built)? {}
    Ok(LeastValues { types, built })
}
