//! The report of what may interrupt a wait.
ghost use Rattle.std.specs.Prelude.{◌≡◌, ◌++◌, ◌<◌, IfOk, OnOk, length};
ghost use Rattle.ipdl_base.specs.Sound.{IsSound};
ghost use Rattle.wait_report.specs.Listed as listed;
ghost use Rattle.wait_report.specs.Pairs.{IsReport};

use crate::known::{LeastValues, known_of};
use crate::pair::{Pair, Pairs};
use crate::roles::{Role, numbers_of};
use ipdl_base::{Items, Schema, Side};
use std::alloc::{AllocError, Global};

/// Adds the pairs of one message whose reply is waited for.
fn add_pairs_under(
    side: Side,
    waits: u32,
    taken: &[u32],
    pairs: &mut Vec<Pair>,
) -> Result<(), AllocError>
    ensures { OnOk result (pairs.new.items ≡ pairs.old.items ++ listed.pairs_under side taken.now waits) }
{
    for takes in taken {
        pairs.push(Pair {
            side,
            waits,
            takes: *takes,
        })?;
    }
    Ok(())
}

/// Adds the pairs of the messages in `waiting` with those in `taken`.
fn add_pairs(
    side: Side,
    waiting: &[u32],
    taken: &[u32],
    pairs: &mut Vec<Pair>,
) -> Result<(), AllocError>
    ensures { OnOk result (pairs.new.items ≡ pairs.old.items ++ listed.pairs_at side waiting.now taken.now) }
{
    for waits in waiting {
        add_pairs_under(side, *waits, taken, pairs)?;
    }
    Ok(())
}

/// Adds the pairs of a side.
fn add_side(
    alloc: Global,
    schema: &Schema,
    known: &LeastValues,
    side: Side,
    pairs: &mut Vec<Pair>,
) -> Result<(), AllocError>
    ensures { OnOk result (pairs.new.items ≡ pairs.old.items ++ listed.pairs_of known.now.types.items known.now.built.items schema.now.protocols side) }
{
    let protocols = schema.protocols.as_slice();
    let waiting = numbers_of(alloc, protocols, known, Role::Waits, side)?;
    let taken = numbers_of(alloc, protocols, known, Role::Takes, side)?;
    add_pairs(side, waiting.as_slice(), taken.as_slice(), pairs)
}

/// Returns, for each sync message, the messages that may be handled while its sender waits, where `top` is
/// the top protocol. Each pair is listed once, ordered by side, then by the message that is waited for, then
/// by the other. Takes time in proportion to the schema and the pairs. Fails only if memory runs out.
pub fn pairs(alloc: Global, schema: &Schema, top: u32) -> Result<Pairs, AllocError>
    requires sound { IsSound schema.now }
    requires there { top < length schema.now.protocols }
    ensures { IfOk result (λ found. IsReport schema.now top found) }
{
    let known = known_of(alloc, schema, top)?;
    let mut pairs = Vec::new(alloc);
    add_side(alloc, schema, &known, Side::Parent, &mut pairs)?;
    add_side(alloc, schema, &known, Side::Child, &mut pairs)?;
    Ok(Items::from_vec(pairs))
}
