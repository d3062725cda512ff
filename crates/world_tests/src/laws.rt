//! Tests of all laws on a history.

ghost use Rattle.ipdl_base.specs.Sound.{IsSound};

use history::History;
use ipdl_base::Schema;
use law_checks::{Law, holds};
use std::alloc::{AllocError, Global};

/// All laws, in their order.
const LAWS: &[Law] = &[
    Law::Prefix,
    Law::Living,
    Law::Waits,
    Law::Settled,
    Law::Fallen,
];

/// How many laws there are.
pub const ALL_LAWS: u32 = 5;

/// Returns how many laws hold of a history.
pub fn lawful(alloc: Global, schema: &Schema, history: &History) -> Result<u32, AllocError>
    requires { IsSound schema.now }
{
    let mut count = 0u32;
    for law in LAWS {
        if holds(alloc, *law, schema, history)? {
            count = count.wrapping_add(1);
        }
    }
    Ok(count)
}
