//! The text of a summary.

ghost use Rattle.std.specs.Prelude.{◌≡◌, ◌++◌, IfOk, OnOk};
ghost use Rattle.generated_case.specs.Summary as summary;

use crate::counts::Counts;
use std::alloc::{AllocError, Global};
use value_types::push_decimal;

/// Appends the line of a count.
fn push_count(out: &mut Vec<u8>, name: &[u8], count: usize) -> Result<(), AllocError>
    ensures { OnOk result (out.new.items ≡ out.old.items ++ summary.count_line name.now count) }
{
    out.extend_from_slice(name)?;
    out.extend_from_slice(b" ")?;
    push_decimal(out, count)?;
    out.extend_from_slice(b"\n")
}

/// Appends the line with the numbers that a case was made from.
fn push_heading(out: &mut Vec<u8>, rounds: u32, actors: u32) -> Result<(), AllocError>
    ensures { OnOk result (out.new.items ≡ out.old.items ++ summary.heading rounds actors) }
{
    out.extend_from_slice(b"gen ")?;
    push_decimal(out, rounds)?;
    out.extend_from_slice(b" actors ")?;
    push_decimal(out, actors)?;
    out.extend_from_slice(b"\n")
}

/// Appends the lines of all counts.
fn push_counts(out: &mut Vec<u8>, counts: &Counts) -> Result<(), AllocError>
    ensures { OnOk result (out.new.items ≡ out.old.items ++ summary.count_lines counts.now) }
{
    push_count(out, b"parent steps", counts.parent_steps)?;
    push_count(out, b"child steps", counts.child_steps)?;
    push_count(out, b"taken", counts.taken)?;
    push_count(out, b"dropped", counts.dropped)?;
    push_count(out, b"replaced", counts.replaced)?;
    push_count(out, b"settled", counts.settled)?;
    push_count(out, b"built", counts.built)?;
    push_count(out, b"fallen", counts.fallen)
}

/// Returns the summary of the history of a case with this number of rounds and actors (docs/gen.md).
/// Fails only if memory runs out.
pub fn summary_text(
    alloc: Global,
    rounds: u32,
    actors: u32,
    counts: &Counts,
) -> Result<Vec<u8>, AllocError>
    ensures { IfOk result (λ text. text.items ≡ summary.summary_text rounds actors counts.now) }
{
    let mut out = Vec::new(alloc);
    push_heading(&mut out, rounds, actors)?;
    push_counts(&mut out, counts)?;
    Ok(out)
}
