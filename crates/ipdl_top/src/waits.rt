//! The command that lists what may interrupt a wait.
ghost use Rattle.std.specs.Prelude.{◌≡◌, ◌<◌, ◌++◌, ℕ, IfOk, IfSome, MatchOption, OnOk, length};
ghost use Rattle.std.specs.List.{position};
ghost use Rattle.history.specs.Words as words;
ghost use Rattle.ipdl_base.specs.Sound.{IsSound};
ghost use Rattle.ipdl_top.specs.Steps.{HasTop, HasTopOf, IsSoundChecked, IsToldOf};
ghost use Rattle.ipdl_top.specs.Waits.{IsTop, SaysWaits, bears_name, pair_line, waits_text};

use crate::answer::CommandAnswer;
use crate::checked::CheckResult;
use crate::pipeline::{BySchema, answer_by_schema};
use history::push_message;
use ipdl_base::{PROTOCOL_ENDING, ProtocolRow, Schema, Side, key_of, short_name};
use std::alloc::{AllocError, Global};
use wait_report::{Pair, pairs};

/// Returns whether a protocol has the name of a file.
fn has_name(row: &ProtocolRow, file: &str) -> bool
    ensures { result ≡ bears_name file.now row.now }
{
    match key_of(file.as_bytes()).strip_suffix(PROTOCOL_ENDING) {
        Some(name) => short_name(row.name.as_slice()) == name,
        None => false,
    }
}

/// Returns the place of the first protocol that has the name of a file, or `None`.
fn place_of(rows: &[ProtocolRow], file: &str) -> Option<usize>
    ensures place { result ≡ position (bears_name file.now) rows.now }
    ensures bound { IfSome result (λ i. i < length rows.now) }
{
    rows.iter().position(|row| has_name(row, file))
}

/// Returns the number of the protocol of a file, which is the first that has its name, or `None`.
pub fn top_of(schema: &Schema, file: &str) -> Option<u32>
    requires { IsSound schema.now }
    ensures { MatchOption result ((top : ℕ) → ¬ IsTop file.now schema.now top) (IsTop file.now schema.now) }
{
    match place_of(schema.protocols.as_slice(), file) {
        Some(place) => Some(place as u32),
        None => None,
    }
}

/// Returns the word of a side.
fn side_word(side: Side) -> &'static [u8]
    ensures { result.now ≡ words.side_word side }
{
    match side {
        Side::Parent => b"parent",
        Side::Child => b"child",
    }
}

/// Appends the line of a pair.
fn push_pair(out: &mut Vec<u8>, schema: &Schema, pair: &Pair) -> Result<(), AllocError>
    requires { IsSound schema.now }
    ensures { OnOk result (out.new.items ≡ out.old.items ++ pair_line schema.now pair.now) }
{
    out.extend_from_slice(side_word(pair.side))?;
    out.extend_from_slice(b" waits ")?;
    push_message(out, schema, pair.waits)?;
    out.extend_from_slice(b" takes ")?;
    push_message(out, schema, pair.takes)?;
    out.extend_from_slice(b"\n")
}

/// Returns a line for each pair.
fn text_of_pairs(alloc: Global, schema: &Schema, pairs: &[Pair]) -> Result<Vec<u8>, AllocError>
    requires { IsSound schema.now }
    ensures { IfOk result (λ text. text.items ≡ waits_text schema.now pairs.now) }
{
    let mut out = Vec::new(alloc);
    for pair in pairs {
        push_pair(&mut out, schema, pair)?;
    }
    Ok(out)
}

/// What may interrupt the waits of the protocol of a file.
#[derive(Drop)]
struct WaitsCommand<'w> {
    file: &'w str,
}

impl<'w> BySchema for WaitsCommand<'w> {
    ghost Ready = { λ c. Unit {0} };

    ghost Fits = { λ c schema. HasTopOf c.file.now schema };

    ghost Says = { λ c schema. SaysWaits c.file.now schema };

    fn by_schema(self, alloc: Global, schema: &Schema) -> Result<CommandAnswer, AllocError> {
        let Some(top) = top_of(schema, self.file) else {
            unreachable!();
        };
        let found = pairs(alloc, schema, top)?;
        let text = text_of_pairs(alloc, schema, found.as_slice())?;
        Ok(CommandAnswer::of_table(alloc, text))
    }
}

/// Answers the command that lists what may interrupt a wait: the report on the files, or the lines of the pairs. Fails only if
/// memory runs out.
pub fn answer_waits(
    alloc: Global,
    checked: CheckResult,
    file: &str,
) -> Result<CommandAnswer, AllocError>
    requires sound { IsSoundChecked checked }
    requires top { HasTop file.now checked }
    ensures { IfOk result (IsToldOf (SaysWaits file.now) checked) }
{
    answer_by_schema(alloc, checked, WaitsCommand { file })
}
