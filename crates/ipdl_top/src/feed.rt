//! The command that runs one end on a file of bytes.
ghost use Rattle.std.specs.Prelude.{◌≡◌, ◌≤◌, ◌++◌, ℕ, IfOk, List, Option, codes, map, string_bytes};
ghost use Rattle.std.specs.Fmt.{decimal};
ghost use Rattle.command_words.specs.Command.{feed_course};
ghost use Rattle.end_parts.specs.PlainLines.{plain_line};
ghost use Rattle.history.specs.Text.{numbered};
ghost use Rattle.handler_script.specs.Valid.{IsValid};
ghost use Rattle.script_runs.specs.Endings.{ending_line};
ghost use Rattle.ipdl_base.specs.Sound.{IsSound};
ghost use Rattle.ipdl_base.specs.declared.files.TheConstants.{MOST_BYTES};
ghost use Rattle.value_codec.specs.Laws.{AreBytes};
ghost use Rattle.world_core.specs.Worlds.{most_events};
ghost use Rattle.ipdl_top.specs.Feed as told;
ghost use Rattle.ipdl_top.specs.Feed.{SaysFed, SaysFedOf, SaysFeed, feed_answer, feed_ending, feed_status, kept_text};
ghost use Rattle.ipdl_top.specs.Steps.{HasTop, IsHeld, IsSmall, IsSoundChecked, IsToldOf};

use crate::answer::CommandAnswer;
use crate::checked::CheckResult;
use crate::ending::spent_line;
use crate::input_file::{ByInput, InputFile, answer_by_input};
use crate::pipeline::{ByScript, WithScript, answer_by_schema};
use crate::scripts::ScriptFile;
use crate::status::Status;
use command_words::FeedOptions;
use frame_list::{FrameListFault, fault_text, frame_rule};
use handler_script::Script;
use history::push_numbered;
use ipdl_base::{FileBytes, Items, Schema, Side};
use law_statements::{decides_fallen, decides_readable, laws_want_readable_lines};
use order_statements::one_end_has_effects;
use relay_laws::{feeds_obey_alone, feeds_run_alone};
use std::alloc::{AllocError, Global};
use world_core::{FeedFault, FeedResult, feed as feed_end};

/// Returns the line of a fault: the name of the file, the place, and a word with a number.
fn numbered_line(
    alloc: Global,
    name: &str,
    at: usize,
    word: &[u8],
    number: i32,
) -> Result<Vec<u8>, AllocError>
    ensures { IfOk result (λ line. line.items ≡ name.now ++ codes ":" ++ decimal at ++ numbered word.now number ++ codes "\n") }
{
    let place = format!(in alloc; ":{at}")?;
    let mut line = Vec::from_slice(alloc, name.as_bytes())?;
    line.extend_from_slice(place.as_bytes())?;
    push_numbered(&mut line, word, number)?;
    line.extend_from_slice(b"\n")?;
    Ok(line)
}

/// Returns the line that says that the frame at a place names an actor that lives with another protocol.
fn wrong_actor_line(alloc: Global, name: &str, at: usize, id: i32) -> Result<Vec<u8>, AllocError>
    ensures { IfOk result (λ line. line.items ≡ told.kept_line name.now (FeedFault.WrongActor at id)) }
{
    numbered_line(alloc, name, at, b": wrong actor ", id)
}

/// Returns the line that says why the rest of a file of this name was not read.
fn kept_line(alloc: Global, name: &str, fault: FeedFault) -> Result<Vec<u8>, AllocError>
    ensures { IfOk result (λ line. line.items ≡ told.kept_line name.now fault) }
{
    match fault {
        FeedFault::Short(at, missing) => {
            fault_text(alloc, name.as_bytes(), &FrameListFault::Short(at, missing))
        }
        FeedFault::Bad(at, number) => {
            let fault = FrameListFault::Broken(at, frame_rule(number));
            fault_text(alloc, name.as_bytes(), &fault)
        }
        FeedFault::Stray(at, number) => numbered_line(alloc, name, at, b": stray ", number),
        FeedFault::WrongActor(at, id) => wrong_actor_line(alloc, name, at, id),
    }
}

/// Returns the line of the fault that is kept of a file of this name, or nothing.
fn kept_lines(alloc: Global, name: &str, fault: Option<FeedFault>) -> Result<Vec<u8>, AllocError>
    ensures { IfOk result (λ text. text.items ≡ kept_text name.now fault) }
{
    match fault {
        Some(fault) => kept_line(alloc, name, fault),
        None => Ok(Vec::new(alloc)),
    }
}

/// Returns how the command ends.
fn status_of(spent: bool, fault: Option<FeedFault>) -> Status
    ensures { result ≡ feed_status spent fault }
{
    if spent {
        return Status::Spent;
    }
    match fault {
        Some(_) => Status::BadFrames,
        None => Status::Done,
    }
}

/// Returns the last line, which says how the feed ended.
fn last_line(side: Side, spent: bool) -> &'static [u8]
    ensures { result.now ≡ ending_line (feed_ending side spent) }
{
    if spent {
        spent_line(side)
    } else {
        b"finished\n"
    }
}

/// Returns the answer by what the end made of the bytes of a file of this name.
fn fed_answer(
    alloc: Global,
    schema: &Schema,
    name: &str,
    side: Side,
    fed: &FeedResult,
) -> Result<CommandAnswer, AllocError>
    requires { IsSound schema.now }
    ensures { IfOk result (λ answer. answer ≡ feed_answer schema.now name.now side (map plain_line fed.now.history.lines) fed.now.fault fed.now.spent) }
{
    let mut out = fed.transcript(alloc, schema)?;
    out.extend_from_slice(last_line(side, fed.spent))?;
    let err = kept_lines(alloc, name, fed.fault)?;
    Ok(CommandAnswer {
        status: status_of(fed.spent, fed.fault),
        out: Items::from_vec(out),
        err: Items::from_vec(err),
    })
}

/// Shows that each byte is below 256.
fn are_bytes(bytes: &[u8])
    ensures { AreBytes bytes.now }
{
    let _length = bytes.len();
}

/// The end that runs on the bytes.
#[derive(Drop)]
struct FeedOfScript<'w> {
    schema: &'w Schema,
    script: &'w Script,
    options: &'w FeedOptions,
}

impl<'w> ByInput for FeedOfScript<'w> {
    ghost Ready = { λ c. IsSound c.schema.now × IsValid c.schema.now c.script.now × (c.options.now.limit ≤ most_events) };

    ghost most = { λ c. MOST_BYTES };

    ghost Says = { λ c bytes. SaysFed (feed_course c.options.now) (string_bytes c.options.now.frames) bytes c.schema.now c.script.now };

    fn by_input(self, alloc: Global, bytes: &[u8]) -> Result<CommandAnswer, AllocError> {
        feeds_obey_alone();
        feeds_run_alone();
        one_end_has_effects();
        decides_readable();
        decides_fallen();
        laws_want_readable_lines();
        are_bytes(bytes);
        let FeedOfScript {
            schema,
            script,
            options,
        } = self;
        let fed = feed_end(alloc, schema, script, options.side, options.limit, bytes)?;
        fed_answer(alloc, schema, options.frames.as_str(), options.side, &fed)
    }
}

/// One end to run on a file of bytes.
#[derive(Drop)]
struct FeedCommand<'w> {
    options: &'w FeedOptions,
    frames: &'w FileBytes,
}

impl<'w> ByScript for FeedCommand<'w> {
    ghost Ready = { λ c. (c.options.now.limit ≤ most_events) × IsSmall c.frames.now };

    ghost Says = { λ c schema script answer. (bytes : Option (List ℕ)) → IsHeld bytes c.frames.now
        → SaysFedOf (feed_course c.options.now) (string_bytes c.options.now.frames) bytes schema script answer };

    fn by_script(
        self,
        alloc: Global,
        schema: &Schema,
        script: &Script,
    ) -> Result<CommandAnswer, AllocError> {
        let FeedCommand { options, frames } = self;
        let input = InputFile {
            name: options.frames.as_str(),
            found: frames,
            fault: Status::BadFrames,
        };
        let command = FeedOfScript {
            schema,
            script,
            options,
        };
        answer_by_input(alloc, &input, command)
    }
}

/// Answers the command that runs one end on a file of bytes: the report on the files, or the rules that the script breaks, or
/// that there is no file of frames to read, or the lines of the end, how they ended, and the fault that is kept. Fails only if
/// memory runs out.
pub fn answer_feed(
    alloc: Global,
    checked: CheckResult,
    file: &str,
    options: &FeedOptions,
    text: &FileBytes,
    frames: &FileBytes,
) -> Result<CommandAnswer, AllocError>
    requires small { IsSmall text.now }
    requires frames { IsSmall frames.now }
    requires sound { IsSoundChecked checked }
    requires top { HasTop file.now checked }
    requires limit { options.now.limit ≤ most_events }
    ensures { IfOk result (λ answer. (script bytes : Option (List ℕ)) → IsHeld script text.now → IsHeld bytes frames.now
        → IsToldOf (SaysFeed (feed_course options.now) (string_bytes options.now.script) script (string_bytes options.now.frames) bytes file.now) checked answer) }
{
    let script = ScriptFile {
        file,
        name: options.script.as_str(),
        found: text,
    };
    let command = FeedCommand { options, frames };
    answer_by_schema(alloc, checked, WithScript { script, command })
}
