//! The command that runs a script over two queues.
ghost use Rattle.std.specs.Prelude.{◌≡◌, ◌≤◌, ℕ, IfOk, List, Option, string_bytes};
ghost use Rattle.command_words.specs.Command.{relay_course};
ghost use Rattle.ipdl_base.specs.Sound.{IsSound};
ghost use Rattle.world_core.specs.Worlds.{most_events};
ghost use Rattle.ipdl_top.specs.Ended as told;
ghost use Rattle.ipdl_top.specs.Ended.{IsEndedAnswer};
ghost use Rattle.ipdl_top.specs.Relay.{SaysRelay, SaysRelayed, half_lines, halves_text};
ghost use Rattle.ipdl_top.specs.Steps.{HasTop, IsHeld, IsSmall, IsSoundChecked, IsToldOf};
ghost use Rattle.history.specs.Text.{transcript_text};

use crate::answer::CommandAnswer;
use crate::checked::CheckResult;
use crate::ending::ended_answer;
use crate::exit::keep_until_exit;
use crate::pipeline::{ByScript, WithScript, answer_by_schema};
use crate::scripts::ScriptFile;
use command_words::RelayOptions;
use handler_script::Script;
use history::{History, history_text};
use ipdl_base::{FileBytes, Schema};
use law_statements::{decides_fallen, decides_readable, laws_want_readable_lines};
use line_laws::texts_see_no_box;
use order_statements::{histories_are_lawful, histories_give_what_they_owe, histories_keep_order};
use progress_laws::{histories_are_weighed, still_worlds_rest};
use relay_history::{finished_relays_wait_for_nothing, relays_are_histories, relays_come_in_order};
use relay_laws::relays_obey_alone;
use script_runs::rest_of_cases_is_still;
use script_steps::choices_are_runs;
use std::alloc::{AllocError, Global};
use world_core::{Halves, Relay, RunAnswer, World};

/// Returns the text of what one end has seen.
fn half_text(alloc: Global, schema: &Schema, half: &History) -> Result<Vec<u8>, AllocError>
    requires { IsSound schema.now }
    ensures { IfOk result (λ text. text.items ≡ transcript_text schema.now (half_lines half.now)) }
{
    texts_see_no_box();
    history_text(alloc, schema, half)
}

/// Returns the text of what both ends have seen: the parent's lines, and then the child's.
fn text_of_halves(alloc: Global, schema: &Schema, halves: &Halves) -> Result<Vec<u8>, AllocError>
    requires { IsSound schema.now }
    ensures { IfOk result (λ text. text.items ≡ halves_text schema.now halves.now) }
{
    let mut text = half_text(alloc, schema, &halves.parent)?;
    let child = half_text(alloc, schema, &halves.child)?;
    text.extend_from_slice(child.as_slice())?;
    Ok(text)
}

/// Returns the answer by both halves of a relay and how it ended.
fn halves_answer(
    alloc: Global,
    schema: &Schema,
    halves: Halves,
    ending: RunAnswer,
) -> Result<CommandAnswer, AllocError>
    requires { IsSound schema.now }
    ensures { IfOk result (IsEndedAnswer (told.ended_answer (halves_text schema.now halves)) ending) }
{
    let text = text_of_halves(alloc, schema, &halves);
    keep_until_exit(halves);
    ended_answer(alloc, text?, ending)
}

/// A script to run over two queues, and the relay that runs it.
#[derive(Drop)]
struct RelayCommand<'w, Q> {
    options: &'w RelayOptions,
    relay: &'w mut Q,
}

impl<'w, Q: Relay> ByScript for RelayCommand<'w, Q> {
    ghost Ready = { λ c. (c.options.now.limit ≤ most_events) × Q.ready c.relay.now };

    ghost Says = { λ c schema script. SaysRelayed (Q.Gives c.relay.now) (relay_course c.options.now) schema script };

    fn by_script(
        self,
        alloc: Global,
        schema: &Schema,
        script: &Script,
    ) -> Result<CommandAnswer, AllocError> {
        relays_obey_alone();
        relays_come_in_order();
        relays_are_histories();
        finished_relays_wait_for_nothing();
        choices_are_runs();
        histories_are_lawful();
        histories_keep_order();
        histories_give_what_they_owe();
        rest_of_cases_is_still();
        still_worlds_rest();
        histories_are_weighed();
        decides_readable();
        decides_fallen();
        laws_want_readable_lines();
        let RelayCommand { options, relay } = self;
        let world = World::open(alloc, schema, script, options.death, options.limit)?;
        let (halves, ending) = relay.run_queues(world);
        halves_answer(alloc, schema, halves, ending)
    }
}

/// Answers the command that runs a script over two queues: the report on the files, or the rules that the script breaks, or
/// what each end has seen, and how the relay ended. Fails only if memory runs out.
pub fn answer_relay<Q: Relay>(
    alloc: Global,
    checked: CheckResult,
    file: &str,
    options: &RelayOptions,
    text: &FileBytes,
    relay: &mut Q,
) -> Result<CommandAnswer, AllocError>
    requires small { IsSmall text.now }
    requires sound { IsSoundChecked checked }
    requires top { HasTop file.now checked }
    requires limit { options.now.limit ≤ most_events }
    requires ready { Q.ready relay.old }
    ensures { IfOk result (λ answer. (bytes : Option (List ℕ)) → IsHeld bytes text.now
        → IsToldOf (SaysRelay (Q.Gives relay.old) (relay_course options.now) (string_bytes options.now.script) bytes file.now) checked answer) }
{
    let script = ScriptFile {
        file,
        name: options.script.as_str(),
        found: text,
    };
    let command = RelayCommand { options, relay };
    answer_by_schema(alloc, checked, WithScript { script, command })
}
