//! Words and files have at most one answer.
ghost use Rattle.ipdl_top.specs.Laws.{OneAnswer};

use answer_laws::{break_alike, listed_alike, schemas_alike};
use command_words::one_command;
use exploration_laws::explorations_are_one;
use feed_runs::feeds_have_one_result;
use grammar_laws::one_tree;
use ipdl_lex::one_answer;
use program_schema::one_schema;
use relay_history::relays_have_one_result;
use schema_laws::{
    choices_alike, explorations_alike, feeds_alike, frames_alike, one_list_of_frames,
    one_wait_report, picks_alike, relays_alike, scripts_alike, texts_alike, waits_alike,
};
use script_steps::words_have_one_result;
use sync_list::one_list;
use value_types::boxes_say_nothing;
use world_core::{Driver, Relay};

/// The law of the answer: with the same files, words have at most one answer, except those that run a script without a word of
/// turns. If a script runs over two queues and neither side is spent, there is no other answer. So the files and the words
/// determine the status of an answer, its text for `out` and its text for `err`.
pub fn answer_is_determined<D: Driver, Q: Relay>(driver: &D, relay: &Q)
    ensures { OneAnswer (D.Gives driver.now) (Q.Gives relay.now) }
{
    let _ = driver;
    let _ = relay;
    one_answer();
    one_tree();
    one_command();
    one_list();
    break_alike();
    listed_alike();
    schemas_alike();
    one_schema();
    boxes_say_nothing();
    frames_alike();
    one_list_of_frames();
    waits_alike();
    one_wait_report();
    picks_alike();
    texts_alike();
    scripts_alike();
    words_have_one_result();
    feeds_alike();
    feeds_have_one_result();
    choices_alike();
    relays_alike();
    relays_have_one_result();
    explorations_alike();
    explorations_are_one();
}
