//! The laws that words have exactly one answer, that turns of both sides bring every relay to an end
//! and are a relay themselves, and that words of turns drive every run.

ghost use Rattle.answer_existence.specs.Laws.{ExactlyOneAnswer, RelaysEnd, TurnsRelayAll, WordsDriveAll};

use command_existence::{asking_is_decided, words_are_decided};
use exploration_existence::explorations_exist;
use exploration_laws::{ways_are_run, ways_cover_texts};
use file_existence::{clean_files_have_programs, findings_are_listed, reaches_exist};
use ipdl_top::answer_is_determined;
use law_statements::{decides_fallen, decides_readable, laws_want_readable_lines};
use list_existence::lists_have_answers;
use order_statements::{
    histories_are_lawful, histories_give_what_they_owe, histories_keep_order, one_end_has_effects,
};
use plain_runs::relay_lines_are_plain;
use program_schema::clean_is_sound;
use progress_laws::{histories_are_weighed, still_worlds_rest};
use relay_history::{
    finished_relays_wait_for_nothing, relays_are_histories, relays_come_in_order, sides_obey_alone,
};
use relay_laws::{feeds_obey_alone, feeds_run_alone, relays_obey_alone};
use relay_runs::turns_are_relays;
use rule_existence::{
    list_findings_are_listed, manager_findings_are_listed, message_findings_are_listed,
    type_findings_are_listed,
};
use run_existence::{bytes_have_frames, texts_are_decided, wait_reports_exist, words_have_runs};
use schema_existence::clean_programs_have_schemas;
use script_existence::scripts_exist;
use script_runs::rest_of_cases_is_still;
use script_steps::choices_are_runs;
use world_core::{Driver, Relay, feeds_come_to_an_end};

/// The law of relays in turns: each comes to an end.
pub fn relays_end()
    ensures { RelaysEnd }
{
    relays_come_in_order();
}

/// The law of turns as a relay: the turns of both sides give a result for every setting, with every box
/// of the lines at one place.
pub fn turns_relay_all()
    ensures { TurnsRelayAll }
{
    relays_end();
    turns_are_relays();
    relay_lines_are_plain();
}

/// The law of words as drivers: the turns of any word give a run for every setting.
pub fn words_drive_all()
    ensures { WordsDriveAll }
{
    words_have_runs();
    rest_of_cases_is_still();
}

/// The law of the one answer: whatever the files are, all words that are texts have exactly one answer.
/// Two kinds of words leave part of it open. If they run a script without a word of turns, the answer
/// is what the driver gives, and there is one if the driver gives a run. The same is true of a relay,
/// which has one answer if no side is spent.
pub fn one_answer<D: Driver, Q: Relay>(driver: &D, relay: &Q)
    ensures { ExactlyOneAnswer (D.Gives driver.now) (Q.Gives relay.now) }
{
    answer_is_determined(driver, relay);
    words_are_decided();
    asking_is_decided();
    reaches_exist();
    findings_are_listed();
    clean_files_have_programs();
    lists_have_answers();
    type_findings_are_listed();
    manager_findings_are_listed();
    message_findings_are_listed();
    list_findings_are_listed();
    clean_programs_have_schemas();
    clean_is_sound();
    scripts_exist();
    bytes_have_frames();
    wait_reports_exist();
    words_have_runs();
    texts_are_decided();
    explorations_exist();
    ways_are_run();
    ways_cover_texts();
    feeds_come_to_an_end();
    feeds_obey_alone();
    feeds_run_alone();
    one_end_has_effects();
    decides_readable();
    decides_fallen();
    laws_want_readable_lines();
    choices_are_runs();
    histories_are_lawful();
    histories_keep_order();
    histories_give_what_they_owe();
    rest_of_cases_is_still();
    still_worlds_rest();
    histories_are_weighed();
    sides_obey_alone();
    relays_obey_alone();
    relays_come_in_order();
    relays_are_histories();
    finished_relays_wait_for_nothing();
}
