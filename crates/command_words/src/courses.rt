//! How runs, feeds and relays go: the values of `--schedule`, `--limit` and `--die`.
ghost use Rattle.std.specs.Prelude.{◌≡◌, ◌≤◌, ◌++◌, ℕ, List, Option, None, IfErr, IfOk, IfSome, codes, map, option_map};
ghost use Rattle.ipdl_base.specs.declared.kinds.Side.{Side as EndSide};
ghost use Rattle.schedules.specs.declared.stop.Stop.{Stop as Death};
ghost use Rattle.schedules.specs.declared.turn.Turn.{Turn as OneTurn};
ghost use Rattle.command_words.specs.RunOptions.{IsDeath, IsLimit, IsNumber, IsSchedule, IsStopOf, IsWordOf, letter_of, word_of};

use crate::WordsFault;
use crate::numbers::number_of;
use ipdl_base::Side;
use schedules::{Stop, Turn};
use std::alloc::Global;

/// The most letters of a word of turns.
const MOST_LETTERS: usize = 40_000;

/// The most events of a side without `--limit`.
const USUAL_LIMIT: u32 = 10_000;

/// The most events that `--limit` and `--die` may give.
const MOST_EVENTS: u32 = 20_000;

/// Returns the turn of a letter, or `None`.
fn turn_of(letter: u8) -> Option<Turn>
    ensures turn { IfSome result (λ turn. letter_of turn ≡ letter) }
    ensures none { result ≡ None → (turn : OneTurn) → ¬ (letter_of turn ≡ letter) }
{
    let (side, only_deliver) = match letter {
        b'P' => (Side::Parent, false),
        b'C' => (Side::Child, false),
        b'p' => (Side::Parent, true),
        b'c' => (Side::Child, true),
        _ => return None,
    };
    Some(Turn { side, only_deliver })
}

/// Returns the turns of letters. The fault is `Usage` if a letter is not a turn.
fn turns_of(alloc: Global, letters: &[u8]) -> Result<Vec<Turn>, WordsFault>
    ensures turns { IfOk result (λ turns. letters.now ≡ map letter_of turns.items) }
    ensures usage { IfErr result (λ fault. fault ≡ WordsFault.Usage → (turns : List OneTurn) → ¬ (letters.now ≡ map letter_of turns)) }
{
    let mut turns = Vec::with_capacity(alloc, letters.len())?;
    for letter in letters {
        let Some(turn) = turn_of(*letter) else {
            return Err(WordsFault::Usage);
        };
        turns.push(turn)?;
    }
    Ok(turns)
}

/// Returns the turns of the value of `--schedule`, if it is given. The fault is `Usage` if the value is not a word of turns.
pub fn schedule_of(alloc: Global, word: Option<&str>) -> Result<Option<Vec<Turn>>, WordsFault>
    ensures schedule { IfOk result (λ schedule. IsSchedule (option_map (λ w. w.now) word.entry) (option_map (λ turns. turns.items) schedule)) }
    ensures usage { IfErr result (λ fault. fault ≡ WordsFault.Usage → (schedule : Option (List OneTurn))
        → ¬ IsSchedule (option_map (λ w. w.now) word.entry) schedule) }
{
    let Some(word) = word else {
        return Ok(None);
    };
    if word.len() > MOST_LETTERS {
        return Err(WordsFault::Usage);
    }
    Ok(Some(turns_of(alloc, word.as_bytes())?))
}

/// Returns the most events of a side, by the value of `--limit`. The fault is `Usage` if the value is not from 1 to 20,000.
pub fn limit_of(text: Option<&str>) -> Result<u32, WordsFault>
    ensures limit { IfOk result (IsLimit (option_map (λ t. t.now) text.entry)) }
    ensures usage { IfErr result (λ fault. (limit : ℕ) → ¬ IsLimit (option_map (λ t. t.now) text.entry) limit) }
{
    let Some(text) = text else {
        return Ok(USUAL_LIMIT);
    };
    match number_of(text) {
        Some(limit) if limit >= 1 && limit <= MOST_EVENTS => Ok(limit),
        _ => Err(WordsFault::Usage),
    }
}

/// Returns the death of a side after this number of events, or `None`.
fn stop_at(side: Side, number: &str) -> Option<Stop>
    ensures stop { IfSome result (IsStopOf (word_of side ++ (codes ":" ++ number.now))) }
    ensures none { result ≡ None → (n : ℕ) → IsNumber number.now n → ¬ (n ≤ 20000) }
{
    let after = number_of(number)?;
    if after > MOST_EVENTS {
        return None;
    }
    Some(Stop { side, after })
}

/// Returns the death that a text gives, or `None`.
fn stop_in(text: &str) -> Option<Stop>
    ensures stop { IfSome result (IsStopOf text.now) }
    ensures none { result ≡ None → (stop : Death) → ¬ IsStopOf text.now stop }
{
    if let Some(number) = text.strip_prefix("parent:") {
        return stop_at(Side::Parent, number);
    }
    stop_at(Side::Child, text.strip_prefix("child:")?)
}

/// Returns the death of an end, by the value of `--die`. The fault is `Usage` if the value is not a death.
pub fn death_of(text: Option<&str>) -> Result<Option<Stop>, WordsFault>
    ensures death { IfOk result (IsDeath (option_map (λ t. t.now) text.entry)) }
    ensures usage { IfErr result (λ fault. (death : Option Death) → ¬ IsDeath (option_map (λ t. t.now) text.entry) death) }
{
    let Some(text) = text else {
        return Ok(None);
    };
    match stop_in(text) {
        Some(stop) => Ok(Some(stop)),
        None => Err(WordsFault::Usage),
    }
}
