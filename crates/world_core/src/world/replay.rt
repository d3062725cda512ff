//! Replays the lines of a text, and reports how far the run prints them (docs/audit.md).
ghost use Rattle.std.specs.Prelude.{◌≡◌, ◌++◌, ◌≤◌, ◌<◌, ◌≢◌, [], ◌∷◌, true, List, IfOk, length};
ghost use Rattle.std.specs.Bool.{Decides};
ghost use Rattle.ipdl_base.specs.declared.line.Line.{Line as OfLine};

use super::World;
use crate::answers::StepAnswer;
use ipdl_base::Side;
use schedules::Turn;
use std::alloc::{AllocError, Global};
use transcripts::{
    Comparison, Ending, LineMatch, TranscriptLine, read_ending, read_line, split_line,
};
use value_types::boxes_say_nothing;

/// How far the lines of a text are the lines that a run prints which follows them (docs/audit.md).
#[derive(Clone, Copy, Debug, PartialEq, Eq)]
pub enum Replay {
    /// The text is all that the run prints, with the line of how it ends. Has the number of events.
    Complete(u32),
    /// The run prints all lines of the text, but the text stops early. Has the number of its lines.
    Incomplete(u32),
    /// The run prints this number of first lines of the text, and not the next line.
    Diverged(u32),
}

impl<'s> World<'s> {
    ghost use Rattle.handler_script.specs.Valid.{IsValid};
    ghost use Rattle.script_runs.specs.Endings.{EndsAs};
    ghost use Rattle.script_steps.specs.Choices.{beginning_of};
    ghost use Rattle.script_steps.specs.Turns.{at_limit, is_quiet, is_quiet_at};
    ghost use Rattle.transcripts.specs.TextLines.{text_lines};
    ghost use Rattle.transcripts.specs.Compared.{HasCompared, HasPassed, IsWithin, most_text_bytes};
    ghost use Rattle.transcripts.specs.declared.line.TranscriptLine.TheVariants as reading;
    ghost use Rattle.transcripts.specs.Lines.{IsReadAs};
    ghost use Rattle.world_core.specs.Followed.{Goes, SaysEnding, TellsTurn, lines_seen};
    ghost use Rattle.world_core.specs.Replayed.{IsReplayed};
    ghost use Rattle.world_core.specs.Worlds.{most_events};

    /// Follows the lines of a text from the beginning of the run, as far as the run prints them. Keeps only
    /// the newest line of the text. Fails only if memory runs out.
    pub fn replay(&mut self, alloc: Global, text: &[u8]) -> Result<Replay, AllocError>
        requires begins { self.old.state ≡ beginning_of self.old.setting }
        requires few { length text.now ≤ most_text_bytes }
        ensures { IfOk result (IsReplayed self.old.setting (text_lines text.now)) }
    {
        let mut comparison = Comparison::new(alloc, text);
        self.replay_left(&mut comparison)
    }

    // Follows the rest of a text.
    fn replay_left(&mut self, comparison: &mut Comparison<'_>) -> Result<Replay, AllocError>
        requires { HasPassed self.old.state.lines comparison.old }
        ensures { IfOk result (IsReplayed self.old.setting (lines_seen self.old comparison.old)) }
    {
        self.is_lawful();
        while !comparison.left().is_empty() {
            if let Some(replay) = self.follow_line(comparison)? {
                return Ok(replay);
            }
        }
        self.is_lawful();
        Ok(Replay::Incomplete(comparison.lines()))
    }

    // Follows the next line of a text, and what is printed with it.
    fn follow_line(&mut self, comparison: &mut Comparison<'_>) -> Result<Option<Replay>, AllocError>
        requires passed { HasPassed self.old.state.lines comparison.old }
        requires some { comparison.old.left.now ≢ [] }
        ensures { IfOk result (λ found. Goes self.old comparison.old found self.new comparison.new) }
    {
        self.is_lawful();
        let (line, following) = split_line(comparison.left());
        match read_line(line) {
            TranscriptLine::Event(turn) => self.follow_turn(comparison, turn),
            TranscriptLine::Effect => Ok(Some(Replay::Diverged(comparison.lines()))),
            TranscriptLine::Other => Ok(Some(self.end_at(comparison, line, following)?)),
        }
    }

    // Makes the turn that the next line of a text reports, and compares what it prints.
    fn follow_turn(
        &mut self,
        comparison: &mut Comparison<'_>,
        turn: Turn,
    ) -> Result<Option<Replay>, AllocError>
        requires passed { HasPassed self.old.state.lines comparison.old }
        requires told { TellsTurn comparison.old turn }
        ensures { IfOk result (λ found. Goes self.old comparison.old found self.new comparison.new) }
    {
        self.is_lawful();
        self.is_small();
        match self.step(turn) {
            StepAnswer::Did => match self.compare(comparison)? {
                LineMatch::All => Ok(None),
                LineMatch::Over => Ok(Some(Replay::Incomplete(comparison.lines()))),
                LineMatch::Other => Ok(Some(Replay::Diverged(comparison.lines()))),
            },
            StepAnswer::Nothing | StepAnswer::Spent(_) => {
                Ok(Some(Replay::Diverged(comparison.lines())))
            }
            StepAnswer::NoMemory => Err(AllocError),
        }
    }

    // Compares the lines of the history after those so far with the rest of a text.
    fn compare(&self, comparison: &mut Comparison<'_>) -> Result<LineMatch, AllocError>
        requires within { IsWithin comparison.old }
        requires there { comparison.old.lines ≤ length self.now.state.lines }
        ensures { IfOk result (λ found. (before more : List OfLine) → self.now.state.lines ≡ before ++ more
            → HasPassed before comparison.old
            → HasCompared self.now.setting.schema before more comparison.old found comparison.new) }
    {
        self.is_lawful();
        boxes_say_nothing();
        let lines = self.history().lines();
        let (_, newest) = lines.split_at(comparison.lines() as usize);
        comparison.compare(self.schema, newest)
    }

    // Returns how a replay ends at a line that reports neither an event nor an effect.
    fn end_at(
        &mut self,
        comparison: &Comparison<'_>,
        line: &[u8],
        following: &[u8],
    ) -> Result<Replay, AllocError>
        requires passed { HasPassed self.old.state.lines comparison.now }
        requires first { text_lines comparison.now.left.now ≡ line.now ∷ text_lines following.now }
        requires shorter { length following.now < length comparison.now.left.now }
        requires other { IsReadAs line.now reading.Other }
        ensures { IfOk result (IsReplayed self.old.setting (lines_seen self.old comparison.now)) }
    {
        self.is_lawful();
        if !self.says_ending(line)? {
            Ok(Replay::Diverged(comparison.lines()))
        } else if following.is_empty() {
            Ok(Replay::Complete(comparison.events()))
        } else {
            Ok(Replay::Diverged(comparison.lines() + 1))
        }
    }

    // Returns whether a line reports how the run ends. May make a step.
    fn says_ending(&mut self, line: &[u8]) -> Result<bool, AllocError>
        ensures { IfOk result (λ b. Decides b (SaysEnding self.old.setting self.old.state line.now)) }
    {
        match read_ending(line) {
            Some(Ending::Finished) => self.is_quiet(),
            Some(Ending::Spent(side)) => self.is_spent(side),
            None => Ok(false),
        }
    }

    // Returns whether no side has anything left to do. May make a step.
    fn is_quiet(&mut self) -> Result<bool, AllocError>
        ensures { IfOk result (λ b. b ≡ is_quiet self.old.setting self.old.state) }
    {
        if self.is_quiet_at(Side::Parent)? {
            self.is_quiet_at(Side::Child)
        } else {
            Ok(false)
        }
    }

    // Returns whether a side has nothing to do. May make a step.
    fn is_quiet_at(&mut self, side: Side) -> Result<bool, AllocError>
        ensures says { IfOk result (λ b. b ≡ is_quiet_at self.old.setting self.old.state side) }
        ensures same { IfOk result (λ b. b ≡ true → self.new ≡ self.old) }
    {
        match self.step(Turn::whole(side)) {
            StepAnswer::Nothing => Ok(true),
            StepAnswer::Did | StepAnswer::Spent(_) => Ok(false),
            StepAnswer::NoMemory => Err(AllocError),
        }
    }

    // Returns whether a side has something to do, but has reached its limit of events. If it has not
    // reached the limit, its step was made.
    fn is_spent(&mut self, side: Side) -> Result<bool, AllocError>
        ensures { IfOk result (λ b. Decides b (EndsAs self.old.setting self.old.state (at_limit side))) }
    {
        match self.step(Turn::whole(side)) {
            StepAnswer::Spent(_) => Ok(true),
            StepAnswer::Did | StepAnswer::Nothing => Ok(false),
            StepAnswer::NoMemory => Err(AllocError),
        }
    }

    // Shows that the script is valid, and that the limit is at most the greatest limit.
    fn is_small(&self)
        ensures valid { IsValid self.now.setting.schema self.now.setting.script }
        ensures small { self.now.setting.limit ≤ most_events }
    {
        let _limit = self.limit;
    }
}
