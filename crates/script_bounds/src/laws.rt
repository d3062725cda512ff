//! Laws of the number of events in a run of a script.

ghost use Rattle.script_bounds.specs.Laws.{ActsAreActions, BlocksServeOnce, RunsAreBounded, ScriptsComeToRest};

/// The law of acts: a side has no more acts than the actions of its main and of the blocks that served
/// its requests, plus its death by a stop.
pub fn acts_are_actions()
    ensures { ActsAreActions }
{}

/// The law of blocks: each serves one request, except the last block of a message.
pub fn blocks_serve_once()
    ensures { BlocksServeOnce }
{}

/// The law of bounds: a run has at most seven events for each action.
pub fn runs_are_bounded()
    ensures { RunsAreBounded }
{}

/// The law of rest: if the last block of each message has no actions, every run comes to rest below a
/// limit that is large enough.
pub fn scripts_come_to_rest()
    ensures { ScriptsComeToRest }
{}
