//! The laws of plain runs.
ghost use Rattle.plain_runs.specs.Laws.{RelayLinesArePlain, ScriptLinesArePlain, StepsStayPlain};

/// The law of steps: of plain values they make plain lines, plain packets and a plain end.
pub fn steps_stay_plain()
    ensures { StepsStayPlain }
{}

/// The law of scripts: the lines of every run of a script are plain.
pub fn script_lines_are_plain()
    ensures { ScriptLinesArePlain }
{}

/// The law of relays: the lines of both ends of every relay are plain.
pub fn relay_lines_are_plain()
    ensures { RelayLinesArePlain }
{}
