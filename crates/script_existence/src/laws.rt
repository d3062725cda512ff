//! The laws that a handler script has readings, a report, and a script or findings.

ghost use Rattle.script_existence.specs.Laws.{LinesHaveReadings, TextsHaveReadings, ReportsExist, ScriptsExist};

/// The law of lines: each line has a reading.
pub fn lines_have_readings()
    ensures { LinesHaveReadings }
{}

/// The law of texts: the lines of each text have readings.
pub fn texts_have_readings()
    ensures { TextsHaveReadings }
{}

/// The law of reports: for each text, schema and top protocol there is a report of the rules that the
/// text breaks.
pub fn reports_exist()
    ensures { ReportsExist }
{}

/// The law of scripts: for each text, schema and top protocol there is a script, or a report that is not
/// empty.
pub fn scripts_exist()
    ensures { ScriptsExist }
{}
