//! The law that a line has at most one reading.

ghost use Rattle.script_reader.specs.Laws.{OneReading};

/// The law of the language of scripts: a line has at most one reading, up to where boxes lie.
pub fn one_reading()
    ensures { OneReading }
{}
