//! Laws of the reading of a history's lines.
ghost use Rattle.channel_laws.specs.ReadingLaws.{HistoriesAreReadable, ReadingIsWorld};

/// The law of the reading: the reading of the lines of every run is its world.
pub fn reading_is_world()
    ensures { ReadingIsWorld }
{}

/// The law of readable histories: every legal history can be read.
pub fn histories_are_readable()
    ensures { HistoriesAreReadable }
{}
