//! The law of falls, at one end and in every legal history.
ghost use Rattle.channel_laws.specs.ActorLaws.{EndsObeyFallen, HistoriesObeyFallen};

/// The law of falls at one end: the lines of an end obey the law of falls, whatever it receives, if it
/// refuses constructors whose new id is not the next.
pub fn ends_obey_fallen()
    ensures { EndsObeyFallen }
{}

/// The law of falls in histories: every legal history obeys the law of falls.
pub fn histories_obey_fallen()
    ensures { HistoriesObeyFallen }
{}
