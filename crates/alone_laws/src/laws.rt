//! Laws of the runs of one end, whoever sends to it.
ghost use Rattle.alone_laws.specs.Laws.{OneEndObeysAlone, OneEndObeysFallen};

/// The law of one end: an end settles promises and continues calls only by what was delivered to it, by falls
/// and by closings, whatever is delivered that it does not refuse.
pub fn one_end_obeys_alone()
    ensures { OneEndObeysAlone }
{}

/// The law of falls of one end: its lines can be read and obey the law Fallen, whatever is delivered to it.
pub fn one_end_obeys_fallen()
    ensures { OneEndObeysFallen }
{}
