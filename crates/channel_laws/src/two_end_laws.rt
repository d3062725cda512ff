//! Laws of the two ends of every run: protocols of ids, the order of requests, what is accepted, and what
//! fits.
ghost use Rattle.channel_laws.specs.TwoEndLaws.{HistoriesObeyLiving, HonestPacketsAreAccepted, ProtocolsInEveryRun, RequestsComeInOrder, TypesTellWhoLives, WorldsFitInRuns};
ghost use Rattle.channel_laws.specs.ValueReadings.{ValuesAreReadAlike};

/// The law of protocols: in every run each id has one protocol, which both ends and all packets use for it.
pub fn protocols_in_every_run()
    ensures { ProtocolsInEveryRun }
{}

/// The law of types: an actor in a value lives as one of its type's protocol if it lives at all.
pub fn types_tell_who_lives()
    ensures { TypesTellWhoLives }
{}

/// The law of values: lines, by ids alone, and ends put null in the place of the same actors, and miss the
/// same ones.
pub fn values_are_read_alike()
    ensures { ValuesAreReadAlike }
{}

/// The law of numbers: in every run the requests that come to an open end have the other end's next numbers,
/// and the constructors among them have its next ids.
pub fn requests_come_in_order()
    ensures { RequestsComeInOrder }
{}

/// The law of the living in histories: every legal history obeys the law of the living.
pub fn histories_obey_living()
    ensures { HistoriesObeyLiving }
{}

/// The law of honest packets: in every run an open end accepts each packet that comes to it. So no end of a
/// channel sends a packet that the other end refuses.
pub fn honest_packets_are_accepted()
    ensures { HonestPacketsAreAccepted }
{}

/// The law of what fits: as long as each end has sent less than 2^28 requests, all that the ends keep and
/// send fits the schema.
pub fn worlds_fit_in_runs()
    ensures { WorldsFitInRuns }
{}
