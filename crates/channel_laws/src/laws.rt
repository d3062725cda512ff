//! Laws of nesting and waiting: no end waits for ever.
ghost use Rattle.channel_laws.specs.Laws.{EndsAreRecordedInRuns, LastPacketsFailAllWaits, NestedWorldsStay, NestingInEveryRun, RepliesFindTheirWaits, SoundSchemasHaveSoundRows, StillEndsWaitForNothing, StillHistoriesLeaveNoEndWaiting, SyncRepliesAreNotStray, WaitsGiveWay};

/// The law of rows: what the soundness of a schema implies for the row of each request.
pub fn sound_schemas_have_sound_rows()
    ensures { SoundSchemasHaveSoundRows }
{}

/// The law of worlds: the two ends are nested at the beginning, and every move keeps them nested.
pub fn nested_worlds_stay()
    ensures { NestedWorldsStay }
{}

/// The law of runs: the two ends are nested in every run.
pub fn nesting_in_every_run()
    ensures { NestingInEveryRun }
{}

/// The law of two waits: in every run two ends that both wait do not defer each other's request.
pub fn waits_give_way()
    ensures { WaitsGiveWay }
{}

/// The law of replies: in every run a reply that comes is for the innermost unanswered wait.
pub fn replies_find_their_waits()
    ensures { RepliesFindTheirWaits }
{}

/// The law of stray replies: no reply to a sync request is stray.
pub fn sync_replies_are_not_stray()
    ensures { SyncRepliesAreNotStray }
{}

/// The law of last packets: a goodbye or a mark fails all waits, the innermost first.
pub fn last_packets_fail_all_waits()
    ensures { LastPacketsFailAllWaits }
{}

/// The law of still worlds: in a still world no end waits for a reply.
pub fn still_ends_wait_for_nothing()
    ensures { StillEndsWaitForNothing }
{}

/// The law of still histories: a history that becomes still leaves no end waiting.
pub fn still_histories_leave_no_end_waiting()
    ensures { StillHistoriesLeaveNoEndWaiting }
{}

/// The law of ends: while an end is open, the link toward it shows whether the other end is open.
pub fn ends_are_recorded_in_runs()
    ensures { EndsAreRecordedInRuns }
{}
