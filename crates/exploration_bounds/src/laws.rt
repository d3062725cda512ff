//! The laws of ways and limits.
ghost use Rattle.exploration_bounds.specs.Laws.{LimitsDoNotMatter, WaysFinish};

/// The law of finished ways: where a script comes to rest, no way of it ends at the limit (docs/explore.md).
pub fn ways_finish()
    ensures { WaysFinish }
{}

/// The law of limits: where a script comes to rest, any greater limit gives the same exploration
/// (docs/explore.md).
pub fn limits_do_not_matter()
    ensures { LimitsDoNotMatter }
{}
