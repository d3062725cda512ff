//! The law of quiet worlds.
ghost use Rattle.channel_laws.specs.Quiet.{QuietWorldsAreStill};

/// The law of quiet worlds: if a choice of steps leaves no work undone, has no step left, and nothing can be
/// delivered, then the world is still and no end waits.
pub fn quiet_worlds_are_still()
    ensures { QuietWorldsAreStill }
{}
