//! What a side may do at the state of a run.

use super::World;
use crate::side_turns::{SideOptions, options_of};
use ipdl_base::Side;

impl<'s> World<'s> {
    ghost use Rattle.world_core.specs.Options.{AreOptionsAt};

    /// Returns what a side may do next, without a turn. Takes no memory.
    pub fn options(&self, side: Side) -> SideOptions
        ensures { AreOptionsAt self.now side result }
    {
        match side {
            Side::Parent => options_of(&self.parent, &self.link, side),
            Side::Child => options_of(&self.child, &self.link, side),
        }
    }
}
