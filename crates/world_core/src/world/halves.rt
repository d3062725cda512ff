//! Splits a world into its halves and its link, and joins them again.
ghost use Rattle.std.specs.Prelude.{◌≡◌, []};
ghost use Rattle.ipdl_base.specs.declared.kinds.Side.TheVariants as sides;
ghost use Rattle.relay_runs.specs.HalfRuns.{opening_half};

use super::World;
use crate::half::Half;
use crate::link::Link;

impl<'s> World<'s> {
    ghost use Rattle.world_core.specs.HalfView.{setting_of};
    ghost use Rattle.world_core.specs.Halves.{IsSplit, joined};
    ghost use Rattle.world_core.specs.Relaying.{GoesApart};
    ghost use Rattle.world_core.specs.WorldView.{opening_of};

    /// Returns the parent, the child and the link of the run, each of which can continue on its own. Takes
    /// no memory.
    pub fn split(self) -> (Half<'s>, Half<'s>, Link)
        ensures apart { IsSplit self.entry.setting result.0 result.1 result.2 }
        ensures same { joined result.0 result.2 ≡ self.entry }
    {
        (self.parent, self.child, self.link)
    }

    /// Joins both halves and the link, where no half has anything left to append. Takes no memory.
    pub fn join(parent: Half<'s>, child: Half<'s>, link: Link) -> World<'s>
        requires { IsSplit (setting_of parent) parent child link }
        ensures { result ≡ joined parent.entry link }
    {
        World {
            schema: parent.schema(),
            script: parent.script(),
            stop: parent.stop(),
            limit: parent.limit(),
            parent,
            child,
            link,
        }
    }

    /// Returns the parent and the child of a run that has just begun, each of which continues by itself.
    /// Takes no memory.
    pub fn into_halves(self) -> (Half<'s>, Half<'s>)
        requires { self ≡ opening_of self.setting }
        ensures parent { GoesApart self.entry.setting sides.Parent (opening_half self.entry.setting sides.Parent) [] result.0 }
        ensures child { GoesApart self.entry.setting sides.Child (opening_half self.entry.setting sides.Child) [] result.1 }
    {
        let mut parent = self.parent;
        let mut child = self.child;
        parent.set_out();
        child.set_out();
        (parent, child)
    }
}
