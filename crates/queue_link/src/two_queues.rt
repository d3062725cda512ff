//! The relay that gives each side a thread of its own.
ghost use Rattle.std.specs.Prelude.{◌≡◌};
ghost use Rattle.std.specs.Thread.{IsSync};
ghost use Rattle.ipdl_base.specs.Sound.{IsSound};
ghost use Rattle.script_runs.specs.Laws.{HasLimit};
ghost use Rattle.world_core.specs.Relaying.{IsRelayed, RelayGives};
ghost use Rattle.world_core.specs.WorldView.{opening_of};
ghost use Rattle.queue_link.specs.HalvesAlone.{ObeyAlone};

use crate::workers::run_apart;
use relay_history::relays_come_in_order;
use relay_laws::relays_obey_alone;
use schedules::Gate;
use std::alloc::Global;
use std::sync::Wait;
use std::thread::Threads;
use world_core::{Halves, Relay, RunAnswer, World};

/// Runs each side on a thread of its own, with a queue to the other side (docs/relay.md). A run may wait,
/// and its contract holds if it returns.
#[derive(Drop)]
pub struct TwoQueues<'r, R: Threads + Wait + Sync + AllocGlobal> {
    rt: &'r R,
    gate: Gate,
}

impl<'r, R: Threads + Wait + Sync + AllocGlobal> TwoQueues<'r, R> {
    /// Creates the relay whose sides pass a gate before each own step, while both run at once. Takes no
    /// memory.
    pub fn new(rt: &'r R, gate: Gate) -> TwoQueues<'r, R>
        ensures { IsSync R.row }
    {
        TwoQueues { rt, gate }
    }

    /// Lends the gate. Takes no memory.
    pub fn gate(&self) -> &Gate
        ensures { result.now ≡ self.now.gate }
    {
        &self.gate
    }
}

impl<'r, R: Threads + Wait + Sync + AllocGlobal> Relay for TwoQueues<'r, R> {
    ghost Gives = { λ _ before halves answer. IsRelayed before.setting halves answer };

    ghost ready = { λ _. IsSync R.row };

    /// Runs a world by whatever gate. In addition to what every relay promises, each half obeys what one end
    /// by itself obeys, for a sound schema.
    fn run_queues<'s>(&mut self, world: World<'s>) -> (Halves, RunAnswer)
        requires ready { IsSync R.row }
        requires opening { world ≡ opening_of world.setting }
        ensures gives { RelayGives (λ before halves answer. IsRelayed before.setting halves answer) world.entry result.0 result.1 }
        ensures relayed { IsRelayed world.entry.setting result.0 result.1 }
        ensures alone { IsSound world.entry.setting.schema → HasLimit world.entry.setting → ObeyAlone world.entry.setting result.0 result.1 }
    {
        relays_come_in_order();
        relays_obey_alone();
        run_world(self.rt, self.rt.alloc(), &self.gate, world)
    }
}

// Runs a world over two queues.
fn run_world<'s, R: Threads + Wait + Sync>(
    rt: &R,
    alloc: Global,
    gate: &Gate,
    world: World<'s>,
) -> (Halves, RunAnswer)
    requires opening { world ≡ opening_of world.setting }
    ensures { IsRelayed world.entry.setting result.0 result.1 }
{
    let (mut parent, mut child) = world.into_halves();
    let answer = run_apart(rt, alloc, gate, &mut parent, &mut child);
    let halves = Halves {
        parent: parent.into_lines(),
        child: child.into_lines(),
    };
    (halves, answer)
}
