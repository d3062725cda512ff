//! Looks at an end, which change nothing.
ghost use Rattle.std.specs.Prelude.{◌≡◌, ◌↔◌, IsTrue, Some, option_map};
ghost use Rattle.channel_model.specs.Answers.{handled_resolver};
ghost use Rattle.channel_model.specs.Returns.{dispatch_on_top};

use super::End;
use crate::answers::RunningHandler;
use crate::resolver::Resolver;
use ipdl_base::Side;

impl<'s> End<'s> {
    ghost use Rattle.channel_core.specs.Answers.{running_handler};

    /// Returns the side of the end. Takes no memory.
    pub fn side(&self) -> Side
        ensures { result ≡ self.now.end.side }
    {
        self.side
    }

    /// Returns the number of requests that the end has sent. Takes no memory.
    pub fn sent(&self) -> u32
        ensures { result ≡ self.now.end.sent }
    {
        self.sent
    }

    /// Returns the number of requests that were delivered to the end. Takes no memory.
    pub fn delivered(&self) -> u32
        ensures { result ≡ self.now.end.delivered }
    {
        self.delivered
    }

    /// Returns the handler on top of the stack, or `None` if there is none. Takes no memory.
    pub fn running(&self) -> Option<RunningHandler>
        ensures { result ≡ option_map running_handler (dispatch_on_top self.now.end.stack) }
    {
        let entry = self.stack.dispatch_on_top()?;
        Some(RunningHandler {
            seq: entry.head.seq,
            route: entry.route,
            number: entry.number,
            has_resolver: entry.resolves,
        })
    }

    /// Whether a resolver is that of a request whose handler runs here, neither used nor kept.
    /// Takes no memory.
    pub fn has_resolver(&self, resolver: &Resolver) -> bool
        ensures { IsTrue result ↔ (handled_resolver self.now.end resolver.now.seq ≡ Some resolver.now) }
    {
        self.stack.has_resolver(&resolver.key())
    }
}
