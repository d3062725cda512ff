//! Rows on the law Settled.

/// Lists of lines that the law Settled does not hold of, in the same form.
pub const SETTLED: &str = "PC-01-c PC.ipdl yyyny
Settled: ActorDestroyed
child send -1 to 2147483647 PC.Ask(24)
parent deliver request -1
parent take -1 at 2147483647 PC.Ask(24)
parent resolve -1 (false)
child deliver reply -1
child take reply -1
  settle -1 rejected ActorDestroyed
====
PC-01-d PC.ipdl yyyny
Settled: ChannelClosed
child send -1 to 2147483647 PC.Ask(24)
parent deliver request -1
parent take -1 at 2147483647 PC.Ask(24)
parent resolve -1 (false)
child deliver reply -1
child take reply -1
  settle -1 rejected ChannelClosed
====
PQ-03-b PQ.ipdl yyyny
Settled: HandlerRejected
parent send 1 to 2147483647 PQ.Get()
child deliver request 1
child take 1 at 2147483647 PQ.Get()
child reject 1
child die
parent deliver reply 1
parent send 2 to 2147483647 PQ.Get()
parent take reply 1
  settle 1 rejected HandlerRejected
parent send 3 to 2147483647 PQ.Get()
parent deliver broken
parent shut AbnormalShutdown
  settle 2 rejected ChannelClosed
  settle 3 rejected HandlerRejected
  fall 2147483647 AbnormalShutdown
====
PQ-02-e PQ.ipdl yyyny
Settled: ResolverDestroyed
parent send 1 to 2147483647 PQ.Get()
parent let a 4
child deliver request 1
child refused DeadActor PQ.Tell
child take 1 at 2147483647 PQ.Get()
child keep 1 b
child send -1 to 2147483647 PQ.Get()
  settle -1 rejected ResolverDestroyed
child resolve 1 (79)
parent deliver request -1
====
PQ-03-a PQ.ipdl yyyny
Settled: over
parent send 1 to 2147483647 PQ.Get()
child deliver request 1
child take 1 at 2147483647 PQ.Get()
child reject 1
child die
parent deliver reply 1
parent send 2 to 2147483647 PQ.Get()
parent take reply 1
  settle 1 rejected HandlerRejected
parent send 3 to 2147483647 PQ.Get()
parent deliver broken
parent shut AbnormalShutdown
  settle 3 rejected ChannelClosed
  fall 2147483647 AbnormalShutdown
====
PC-01-g PC.ipdl yyyny
Settled: resolved
child send -1 to 2147483647 PC.Ask(24)
parent deliver request -1
parent take -1 at 2147483647 PC.Ask(24)
parent resolve -1 (false)
child deliver reply -1
child take reply -1
  settle -1 resolved (true)
====
PQ-03-c PQ.ipdl yyyny
Settled: settle again
parent send 1 to 2147483647 PQ.Get()
child deliver request 1
child take 1 at 2147483647 PQ.Get()
child reject 1
child die
parent deliver reply 1
parent send 2 to 2147483647 PQ.Get()
parent take reply 1
  settle 1 rejected HandlerRejected
parent send 3 to 2147483647 PQ.Get()
parent deliver broken
parent shut AbnormalShutdown
  settle 2 rejected ChannelClosed
  settle 3 rejected ChannelClosed
  fall 2147483647 AbnormalShutdown
  settle 1 rejected HandlerRejected
====
PQ-02-d PQ.ipdl yyyny
Settled: settle of no promise
parent send 1 to 2147483647 PQ.Get()
parent let a 4
child deliver request 1
child refused DeadActor PQ.Tell
child take 1 at 2147483647 PQ.Get()
  settle -1 rejected ResolverDestroyed
child keep 1 b
child send -1 to 2147483647 PQ.Get()
child resolve 1 (79)
parent deliver request -1
";

/// The number of rows.
pub const SETTLED_COUNT: &str = "8";
